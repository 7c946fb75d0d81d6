//! The section of mutexes.
ghost use Rattle.apex_table.specs.Mutexes.{mutexes};

use crate::keys;
use crate::named::HasName;
use crate::sections::{EntryKind, SectionHead};
use apex_configs::MutexConfig;
use apex_types::{MOST_OBJECTS, MOST_PRIORITY, Name};
use apex_words::{Key, Place, Section, TableFault};
use std::alloc::Global;
use toml::Table;

impl HasName for MutexConfig {
    ghost name_of = { λ m. m.name };

    fn name(&self) -> &Name {
        MutexConfig::name(self)
    }
}

/// The kind of mutexes.
#[derive(Drop)]
pub struct Mutexes;

impl<'a> EntryKind<'a> for Mutexes {
    type Entry = MutexConfig;

    ghost head = { λ _. mutexes.head };

    ghost read = { λ _. mutexes.read };

    fn head(&self) -> SectionHead<'static> {
        SectionHead {
            section: Section::Mutex,
            most: MOST_OBJECTS,
            keys: &[Key::Name, Key::Ceiling, Key::Discipline],
        }
    }

    #[tactic(auto, unfolding(crate::specs::Mutexes::mutex))]
    fn entry(
        &self,
        _alloc: Global,
        at: Place,
        name: Name,
        table: &'a Table,
    ) -> Result<MutexConfig, TableFault> {
        let ceiling = keys::number_at(at, 1, MOST_PRIORITY, table, Key::Ceiling)?;
        let discipline = keys::discipline_at(at, table)?;
        Ok(MutexConfig::new(name, ceiling as u8, discipline))
    }
}
