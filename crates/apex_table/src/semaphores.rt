//! The section of semaphores.
ghost use Rattle.apex_table.specs.Semaphores.{semaphores};

use crate::keys;
use crate::named::HasName;
use crate::sections::{EntryKind, SectionHead};
use apex_configs::SemaphoreConfig;
use apex_types::{MOST_OBJECTS, MOST_VALUE, Name};
use apex_words::{Key, Place, Section, TableFault};
use std::alloc::Global;
use toml::Table;

impl HasName for SemaphoreConfig {
    ghost name_of = { λ s. s.name };

    fn name(&self) -> &Name {
        SemaphoreConfig::name(self)
    }
}

/// The kind of semaphores.
#[derive(Drop)]
pub struct Semaphores;

impl<'a> EntryKind<'a> for Semaphores {
    type Entry = SemaphoreConfig;

    ghost head = { λ _. semaphores.head };

    ghost read = { λ _. semaphores.read };

    fn head(&self) -> SectionHead<'static> {
        SectionHead {
            section: Section::Semaphore,
            most: MOST_OBJECTS,
            keys: &[Key::Name, Key::Maximum, Key::Initial, Key::Discipline],
        }
    }

    #[tactic(auto, unfolding(crate::specs::Semaphores::semaphore))]
    fn entry(
        &self,
        _alloc: Global,
        at: Place,
        name: Name,
        table: &'a Table,
    ) -> Result<SemaphoreConfig, TableFault> {
        let maximum = keys::number_at(at, 1, MOST_VALUE, table, Key::Maximum)?;
        let initial = keys::number_at(at, 0, maximum, table, Key::Initial)?;
        let discipline = keys::discipline_at(at, table)?;
        Ok(SemaphoreConfig::new(name, maximum as u16, initial as u16, discipline))
    }
}
