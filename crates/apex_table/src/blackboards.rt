//! The section of blackboards.
ghost use Rattle.apex_table.specs.Blackboards.{blackboards};

use crate::keys;
use crate::named::HasName;
use crate::sections::{EntryKind, SectionHead};
use apex_configs::BlackboardConfig;
use apex_types::{MOST_MESSAGE, MOST_OBJECTS, Name};
use apex_words::{Key, Place, Section, TableFault};
use std::alloc::Global;
use toml::Table;

impl HasName for BlackboardConfig {
    ghost name_of = { λ b. b.name };

    fn name(&self) -> &Name {
        BlackboardConfig::name(self)
    }
}

/// The kind of blackboards.
#[derive(Drop)]
pub struct Blackboards;

impl<'a> EntryKind<'a> for Blackboards {
    type Entry = BlackboardConfig;

    ghost head = { λ _. blackboards.head };

    ghost read = { λ _. blackboards.read };

    fn head(&self) -> SectionHead<'static> {
        SectionHead {
            section: Section::Blackboard,
            most: MOST_OBJECTS,
            keys: &[Key::Name, Key::Length],
        }
    }

    #[tactic(auto, unfolding(crate::specs::Blackboards::blackboard))]
    fn entry(
        &self,
        _alloc: Global,
        at: Place,
        name: Name,
        table: &'a Table,
    ) -> Result<BlackboardConfig, TableFault> {
        let length = keys::number_at(at, 1, MOST_MESSAGE as u32, table, Key::Length)?;
        Ok(BlackboardConfig::new(name, length as u8))
    }
}
