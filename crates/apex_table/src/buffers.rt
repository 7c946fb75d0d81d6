//! The section of buffers.
ghost use Rattle.apex_table.specs.Buffers.{buffers};

use crate::keys;
use crate::named::HasName;
use crate::sections::{EntryKind, SectionHead};
use apex_configs::BufferConfig;
use apex_types::{MOST_MESSAGE, MOST_MESSAGES, MOST_OBJECTS, Name};
use apex_words::{Key, Place, Section, TableFault};
use std::alloc::Global;
use toml::Table;

impl HasName for BufferConfig {
    ghost name_of = { λ b. b.name };

    fn name(&self) -> &Name {
        BufferConfig::name(self)
    }
}

/// The kind of buffers.
#[derive(Drop)]
pub struct Buffers;

impl<'a> EntryKind<'a> for Buffers {
    type Entry = BufferConfig;

    ghost head = { λ _. buffers.head };

    ghost read = { λ _. buffers.read };

    fn head(&self) -> SectionHead<'static> {
        SectionHead {
            section: Section::Buffer,
            most: MOST_OBJECTS,
            keys: &[Key::Name, Key::Length, Key::Capacity, Key::Discipline],
        }
    }

    #[tactic(auto, unfolding(crate::specs::Buffers::buffer))]
    fn entry(
        &self,
        _alloc: Global,
        at: Place,
        name: Name,
        table: &'a Table,
    ) -> Result<BufferConfig, TableFault> {
        let length = keys::number_at(at, 1, MOST_MESSAGE as u32, table, Key::Length)?;
        let capacity = keys::number_at(at, 1, MOST_MESSAGES as u32, table, Key::Capacity)?;
        let discipline = keys::discipline_at(at, table)?;
        Ok(BufferConfig::new(name, length as u8, capacity as u8, discipline))
    }
}
