//! The section of event flags.
ghost use Rattle.apex_table.specs.EventFlags.{event_flags};

use crate::named::HasName;
use crate::sections::{EntryKind, SectionHead};
use apex_configs::EventFlagConfig;
use apex_types::{MOST_OBJECTS, Name};
use apex_words::{Key, Place, Section, TableFault};
use std::alloc::Global;
use toml::Table;

impl HasName for EventFlagConfig {
    ghost name_of = { λ e. e.name };

    fn name(&self) -> &Name {
        EventFlagConfig::name(self)
    }
}

/// The kind of event flags.
#[derive(Drop)]
pub struct EventFlags;

impl<'a> EntryKind<'a> for EventFlags {
    type Entry = EventFlagConfig;

    ghost head = { λ _. event_flags.head };

    ghost read = { λ _. event_flags.read };

    fn head(&self) -> SectionHead<'static> {
        SectionHead {
            section: Section::EventFlag,
            most: MOST_OBJECTS,
            keys: &[Key::Name],
        }
    }

    fn entry(
        &self,
        _alloc: Global,
        _at: Place,
        name: Name,
        _table: &'a Table,
    ) -> Result<EventFlagConfig, TableFault> {
        Ok(EventFlagConfig::new(name))
    }
}
