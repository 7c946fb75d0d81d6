//! The sections of objects.
ghost use Rattle.toml.specs.View.{table_view};
ghost use Rattle.apex_words.specs.Outcome.{Gives};
ghost use Rattle.apex_table.specs.Objects.{objects};

use crate::blackboards::Blackboards;
use crate::buffers::Buffers;
use crate::event_flags::EventFlags;
use crate::mutexes::Mutexes;
use crate::sections::read_section;
use crate::semaphores::Semaphores;
use apex_configs::Objects;
use apex_words::TableFault;
use std::alloc::Global;

/// Reads the sections of objects, from the top of the table.
#[tactic(auto, unfolding(crate::specs::Objects::objects))]
pub fn read_objects(alloc: Global, top: &toml::Table) -> Result<Objects, TableFault>
    ensures { Gives (λ o. o) result (objects (table_view top.now)) }
{
    Ok(Objects {
        semaphores: read_section(alloc, &Semaphores, top)?,
        buffers: read_section(alloc, &Buffers, top)?,
        blackboards: read_section(alloc, &Blackboards, top)?,
        event_flags: read_section(alloc, &EventFlags, top)?,
        mutexes: read_section(alloc, &Mutexes, top)?,
    })
}
