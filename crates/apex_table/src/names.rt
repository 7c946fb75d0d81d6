//! The names of a table's things, kind by kind.
ghost use Rattle.std.specs.Prelude.{◌≡◌, ◌≤◌, map, length, IfOk};
ghost use Rattle.apex_types.specs.declared.limits.TheConstants.{MOST_PROCESSES};
ghost use Rattle.apex_table.specs.Names.{names_in, names_of};

use crate::named::HasName;
use crate::processes::Draft;
use apex_calls::Kind;
use apex_configs::Objects;
use apex_types::Name;
use std::alloc::{AllocError, Global};
use std::marker::Model;

/// The names that a table gives its things, kind by kind. Steps name things by them.
#[derive(Drop)]
pub struct Names {
    processes: Vec<Name>,
    semaphores: Vec<Name>,
    buffers: Vec<Name>,
    blackboards: Vec<Name>,
    event_flags: Vec<Name>,
    mutexes: Vec<Name>,
}

impl Model for Names {
    ghost use Rattle.std.specs.Prelude.{◌≤◌, length};
    ghost use Rattle.apex_types.specs.declared.limits.TheConstants.{MOST_OBJECTS, MOST_PROCESSES};
    ghost use Rattle.apex_table.specs.Names.{Names};

    ghost Value = { Names };

    ghost view = { λ n. record {
      processes = n.processes.items;
      semaphores = n.semaphores.items;
      buffers = n.buffers.items;
      blackboards = n.blackboards.items;
      event_flags = n.event_flags.items;
      mutexes = n.mutexes.items;
    } };

    ghost invariant = { λ n. (length n.processes.items ≤ MOST_PROCESSES)
        × (length n.semaphores.items ≤ MOST_OBJECTS)
        × (length n.buffers.items ≤ MOST_OBJECTS)
        × (length n.blackboards.items ≤ MOST_OBJECTS)
        × (length n.event_flags.items ≤ MOST_OBJECTS)
        × (length n.mutexes.items ≤ MOST_OBJECTS) };
}

/// The names of the entries of one kind.
fn listed<T: HasName>(alloc: Global, entries: &[T]) -> Result<Vec<Name>, AllocError>
    ensures { IfOk result (λ names. names.items ≡ map T.name_of entries.now) }
{
    let mut names = Vec::with_capacity(alloc, entries.len())?;
    for entry in entries {
        names.push(*entry.name())?;
    }
    Ok(names)
}

impl Names {
    /// The names of these things. It fails only for want of memory.
    pub fn of(alloc: Global, processes: &[Draft], objects: &Objects) -> Result<Names, AllocError>
        requires { length processes.now ≤ MOST_PROCESSES }
        ensures { IfOk result (λ names. names ≡ names_of processes.now objects.now) }
    {
        Ok(Names {
            processes: listed(alloc, processes)?,
            semaphores: listed(alloc, &objects.semaphores)?,
            buffers: listed(alloc, &objects.buffers)?,
            blackboards: listed(alloc, &objects.blackboards)?,
            event_flags: listed(alloc, &objects.event_flags)?,
            mutexes: listed(alloc, &objects.mutexes)?,
        })
    }

    /// The names of the things of this kind.
    pub fn of_kind(&self, kind: &Kind) -> &[Name]
        ensures value { result.now ≡ names_in self.now kind.now }
        ensures few_names { length result.now ≤ MOST_PROCESSES }
    {
        match kind {
            Kind::Process => &self.processes,
            Kind::Semaphore => &self.semaphores,
            Kind::Buffer => &self.buffers,
            Kind::Blackboard => &self.blackboards,
            Kind::EventFlag => &self.event_flags,
            Kind::Mutex => &self.mutexes,
        }
    }
}
