//! The objects of a table, kind by kind.

use crate::configs::{
    BlackboardConfig, BufferConfig, EventFlagConfig, MutexConfig, SemaphoreConfig,
};
use std::marker::Model;

/// The objects of a table, kind by kind, each kind in the order of its ids: at most 16 of each.
#[derive(Drop)]
pub struct Objects {
    pub semaphores: Vec<SemaphoreConfig>,
    pub buffers: Vec<BufferConfig>,
    pub blackboards: Vec<BlackboardConfig>,
    pub event_flags: Vec<EventFlagConfig>,
    pub mutexes: Vec<MutexConfig>,
}

impl Model for Objects {
    ghost use Rattle.std.specs.Prelude.{◌≤◌, length};
    ghost use Rattle.apex_types.specs.declared.limits.TheConstants.{MOST_OBJECTS};
    ghost use Rattle.apex_configs.specs.Objects.{Objects};

    ghost Value = { Objects };

    ghost view = { λ o. record {
      semaphores = o.semaphores.items;
      buffers = o.buffers.items;
      blackboards = o.blackboards.items;
      event_flags = o.event_flags.items;
      mutexes = o.mutexes.items;
    } };

    ghost invariant = { λ o. (length o.semaphores.items ≤ MOST_OBJECTS)
        × (length o.buffers.items ≤ MOST_OBJECTS)
        × (length o.blackboards.items ≤ MOST_OBJECTS)
        × (length o.event_flags.items ≤ MOST_OBJECTS)
        × (length o.mutexes.items ≤ MOST_OBJECTS) };
}
