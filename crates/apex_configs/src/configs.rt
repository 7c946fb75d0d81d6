//! The attributes of a process, and of an object of each kind, in the table.
ghost use Rattle.std.specs.Prelude.{◌≡◌, ◌≤◌, length};
ghost use Rattle.apex_types.specs.declared.limits.TheConstants.{MOST_LITERAL};
ghost use Rattle.apex_machine.specs.table.Table.{step_at, call_in};

use crate::listed::{call_in, literal_in};
use apex_machine::{Attributes, Step};
use apex_types::{Call, CoreId, Discipline, Name};
use std::marker::Model;

/// A process as the table gives it (ARINC 653 Part 1, process management).
#[derive(Drop)]
pub struct ProcessConfig {
    name: Name,
    attributes: Attributes,
    core: CoreId,
    loops: bool,
    starts: bool,
    script: Vec<Step>,
}

impl Model for ProcessConfig {
    ghost use Rattle.apex_machine.specs.table.Table.{ProcessConfig};

    ghost Value = { ProcessConfig };

    ghost view = { λ p. record {
      name = p.name;
      attributes = p.attributes;
      core = p.core;
      loops = p.loops;
      start = p.starts;
      script = p.script.items;
    } };
}

impl ProcessConfig {
    /// The process of these parts. The default init list alone reads `core` and `starts`.
    pub fn new(
        name: Name,
        attributes: Attributes,
        core: CoreId,
        loops: bool,
        starts: bool,
        script: Vec<Step>,
    ) -> ProcessConfig
        ensures { result ≡ record {
          name = name;
          attributes = attributes;
          core = core;
          loops = loops;
          start = starts;
          script = script.items;
        } }
    {
        ProcessConfig {
            name,
            attributes,
            core,
            loops,
            starts,
            script,
        }
    }

    /// The name by which steps ask for it.
    pub fn name(&self) -> &Name
        ensures { result.now ≡ self.now.name }
    {
        &self.name
    }

    /// Its base priority, its period, its capacity and its type of deadline.
    pub fn attributes(&self) -> Attributes
        ensures { result ≡ self.now.attributes }
    {
        self.attributes
    }

    /// The core that the default init list gives the process.
    pub fn core(&self) -> CoreId
        ensures { result ≡ self.now.core }
    {
        self.core
    }

    /// Whether the script begins anew after its last step.
    pub fn loops(&self) -> bool
        ensures { result ≡ self.now.loops }
    {
        self.loops
    }

    /// Whether the default init list starts the process.
    pub fn starts(&self) -> bool
        ensures { result ≡ self.now.start }
    {
        self.starts
    }

    /// The number of steps that the script has.
    pub fn step_count(&self) -> usize
        ensures { result ≡ length self.now.script }
    {
        self.script.len()
    }

    /// The call of the step at this place of the script, counted from 0, or none past its end.
    pub fn call(&self, place: usize) -> Option<Call>
        ensures { result ≡ call_in self.now.script place }
    {
        call_in(&self.script, place)
    }

    /// The literal of the step at this place of the script, counted from 0, which has no byte past
    /// its end.
    pub fn literal(&self, place: usize) -> &[u8]
        ensures value { result.now ≡ (step_at self.now.script place).literal }
        ensures range { length result.now ≤ MOST_LITERAL }
    {
        literal_in(&self.script, place)
    }
}

/// A semaphore as the table gives it (ARINC 653 Part 1, semaphores).
#[derive(Drop)]
pub struct SemaphoreConfig {
    name: Name,
    maximum: u16,
    initial: u16,
    discipline: Discipline,
}

impl Model for SemaphoreConfig {
    ghost use Rattle.apex_machine.specs.table.Table.{SemaphoreConfig};

    ghost Value = { SemaphoreConfig };

    ghost view = { λ s. record {
      name = s.name;
      maximum = s.maximum;
      initial = s.initial;
      discipline = s.discipline;
    } };
}

impl SemaphoreConfig {
    /// The semaphore with this greatest value, which is created with the initial one.
    pub fn new(name: Name, maximum: u16, initial: u16, discipline: Discipline) -> SemaphoreConfig
        ensures { result ≡ record {
          name = name;
          maximum = maximum;
          initial = initial;
          discipline = discipline;
        } }
    {
        SemaphoreConfig {
            name,
            maximum,
            initial,
            discipline,
        }
    }

    /// The name by which steps ask for it.
    pub fn name(&self) -> &Name
        ensures { result.now ≡ self.now.name }
    {
        &self.name
    }

    /// The greatest value.
    pub fn maximum(&self) -> u16
        ensures { result ≡ self.now.maximum }
    {
        self.maximum
    }

    /// The value with which the semaphore is created.
    pub fn initial(&self) -> u16
        ensures { result ≡ self.now.initial }
    {
        self.initial
    }

    /// The order of the processes that wait.
    pub fn discipline(&self) -> Discipline
        ensures { result ≡ self.now.discipline }
    {
        self.discipline
    }
}

/// A buffer as the table gives it (ARINC 653 Part 1, buffers).
#[derive(Drop)]
pub struct BufferConfig {
    name: Name,
    length: u8,
    capacity: u8,
    discipline: Discipline,
}

impl Model for BufferConfig {
    ghost use Rattle.apex_machine.specs.table.Table.{BufferConfig};

    ghost Value = { BufferConfig };

    ghost view = { λ b. record {
      name = b.name;
      length = b.length;
      capacity = b.capacity;
      discipline = b.discipline;
    } };
}

impl BufferConfig {
    /// The buffer that holds at most `capacity` messages, each of at most `length` bytes.
    pub fn new(name: Name, length: u8, capacity: u8, discipline: Discipline) -> BufferConfig
        ensures { result ≡ record {
          name = name;
          length = length;
          capacity = capacity;
          discipline = discipline;
        } }
    {
        BufferConfig {
            name,
            length,
            capacity,
            discipline,
        }
    }

    /// The name by which steps ask for it.
    pub fn name(&self) -> &Name
        ensures { result.now ≡ self.now.name }
    {
        &self.name
    }

    /// The most bytes of a message.
    pub fn length(&self) -> u8
        ensures { result ≡ self.now.length }
    {
        self.length
    }

    /// The most messages that it holds.
    pub fn capacity(&self) -> u8
        ensures { result ≡ self.now.capacity }
    {
        self.capacity
    }

    /// The order of the processes that wait.
    pub fn discipline(&self) -> Discipline
        ensures { result ≡ self.now.discipline }
    {
        self.discipline
    }
}

/// A blackboard as the table gives it (ARINC 653 Part 1, blackboards).
#[derive(Drop)]
pub struct BlackboardConfig {
    name: Name,
    length: u8,
}

impl Model for BlackboardConfig {
    ghost use Rattle.apex_machine.specs.table.Table.{BlackboardConfig};

    ghost Value = { BlackboardConfig };

    ghost view = { λ b. record { name = b.name; length = b.length } };
}

impl BlackboardConfig {
    /// The blackboard whose message has at most `length` bytes.
    pub fn new(name: Name, length: u8) -> BlackboardConfig
        ensures { result ≡ record { name = name; length = length } }
    {
        BlackboardConfig { name, length }
    }

    /// The name by which steps ask for it.
    pub fn name(&self) -> &Name
        ensures { result.now ≡ self.now.name }
    {
        &self.name
    }

    /// The most bytes of a message.
    pub fn length(&self) -> u8
        ensures { result ≡ self.now.length }
    {
        self.length
    }
}

/// An event flag as the table gives it (ARINC 653 Part 1, events).
#[derive(Drop)]
pub struct EventFlagConfig {
    name: Name,
}

impl Model for EventFlagConfig {
    ghost use Rattle.apex_machine.specs.table.Table.{EventFlagConfig};

    ghost Value = { EventFlagConfig };

    ghost view = { λ e. record { name = e.name } };
}

impl EventFlagConfig {
    /// The event flag of this name.
    pub fn new(name: Name) -> EventFlagConfig
        ensures { result ≡ record { name = name } }
    {
        EventFlagConfig { name }
    }

    /// The name by which steps ask for it.
    pub fn name(&self) -> &Name
        ensures { result.now ≡ self.now.name }
    {
        &self.name
    }
}

/// A mutex as the table gives it (this profile).
#[derive(Drop)]
pub struct MutexConfig {
    name: Name,
    ceiling: u8,
    discipline: Discipline,
}

impl Model for MutexConfig {
    ghost use Rattle.apex_machine.specs.table.Table.{MutexConfig};

    ghost Value = { MutexConfig };

    ghost view = { λ m. record { name = m.name; ceiling = m.ceiling; discipline = m.discipline } };
}

impl MutexConfig {
    /// The mutex that raises its owner to the priority `ceiling`.
    pub fn new(name: Name, ceiling: u8, discipline: Discipline) -> MutexConfig
        ensures { result ≡ record { name = name; ceiling = ceiling; discipline = discipline } }
    {
        MutexConfig {
            name,
            ceiling,
            discipline,
        }
    }

    /// The name by which steps ask for it.
    pub fn name(&self) -> &Name
        ensures { result.now ≡ self.now.name }
    {
        &self.name
    }

    /// The priority to which the mutex raises its owner.
    pub fn ceiling(&self) -> u8
        ensures { result ≡ self.now.ceiling }
    {
        self.ceiling
    }

    /// The order of the processes that wait.
    pub fn discipline(&self) -> Discipline
        ensures { result ≡ self.now.discipline }
    {
        self.discipline
    }
}
