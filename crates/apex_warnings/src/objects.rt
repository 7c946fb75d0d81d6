//! The objects of a table, kind by kind.
ghost use Rattle.std.specs.Prelude.{◌≡◌, ◌≤◌};
ghost use Rattle.apex_types.specs.declared.limits.TheConstants.{MOST_OBJECTS};
ghost use Rattle.apex_warnings.specs.Objects.{group_count, group_queue, group_section};

use apex_configs::Table;
use apex_machine::Queue;
use apex_types::{BlackboardId, BufferId, EventId, MutexId, SemaphoreId};
use apex_words::Section;

/// The objects of one kind: those of one section of the table.
#[derive(Clone, Copy)]
pub enum Group {
    Semaphores,
    Buffers,
    Blackboards,
    EventFlags,
    Mutexes,
}

impl Group {
    /// The number of these objects that the table has.
    pub fn count(self, table: &Table) -> usize
        ensures value { result ≡ group_count table.now self }
        ensures range { result ≤ MOST_OBJECTS }
    {
        match self {
            Group::Semaphores => table.semaphore_count(),
            Group::Buffers => table.buffer_count(),
            Group::Blackboards => table.blackboard_count(),
            Group::EventFlags => table.event_flag_count(),
            Group::Mutexes => table.mutex_count(),
        }
    }

    /// The queue of the object at this place, counted from 0.
    pub fn queue(self, place: u8) -> Queue
        ensures { result ≡ group_queue self place }
    {
        match self {
            Group::Semaphores => Queue::Semaphore(SemaphoreId::at(place)),
            Group::Buffers => Queue::Buffer(BufferId::at(place)),
            Group::Blackboards => Queue::Blackboard(BlackboardId::at(place)),
            Group::EventFlags => Queue::EventFlag(EventId::at(place)),
            Group::Mutexes => Queue::Mutex(MutexId::at(place)),
        }
    }

    /// The section of these objects.
    pub fn section(self) -> Section
        ensures { result ≡ group_section self }
    {
        match self {
            Group::Semaphores => Section::Semaphore,
            Group::Buffers => Section::Buffer,
            Group::Blackboards => Section::Blackboard,
            Group::EventFlags => Section::EventFlag,
            Group::Mutexes => Section::Mutex,
        }
    }
}
