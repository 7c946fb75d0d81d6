//! The kinds of signals.
ghost use Rattle.std.specs.Prelude.{◌≡◌, ◌<◌, ◌≤◌, length};
ghost use Rattle.apex_types.specs.declared.limits.TheConstants.{MOST_PROCESSES};
ghost use Rattle.apex_waves.specs.Kinds.{count_of, scope_word, signal_at};
ghost use Rattle.apex_waves.specs.declared.kinds.TheConstants.{SCOPE_WORD_ROOM};

use crate::signals::Signal;
use apex_configs::Table;
use apex_types::{BlackboardId, BufferId, CoreId, EventId, MutexId, ProcessId, SemaphoreId};

/// The most bytes of the name of a scope.
pub(crate) const SCOPE_WORD_ROOM: usize = 11;

/// A kind of signals. Each has a scope of its own.
#[derive(Clone, Copy)]
pub(crate) enum Kind {
    Core,
    Process,
    Semaphore,
    Buffer,
    Blackboard,
    EventFlag,
    Mutex,
}

impl Kind {
    /// The number of its signals.
    pub(crate) fn count(self, table: &Table) -> usize
        ensures value { result ≡ count_of table.now self }
        ensures range { result ≤ MOST_PROCESSES }
    {
        match self {
            Kind::Core => usize::from(table.cores()),
            Kind::Process => table.process_count(),
            Kind::Semaphore => table.semaphore_count(),
            Kind::Buffer => table.buffer_count(),
            Kind::Blackboard => table.blackboard_count(),
            Kind::EventFlag => table.event_flag_count(),
            Kind::Mutex => table.mutex_count(),
        }
    }

    /// Its signal at this place, counted from 0.
    pub(crate) fn signal(self, table: &Table, place: u8) -> Signal
        requires { place < count_of table.now self }
        ensures { result ≡ signal_at self place }
    {
        let _cores = table.cores();
        match self {
            Kind::Core => Signal::Core(CoreId::new(place)),
            Kind::Process => Signal::Process(ProcessId::at(place)),
            Kind::Semaphore => Signal::Semaphore(SemaphoreId::at(place)),
            Kind::Buffer => Signal::Buffer(BufferId::at(place)),
            Kind::Blackboard => Signal::Blackboard(BlackboardId::at(place)),
            Kind::EventFlag => Signal::EventFlag(EventId::at(place)),
            Kind::Mutex => Signal::Mutex(MutexId::at(place)),
        }
    }

    /// The name of its scope.
    pub(crate) fn scope(self) -> &'static str
        ensures value { result.now ≡ scope_word self }
        ensures short { length result.now ≤ SCOPE_WORD_ROOM }
    {
        match self {
            Kind::Core => "cores",
            Kind::Process => "processes",
            Kind::Semaphore => "semaphores",
            Kind::Buffer => "buffers",
            Kind::Blackboard => "blackboards",
            Kind::EventFlag => "events",
            Kind::Mutex => "mutexes",
        }
    }
}
