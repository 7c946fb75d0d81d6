//! The signals of a dump: one for each core, each process and each object.
ghost use Rattle.std.specs.Prelude.{◌≡◌, ◌+◌, ◌<◌, ◌≤◌, ◌++◌, length};
ghost use Rattle.arrayvec.specs.ArrayVec.{array_vec_len};
ghost use Rattle.apex_types.specs.declared.limits.TheConstants.{MOST_PROCESSES};
ghost use Rattle.apex_waves.specs.Kinds.{count_of, signal_at, signals_in};
ghost use Rattle.apex_waves.specs.Signals.{signals_of};
ghost use Rattle.apex_waves.specs.declared.signals.TheConstants.{MOST_SIGNALS};

use crate::kinds::Kind;
use apex_configs::Table;
use apex_types::{
    BlackboardId, BufferId, CoreId, EventId, MOST_CORES, MOST_OBJECTS, MOST_PROCESSES, MutexId,
    ProcessId, SemaphoreId,
};
use arrayvec::ArrayVec;

/// The most signals of a table.
pub(crate) const MOST_SIGNALS: usize = MOST_CORES as usize + MOST_PROCESSES + 5 * MOST_OBJECTS;

/// A signal, by what it shows.
#[derive(Clone, Copy)]
pub(crate) enum Signal {
    /// The process that a core runs.
    Core(CoreId),
    /// The state of a process.
    Process(ProcessId),
    /// The value of a semaphore.
    Semaphore(SemaphoreId),
    /// The number of messages in a buffer.
    Buffer(BufferId),
    /// 1 if a blackboard has a message.
    Blackboard(BlackboardId),
    /// 1 if an event flag is up.
    EventFlag(EventId),
    /// The owner of a mutex.
    Mutex(MutexId),
}

impl Default for Signal {
    fn default() -> Signal {
        Signal::Core(CoreId::new(0))
    }
}

/// The signals of a table.
pub(crate) type Signals = ArrayVec<Signal, MOST_SIGNALS>;

/// Puts the signals of a kind behind the others.
fn add_signals(signals: &mut Signals, table: &Table, kind: Kind)
    requires { array_vec_len signals.old + count_of table.now kind ≤ MOST_SIGNALS }
    ensures items { signals.new.items ≡ signals.old.items ++ signals_in table.now kind }
    ensures len { array_vec_len signals.new ≡ array_vec_len signals.old + count_of table.now kind }
{
    for place in 0..kind.count(table) {
        signals.push(kind.signal(table, place as u8));
    }
}

/// The signals of a table.
pub(crate) fn signals_of(table: &Table) -> Signals
    ensures { result.items ≡ signals_of table.now }
{
    table.lawful();
    let mut signals = Signals::new();
    add_signals(&mut signals, table, Kind::Core);
    add_signals(&mut signals, table, Kind::Process);
    add_signals(&mut signals, table, Kind::Semaphore);
    add_signals(&mut signals, table, Kind::Buffer);
    add_signals(&mut signals, table, Kind::Blackboard);
    add_signals(&mut signals, table, Kind::EventFlag);
    add_signals(&mut signals, table, Kind::Mutex);
    signals
}
