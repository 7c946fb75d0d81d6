//! The levels of the signals: what each shows at a moment.
ghost use Rattle.std.specs.Prelude.{◌≡◌};
ghost use Rattle.apex_machine.specs.processes.Running.{process_state};
ghost use Rattle.apex_waves.specs.Levels.{level_of, same_level, same_state};
ghost use Rattle.apex_waves.specs.Snapshots.{snapshot_in, snapshot_of};

use crate::signals::{MOST_SIGNALS, Signal};
use apex_dispatch::Kernel;
use apex_moments::{content_of, displayed_on, is_same_process, raised_of, value_of};
use apex_services::Objects;
use apex_store::Store;
use apex_types::{ProcessId, State};
use arrayvec::ArrayVec;

/// What a signal shows.
#[derive(Clone, Copy)]
pub(crate) enum Level {
    /// The state of a process.
    State(State),
    /// The process that a core runs, or that owns a mutex.
    Process(Option<ProcessId>),
    /// How much an object holds.
    Count(u64),
}

impl Default for Level {
    fn default() -> Level {
        Level::Count(0)
    }
}

/// A level for each signal.
pub(crate) type Levels = ArrayVec<Level, MOST_SIGNALS>;

/// The state of a process; DORMANT if there is no such process.
fn state_of<S: Store>(store: &S, process: ProcessId) -> State
    ensures { result ≡ process_state (S.roster store.now) process }
{
    if process.place() < store.process_count() {
        store.state(process)
    } else {
        State::Dormant
    }
}

/// What a signal shows of these processes and these objects.
fn level_in<S: Store>(store: &S, objects: &Objects, signal: &Signal) -> Level
    ensures { result ≡ level_of (snapshot_of (S.roster store.now) objects.now) signal.now }
{
    match signal {
        Signal::Core(core) => Level::Process(store.chosen(*core)),
        Signal::Process(process) => Level::State(state_of(store, *process)),
        Signal::Semaphore(semaphore) => Level::Count(value_of(objects, *semaphore)),
        Signal::Buffer(buffer) => Level::Count(content_of(objects, *buffer)),
        Signal::Blackboard(blackboard) => Level::Count(displayed_on(objects, *blackboard)),
        Signal::EventFlag(event) => Level::Count(raised_of(objects, *event)),
        Signal::Mutex(mutex) => Level::Process(store.owner(*mutex)),
    }
}

/// What a signal shows of a kernel.
pub(crate) fn level_of<S: Store>(kernel: &Kernel<S>, signal: &Signal) -> Level
    ensures { result ≡ level_of (snapshot_in kernel.now.table kernel.now.machine) signal.now }
{
    level_in(kernel.store(), kernel.situation().objects(), signal)
}

fn is_same_state(before: State, after: State) -> bool
    ensures { result ≡ same_state before after }
{
    before == after
}

/// Two levels are the same.
pub(crate) fn is_same_level(before: &Level, after: &Level) -> bool
    ensures { result ≡ same_level before.now after.now }
{
    match before {
        Level::State(before) => match after {
            Level::State(after) => is_same_state(*before, *after),
            Level::Process(_) | Level::Count(_) => false,
        },
        Level::Process(before) => match after {
            Level::Process(after) => is_same_process(before, after),
            Level::State(_) | Level::Count(_) => false,
        },
        Level::Count(before) => match after {
            Level::Count(after) => before == after,
            Level::State(_) | Level::Process(_) => false,
        },
    }
}
