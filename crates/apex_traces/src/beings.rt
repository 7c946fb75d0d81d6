//! What the slices of processes show in a trace: the state, and what a waiting process waits for.
ghost use Rattle.std.specs.Prelude.{◌≡◌, ◌+◌, ◌≤◌, ◌++◌, ◌&&◌, is_some, length};
ghost use Rattle.apex_types.specs.declared.limits.TheConstants.{MOST_NAME};
ghost use Rattle.arrayvec.specs.ArrayVec.{array_vec_len};
ghost use Rattle.apex_traces.specs.Beings.{awaiting, being_name, being_of, is_begun, named_text, object_wait, same_being};
ghost use Rattle.apex_traces.specs.declared.beings.TheConstants.{BEING_ROOM, FRONT};
ghost use Rattle.apex_traces.specs.declared.beings.Being.TheVariants as beings;
ghost use Rattle.apex_traces.specs.declared.pieces.TheConstants.{PIECE_ROOM};

use crate::escapes::add_escaped;
use crate::pieces::{Piece, add_text};
use apex_configs::Table;
use apex_json::MOST_ESCAPE;
use apex_machine::Wait;
use apex_names::{blackboard_name, buffer_name, event_flag_name, mutex_name, semaphore_name};
use apex_types::{BlackboardId, BufferId, EventId, MOST_NAME, MutexId, SemaphoreId, State};

/// The most bytes before the name of the object for which a process waits.
const FRONT: usize = 23;

/// The most bytes of the name of a process's slice.
pub(crate) const BEING_ROOM: usize = FRONT + MOST_ESCAPE * MOST_NAME;

/// What the slice of a process shows. From `Waiting` on the process is WAITING.
#[derive(Clone, Copy)]
pub(crate) enum Being {
    /// There is no slice.
    Dormant,
    Ready,
    Running,
    /// It waits for none of the things below: it is suspended.
    Waiting,
    /// It waits for the partition's entry into NORMAL.
    Normal,
    /// The instant of its start.
    Start,
    /// An instant.
    Time,
    /// Its next release.
    Period,
    Semaphore(SemaphoreId),
    /// A message, or room for one.
    Buffer(BufferId),
    Blackboard(BlackboardId),
    EventFlag(EventId),
    Mutex(MutexId),
}

impl Default for Being {
    fn default() -> Being
        ensures { result ≡ beings.Dormant }
    {
        Being::Dormant
    }
}

/// What the slice of a waiting process shows, by its wait.
#[inline(always)]
fn awaiting(wait: &Option<Wait>) -> Being
    ensures { result ≡ awaiting wait.now }
{
    match wait {
        None => Being::Waiting,
        Some(Wait::Normal(_)) => Being::Normal,
        Some(Wait::Start) => Being::Start,
        Some(Wait::Time) => Being::Time,
        Some(Wait::Period) => Being::Period,
        Some(Wait::Semaphore(semaphore)) => Being::Semaphore(*semaphore),
        Some(Wait::Receive(buffer)) => Being::Buffer(*buffer),
        Some(Wait::Send(buffer, _)) => Being::Buffer(*buffer),
        Some(Wait::Blackboard(blackboard)) => Being::Blackboard(*blackboard),
        Some(Wait::EventFlag(event)) => Being::EventFlag(*event),
        Some(Wait::Mutex(mutex)) => Being::Mutex(*mutex),
    }
}

/// What the slice of a process in this state and with this wait shows.
#[inline(always)]
pub(crate) fn being_of(state: State, wait: &Option<Wait>) -> Being
    ensures { result ≡ being_of state wait.now }
{
    match state {
        State::Dormant => Being::Dormant,
        State::Ready => Being::Ready,
        State::Running => Being::Running,
        State::Waiting => awaiting(wait),
    }
}

/// A process with this wait, which is one, is shown as this.
#[inline(always)]
pub(crate) fn is_awaiting(being: &Being, wait: &Option<Wait>) -> bool
    ensures { result ≡ (is_some wait.now && same_being being.now (awaiting wait.now)) }
{
    match being {
        Being::Dormant | Being::Ready | Being::Running | Being::Waiting => false,
        Being::Normal => matches!(wait, Some(Wait::Normal(_))),
        Being::Start => matches!(wait, Some(Wait::Start)),
        Being::Time => matches!(wait, Some(Wait::Time)),
        Being::Period => matches!(wait, Some(Wait::Period)),
        Being::Semaphore(before) => match wait {
            Some(Wait::Semaphore(after)) => before == after,
            _ => false,
        },
        Being::Buffer(before) => match wait {
            Some(Wait::Receive(after)) => before == after,
            Some(Wait::Send(after, _)) => before == after,
            _ => false,
        },
        Being::Blackboard(before) => match wait {
            Some(Wait::Blackboard(after)) => before == after,
            _ => false,
        },
        Being::EventFlag(before) => match wait {
            Some(Wait::EventFlag(after)) => before == after,
            _ => false,
        },
        Being::Mutex(before) => match wait {
            Some(Wait::Mutex(after)) => before == after,
            _ => false,
        },
    }
}

/// There is a slice.
#[inline(always)]
pub(crate) fn is_begun(being: &Being) -> bool
    ensures { result ≡ is_begun being.now }
{
    match being {
        Being::Dormant => false,
        _ => true,
    }
}

/// Two slices show the same.
#[inline(always)]
pub(crate) fn is_same_being(before: &Being, after: &Being) -> bool
    ensures { result ≡ same_being before.now after.now }
{
    match before {
        Being::Dormant => matches!(after, Being::Dormant),
        Being::Ready => matches!(after, Being::Ready),
        Being::Running => matches!(after, Being::Running),
        Being::Waiting => matches!(after, Being::Waiting),
        Being::Normal => matches!(after, Being::Normal),
        Being::Start => matches!(after, Being::Start),
        Being::Time => matches!(after, Being::Time),
        Being::Period => matches!(after, Being::Period),
        Being::Semaphore(before) => match after {
            Being::Semaphore(after) => before == after,
            _ => false,
        },
        Being::Buffer(before) => match after {
            Being::Buffer(after) => before == after,
            _ => false,
        },
        Being::Blackboard(before) => match after {
            Being::Blackboard(after) => before == after,
            _ => false,
        },
        Being::EventFlag(before) => match after {
            Being::EventFlag(after) => before == after,
            _ => false,
        },
        Being::Mutex(before) => match after {
            Being::Mutex(after) => before == after,
            _ => false,
        },
    }
}

/// Adds these words and the name of an object behind them.
#[inline(always)]
#[tactic(auto, using(std::proofs::Common::append_assoc))]
fn add_named<const N: usize>(piece: &mut Piece, front: [u8; N], name: &[u8])
    requires front { N ≤ FRONT }
    requires name { length name.now ≤ MOST_NAME }
    requires room { array_vec_len piece.old + BEING_ROOM ≤ PIECE_ROOM }
    ensures text { piece.new.items ≡ piece.old.items ++ named_text front.entry name.now }
    ensures short { array_vec_len piece.new ≤ array_vec_len piece.old + BEING_ROOM }
{
    add_text(piece, front);
    add_escaped(piece, name);
}

/// Adds the name of the slice of a process that waits for an object; no byte for another one.
#[inline(always)]
fn add_object_wait(piece: &mut Piece, table: &Table, being: &Being)
    requires { array_vec_len piece.old + BEING_ROOM ≤ PIECE_ROOM }
    ensures text { piece.new.items ≡ piece.old.items ++ object_wait table.now being.now }
    ensures short { array_vec_len piece.new ≤ array_vec_len piece.old + BEING_ROOM }
{
    match being {
        Being::Semaphore(semaphore) => {
            add_named(
                piece,
                *b"WAITING for semaphore ",
                semaphore_name(table, *semaphore),
            )
        }
        Being::Buffer(buffer) => {
            add_named(piece, *b"WAITING for buffer ", buffer_name(table, *buffer))
        }
        Being::Blackboard(blackboard) => {
            add_named(
                piece,
                *b"WAITING for blackboard ",
                blackboard_name(table, *blackboard),
            )
        }
        Being::EventFlag(event) => {
            add_named(
                piece,
                *b"WAITING for event ",
                event_flag_name(table, *event),
            )
        }
        Being::Mutex(mutex) => {
            add_named(piece, *b"WAITING for mutex ", mutex_name(table, *mutex))
        }
        _ => {}
    }
}

/// Adds the name of a slice; that of a dormant process has no byte.
#[inline(always)]
pub(crate) fn add_being_name(piece: &mut Piece, table: &Table, being: &Being)
    requires { array_vec_len piece.old + BEING_ROOM ≤ PIECE_ROOM }
    ensures text { piece.new.items ≡ piece.old.items ++ being_name table.now being.now }
    ensures short { array_vec_len piece.new ≤ array_vec_len piece.old + BEING_ROOM }
{
    match being {
        Being::Ready => add_text(piece, *b"READY"),
        Being::Running => add_text(piece, *b"RUNNING"),
        Being::Waiting => add_text(piece, *b"WAITING"),
        Being::Normal => add_text(piece, *b"WAITING for normal"),
        Being::Start => add_text(piece, *b"WAITING for start"),
        Being::Time => add_text(piece, *b"WAITING for time"),
        Being::Period => add_text(piece, *b"WAITING for period"),
        _ => add_object_wait(piece, table, being),
    }
}
