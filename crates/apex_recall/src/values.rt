//! The values of single words and bytes.
ghost use Rattle.std.specs.Prelude.{◌≡◌};
ghost use Rattle.apex_recall.specs.Values.{holding_in, instant_in, is_set, message_in};
ghost use Rattle.apex_recall.specs.Values.{mode_in, sending, suspender_in, wait_of};

use apex_machine::{Holding, Suspender, Wait};
use apex_types::{
    BlackboardId, BufferId, EventId, Message, Mode, MutexId, Origin, ProcessId, SemaphoreId,
};

/// The truth of this word.
pub(crate) fn is_set(word: u64) -> bool
    ensures { result ≡ is_set word }
{
    word == 1
}

/// The instant of this word, if there is one.
pub(crate) fn instant_in(is_there: bool, word: u64) -> Option<u64>
    ensures { result ≡ instant_in is_there word }
{
    if is_there { Some(word) } else { None }
}

/// The mode of this word.
pub(crate) fn mode_in(word: u64) -> Mode
    ensures { result ≡ mode_in word }
{
    match word {
        0 => Mode::Idle,
        1 => Mode::ColdStart,
        _ => Mode::Normal,
    }
}

/// The suspension of this byte.
pub(crate) fn suspender_in(byte: u8) -> Option<Suspender>
    ensures { result ≡ suspender_in byte }
{
    match byte {
        0 => None,
        1 => Some(Suspender::Itself),
        _ => Some(Suspender::Other),
    }
}

/// The message of this word.
pub(crate) fn message_in(word: u64) -> Option<Message>
    ensures { result ≡ message_in word }
{
    let [list, length, low, high, _, _, _, _] = word.to_le_bytes();
    let origin = match list {
        0 => return None,
        1 => Origin::Init(u16::from_le_bytes([low, high])),
        _ => Origin::Script(ProcessId::at(high), low),
    };
    Some(Message { origin, length })
}

/// The mutex of this word.
pub(crate) fn holding_in(word: u64) -> Option<Holding>
    ensures { result ≡ holding_in word }
{
    let [is_held, mutex, ceiling, depth, _, _, _, _] = word.to_le_bytes();
    if is_held == 0 {
        return None;
    }
    Some(Holding {
        mutex: MutexId::at(mutex),
        ceiling,
        depth,
    })
}

/// The wait of this kind for the object at a place, with the word of its delay or message.
pub(crate) fn wait_of(kind: u8, place: u8, word: u64) -> Option<Wait>
    ensures { result ≡ wait_of kind place word }
{
    match kind {
        1 => Some(Wait::Normal((word % (1 << 32)) as u32)),
        2 => Some(Wait::Start),
        3 => Some(Wait::Time),
        4 => Some(Wait::Period),
        5 => Some(Wait::Semaphore(SemaphoreId::at(place))),
        6 => Some(Wait::Receive(BufferId::at(place))),
        7 => sending(BufferId::at(place), message_in(word)),
        8 => Some(Wait::Blackboard(BlackboardId::at(place))),
        9 => Some(Wait::EventFlag(EventId::at(place))),
        10 => Some(Wait::Mutex(MutexId::at(place))),
        _ => None,
    }
}

/// The wait for room for this message in the buffer.
fn sending(buffer: BufferId, message: Option<Message>) -> Option<Wait>
    ensures { result ≡ sending buffer message }
{
    match message {
        Some(message) => Some(Wait::Send(buffer, message)),
        None => None,
    }
}
