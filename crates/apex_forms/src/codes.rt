//! The words and bytes of single values.
ghost use Rattle.std.specs.Prelude.{◌≡◌, ◌<◌};
ghost use Rattle.apex_forms.specs.Codes.{code_of, flag_word, holding_word, instant_word};
ghost use Rattle.apex_forms.specs.Codes.{message_word, mode_word, origin_word, suspender_byte};

use apex_machine::{Holding, Suspender, Wait};
use apex_types::{Message, Mode, Origin};

/// The word of a truth.
pub(crate) fn flag_word(flag: bool) -> u64
    ensures { result ≡ flag_word flag }
{
    if flag { 1 } else { 0 }
}

/// The word of an instant in ticks, and 0 for none.
pub(crate) fn instant_word(instant: Option<u64>) -> u64
    ensures { result ≡ instant_word instant }
{
    match instant {
        Some(ticks) => ticks,
        None => 0,
    }
}

/// The word of a mode.
pub(crate) fn mode_word(mode: Mode) -> u64
    ensures { result ≡ mode_word mode }
{
    match mode {
        Mode::Idle => 0,
        Mode::ColdStart => 1,
        Mode::Normal => 2,
    }
}

/// The byte of a suspension.
pub(crate) fn suspender_byte(suspended: Option<Suspender>) -> u8
    ensures { result ≡ suspender_byte suspended }
{
    match suspended {
        None => 0,
        Some(Suspender::Itself) => 1,
        Some(Suspender::Other) => 2,
    }
}

/// The word of a message of this length, by its origin: its list, its length, and its place there.
fn origin_word(length: u8, origin: &Origin) -> u64
    ensures { result ≡ origin_word length origin.now }
{
    match origin {
        Origin::Init(place) => {
            let [low, high] = place.to_le_bytes();
            u64::from_le_bytes([1, length, low, high, 0, 0, 0, 0])
        }
        Origin::Script(process, place) => {
            let process = process.place() as u8;
            u64::from_le_bytes([2, length, *place, process, 0, 0, 0, 0])
        }
    }
}

/// The word of a message; 0 for none.
pub(crate) fn message_word(message: Option<Message>) -> u64
    ensures { result ≡ message_word message }
{
    match message {
        Some(message) => origin_word(message.length, &message.origin),
        None => 0,
    }
}

/// The word of a mutex that is owned; 0 for none.
pub(crate) fn holding_word(holding: Option<Holding>) -> u64
    ensures { result ≡ holding_word holding }
{
    match holding {
        Some(held) => {
            let mutex = held.mutex.place() as u8;
            u64::from_le_bytes([1, mutex, held.ceiling, held.depth, 0, 0, 0, 0])
        }
        None => 0,
    }
}

/// A wait by its kind, the place of its object, and the word of its delay or message.
#[derive(Clone, Copy)]
pub(crate) struct WaitCode {
    pub(crate) kind: u8,
    pub(crate) place: u8,
    pub(crate) word: u64,
}

/// A wait of this kind for the object at a place.
fn wait_for(kind: u8, place: usize) -> WaitCode
    requires { place < 256 }
    ensures { result ≡ record { kind = kind; place = place; word = 0 } }
{
    WaitCode {
        kind,
        place: place as u8,
        word: 0,
    }
}

impl WaitCode {
    /// The code of a wait, and of none.
    pub(crate) fn of(wait: &Option<Wait>) -> WaitCode
        ensures { result ≡ code_of wait.now }
    {
        match wait {
            None => wait_for(0, 0),
            Some(Wait::Normal(delay)) => WaitCode {
                kind: 1,
                place: 0,
                word: u64::from(*delay),
            },
            Some(Wait::Start) => wait_for(2, 0),
            Some(Wait::Time) => wait_for(3, 0),
            Some(Wait::Period) => wait_for(4, 0),
            Some(Wait::Semaphore(semaphore)) => wait_for(5, semaphore.place()),
            Some(Wait::Receive(buffer)) => wait_for(6, buffer.place()),
            Some(Wait::Send(buffer, message)) => WaitCode {
                kind: 7,
                place: buffer.place() as u8,
                word: message_word(Some(*message)),
            },
            Some(Wait::Blackboard(blackboard)) => wait_for(8, blackboard.place()),
            Some(Wait::EventFlag(event_flag)) => wait_for(9, event_flag.place()),
            Some(Wait::Mutex(mutex)) => wait_for(10, mutex.place()),
        }
    }
}
