//! The words for waits and notices.
ghost use Rattle.std.specs.Prelude.{◌≡◌, ◌++◌, OnOk};
ghost use Rattle.apex_machine.specs.text.Texts.{id_text};
ghost use Rattle.apex_moments.specs.Texts.{part_text};
ghost use Rattle.apex_machine.specs.text.Status.{wait_text};
ghost use Rattle.apex_moments.specs.Words.{notice_word, profile_number};

use crate::texts::{Part, put, put_number};
use apex_machine::{Profile, Wait};
use apex_types::{Id, Notice};
use std::alloc::AllocError;

/// The word for a notice.
pub fn notice_word(notice: &Notice) -> &'static str
    ensures { result.now ≡ notice_word notice.now }
{
    match notice {
        Notice::Woken(_, _) => "woken",
        Notice::Released(_) => "released",
        Notice::Missed(_, _) => "missed",
    }
}

/// The number of a profile, as a table gives it: 1 or 2.
pub fn profile_number(profile: Profile) -> u64
    ensures { result ≡ profile_number profile }
{
    match profile {
        Profile::One => 1,
        Profile::Two => 2,
    }
}

/// The part that is the number of an id.
pub fn id_part<'a, K: Copy>(id: Id<K>) -> Part<'a>
    ensures { part_text result ≡ id_text id }
{
    Part::Number(u64::from(id.number()))
}

/// Puts the number of an id.
pub(crate) fn put_id<K: Copy>(text: &mut Vec<u8>, id: Id<K>) -> Result<(), AllocError>
    ensures { OnOk result (text.new.items ≡ text.old.items ++ id_text id) }
{
    put_number(text, u64::from(id.number()))
}

/// Puts a kind of objects and the number of one of them. Fails only for want of memory.
#[tactic(auto, using(std::proofs::Common::append_assoc))]
pub fn put_object<K: Copy>(text: &mut Vec<u8>, kind: &str, id: Id<K>) -> Result<(), AllocError>
    ensures { OnOk result (text.new.items ≡ text.old.items ++ (kind.now ++ id_text id)) }
{
    put(text, kind)?;
    put_id(text, id)
}

/// Puts the wait of a process. Fails only for want of memory.
pub fn put_wait(text: &mut Vec<u8>, wait: &Wait) -> Result<(), AllocError>
    ensures { OnOk result (text.new.items ≡ text.old.items ++ wait_text wait.now) }
{
    match wait {
        Wait::Normal(_) => put(text, "normal"),
        Wait::Start => put(text, "start"),
        Wait::Time => put(text, "time"),
        Wait::Period => put(text, "period"),
        Wait::Semaphore(semaphore) => put_object(text, "semaphore:", *semaphore),
        Wait::Receive(buffer) => put_object(text, "buffer:", *buffer),
        Wait::Send(buffer, _) => put_object(text, "buffer:", *buffer),
        Wait::Blackboard(blackboard) => put_object(text, "blackboard:", *blackboard),
        Wait::EventFlag(event) => put_object(text, "event:", *event),
        Wait::Mutex(mutex) => put_object(text, "mutex:", *mutex),
    }
}
