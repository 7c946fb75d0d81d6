//! The entries of a history: the event, its caller and call, the reply, and the notices.
ghost use Rattle.std.specs.Prelude.{◌≡◌, ◌<◌, ◌≤◌, [], ◌∷◌, ◌++◌, length};
ghost use Rattle.apex_types.specs.declared.limits.TheConstants.{MOST_NOTICES};

use crate::calls::{Call, Message};
use crate::identifiers::{CoreId, ProcessId};
use crate::limits::MOST_NOTICES;
use crate::modes::DeadlineType;
use arrayvec::ArrayVec;
use std::marker::Model;
use thiserror::Error;

/// The return codes of APEX (ARINC 653 Part 1), in the order of their numbers, which begin at 0.
#[derive(Clone, Copy, PartialEq, Eq)]
pub enum ReturnCode {
    NoError,
    NoAction,
    NotAvailable,
    InvalidParam,
    InvalidConfig,
    InvalidMode,
    TimedOut,
}

/// An event of a partition, which is one atomic step.
#[derive(Clone, Copy, PartialEq, Eq)]
pub enum Event {
    /// A turn of a core.
    Turn(CoreId),
    /// A tick of n ticks of time, n from 1 to 1,048,576.
    Tick(u32),
}

/// The maker of an event.
#[derive(Clone, Copy, PartialEq, Eq)]
pub enum Who {
    /// The core whose turn it was.
    Core(CoreId),
    /// The event was a tick.
    Ticker,
}

/// The caller of an entry's call.
#[derive(Clone, Copy, PartialEq, Eq)]
pub enum Caller {
    /// The process whose call it is.
    Process(ProcessId),
    /// The init list.
    Init,
    /// No caller: an idle turn or a tick.
    Nobody,
}

/// The reply to a call, or the result of an idle turn or a tick.
#[derive(Clone, Copy, PartialEq, Eq)]
pub enum Reply {
    /// The return code of a call that gave its caller nothing else, or that was refused.
    Code(ReturnCode),
    /// The value that the caller asked for: a time in ticks, an id or a core.
    Value(u64),
    /// The two numbers of a status.
    Status(u32, u32),
    /// The message that the caller gets.
    Message(Message),
    /// The caller waits, or suspended itself. A later `woken` notice has its code, but the end of a
    /// PERIODIC_WAIT is a `released` notice. Neither comes if the process is stopped before.
    Blocked,
    /// The caller is stopped, or the mode is IDLE from now on.
    Gone,
    /// The core had nothing to do.
    Idle,
    /// The work has begun; the core's next turn ends it.
    Begun,
    /// The work is done: its process kept the core.
    Done,
    /// The work is lost: its process lost the core meanwhile.
    Lost,
    /// A tick: the ticks that were asked for, and those by which time went on.
    Advanced(u32, u32),
}

/// The effect of an event on a process other than its caller.
#[derive(Clone, Copy, PartialEq, Eq)]
pub enum Notice {
    /// The process's wait, or its suspension of itself, ended with this code.
    Woken(ProcessId, ReturnCode),
    /// The process was released to run.
    Released(ProcessId),
    /// The process missed its deadline, which is of this type.
    Missed(ProcessId, DeadlineType),
}

impl Default for Notice {
    fn default() -> Notice {
        Notice::Released(ProcessId::at(0))
    }
}

/// The notices of one event, in order: [`MOST_NOTICES`] at the most, kept inline.
#[derive(Drop)]
pub struct Notices {
    notices: ArrayVec<Notice, MOST_NOTICES>,
}

impl Model for Notices {
    ghost use Rattle.std.specs.Prelude.{List};
    ghost use Rattle.apex_types.specs.declared.entries.Notice.{Notice};

    ghost Value = { List Notice };

    ghost view = { λ a. a.notices.items };
}

impl Notices {
    /// No notice.
    pub fn new() -> Notices
        ensures { result ≡ [] }
    {
        Notices {
            notices: ArrayVec::new(),
        }
    }

    /// The notices of this slice. Takes no memory.
    fn copied(notices: &[Notice]) -> Notices
        requires { length notices.now ≤ MOST_NOTICES }
        ensures { result ≡ notices.now }
    {
        let mut copied = ArrayVec::new();
        let taken = copied.try_extend_from_slice(notices);
        let fits = taken.is_ok();
        prove!(fits);
        Notices { notices: copied }
    }

    /// Adds the notice behind the others.
    pub fn push(&mut self, notice: Notice)
        requires { length self.old < MOST_NOTICES }
        ensures { self.new ≡ self.old ++ notice ∷ [] }
    {
        self.notices.push(notice);
    }

    /// Leaves no notice.
    pub fn clear(&mut self)
        ensures { self.new ≡ [] }
    {
        self.notices.clear();
    }

    /// The notices in their order.
    pub fn as_slice(&self) -> &[Notice]
        ensures value { result.now ≡ self.now }
        ensures few_notices { length result.now ≤ MOST_NOTICES }
    {
        self.notices.as_slice()
    }
}

/// One event of a history, with all that it did.
#[derive(Drop)]
pub struct Entry {
    /// The entry's place in the history, counted from 1.
    pub number: u32,
    /// The time after the event, in ticks.
    pub now: u64,
    /// The maker of the event.
    pub who: Who,
    /// The caller of the entry's call.
    pub process: Caller,
    /// The call that was carried out, or none at an idle turn and a tick.
    pub call: Option<Call>,
    /// The reply to the call, or the result of an idle turn or a tick.
    pub reply: Reply,
    /// The effects on other processes, in their order.
    pub notices: Notices,
}

impl Entry {
    /// The entry, lent.
    pub fn lent(&self) -> LentEntry<'_>
        ensures { result ≡ self.entry.now }
    {
        LentEntry {
            number: self.number,
            now: self.now,
            who: self.who,
            process: self.process,
            call: self.call,
            reply: self.reply,
            notices: self.notices.as_slice(),
        }
    }
}

/// An [`Entry`] whose notices are lent, as a log lends it.
#[derive(Drop)]
pub struct LentEntry<'a> {
    /// The entry's place in the history, counted from 1.
    pub number: u32,
    /// The time after the event, in ticks.
    pub now: u64,
    /// The maker of the event.
    pub who: Who,
    /// The caller of the entry's call.
    pub process: Caller,
    /// The call that was carried out, or none at an idle turn and a tick.
    pub call: Option<Call>,
    /// The reply to the call, or the result of an idle turn or a tick.
    pub reply: Reply,
    /// [`MOST_NOTICES`] at the most.
    pub notices: &'a [Notice],
}

impl<'a> Model for LentEntry<'a> {
    ghost use Rattle.std.specs.Prelude.{◌≤◌, length};
    ghost use Rattle.apex_types.specs.declared.limits.TheConstants.{MOST_NOTICES};
    ghost use Rattle.apex_types.specs.declared.entries.Entry.{Entry};

    ghost Value = { Entry };

    ghost view = { λ e. record {
      number = e.number;
      now = e.now;
      who = e.who;
      process = e.process;
      call = e.call;
      reply = e.reply;
      notices = e.notices.now;
    } };

    ghost invariant = { λ e. length e.notices.now ≤ MOST_NOTICES };
}

impl<'a> LentEntry<'a> {
    /// The entry with notices of its own. Takes no memory.
    pub fn kept(&self) -> Entry
        ensures { result ≡ self.entry.now }
    {
        Entry {
            number: self.number,
            now: self.now,
            who: self.who,
            process: self.process,
            call: self.call,
            reply: self.reply,
            notices: Notices::copied(self.notices),
        }
    }
}

/// The history holds as many entries as its limit allows, and refused an event.
#[derive(Clone, Copy, Debug, PartialEq, Eq, Error)]
#[error("history full after {entries} entries")]
pub struct Full {
    /// The number of entries that the history holds, which is its limit.
    pub entries: u32,
}
