//! An entry as a log keeps it.
ghost use Rattle.std.specs.Prelude.{◌≡◌, ◌<◌, length, option_map};
ghost use Rattle.apex_types.specs.declared.limits.TheConstants.{MOST_ENTRIES};
ghost use Rattle.apex_history.specs.StoredEntries.{caller_in, call_in, entry_of, IsAmong, IsWithin};

use crate::calls::Link;
use crate::entry_parts::EntryParts;
use apex_types::{Call, Caller, Notice, Reply, Who};
use std::marker::Model;

/// The caller of an entry, and the place of the call in the log's calls, if there is one. One enum
/// for both takes no more room than an `Option` of the place alone.
#[derive(Clone, Copy)]
pub(crate) enum Asked {
    For(Caller, u32),
    Nothing(Caller),
}

impl Asked {
    #[inline(always)]
    fn caller(&self) -> Caller
        ensures { result ≡ caller_in self.now }
    {
        match self {
            Asked::For(caller, _) | Asked::Nothing(caller) => *caller,
        }
    }

    /// The call, where the log keeps it.
    #[inline(always)]
    fn call<'a>(&self, calls: &'a [Link]) -> Option<&'a Call>
        requires { IsAmong (length calls.now) self.now }
        ensures { option_map (λ call. call.now) result ≡ call_in calls.now self.now }
    {
        match self {
            Asked::For(_, place) => {
                let link = &calls[*place as usize];
                Some(&link.call)
            }
            Asked::Nothing(_) => None,
        }
    }
}

/// An entry as a log keeps it: its place is its number, its call is one of the log's calls,
/// and its notices are a part of those of all entries. The order of the fields leaves no gaps.
#[derive(Drop)]
pub(crate) struct StoredEntry {
    pub(crate) now: u64,
    pub(crate) reply: Reply,
    pub(crate) asked: Asked,
    /// The place of its first notice.
    pub(crate) first_notice: u32,
    pub(crate) who: Who,
    /// The number of its notices.
    pub(crate) count: u8,
}

const _: () = prove!(size_of::<StoredEntry>() == 40);

impl Model for StoredEntry {
    ghost use Rattle.std.specs.Prelude.{◌+◌};
    ghost use Rattle.apex_history.specs.StoredEntries.{StoredParts};

    ghost Value = { StoredParts };

    ghost view = { λ r. record {
      now = r.now;
      who = r.who;
      asked = r.asked;
      reply = r.reply;
      first_notice = r.first_notice;
      notices_end = r.first_notice + r.count;
    } };
}

impl StoredEntry {
    /// The parts of this entry at this place, counted from 0.
    #[inline(always)]
    pub(crate) fn parts<'a>(
        &'a self,
        place: u32,
        calls: &'a [Link],
        notices: &'a [Notice],
    ) -> EntryParts<'a>
        requires within { IsWithin (length calls.now) (length notices.now) self.now }
        requires place { place < MOST_ENTRIES }
        ensures { result ≡ entry_of calls.now notices.now place self.entry.now }
    {
        let start = self.first_notice as usize;
        EntryParts {
            number: place + 1,
            now: self.now,
            who: &self.who,
            process: self.asked.caller(),
            call: self.asked.call(calls),
            reply: &self.reply,
            notices: &notices[start..start + usize::from(self.count)],
        }
    }
}
