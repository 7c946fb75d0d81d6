//! An entry by its parts.
ghost use Rattle.std.specs.Prelude.{◌≡◌};

use apex_types::{Call, Caller, LentEntry, Notice, Reply, Who};
use std::marker::Model;

/// An entry each part of which lies where it is kept, so that nothing is copied on its way into a
/// line. The library lends it as a [`LentEntry`].
#[derive(Drop)]
pub(crate) struct EntryParts<'a> {
    pub(crate) number: u32,
    pub(crate) now: u64,
    pub(crate) who: &'a Who,
    pub(crate) process: Caller,
    pub(crate) call: Option<&'a Call>,
    pub(crate) reply: &'a Reply,
    /// `MOST_NOTICES` at the most.
    pub(crate) notices: &'a [Notice],
}

impl<'a> Model for EntryParts<'a> {
    ghost use Rattle.std.specs.Prelude.{◌≤◌, length, option_map};
    ghost use Rattle.apex_types.specs.declared.limits.TheConstants.{MOST_NOTICES};
    ghost use Rattle.apex_types.specs.declared.entries.Entry.{Entry};

    ghost Value = { Entry };

    ghost view = { λ e. record {
      number = e.number;
      now = e.now;
      who = e.who.now;
      process = e.process;
      call = option_map (λ call. call.now) e.call;
      reply = e.reply.now;
      notices = e.notices.now;
    } };

    ghost invariant = { λ e. length e.notices.now ≤ MOST_NOTICES };
}

impl<'a> EntryParts<'a> {
    /// The parts of this entry.
    #[inline(always)]
    pub(crate) fn of(entry: &'a LentEntry<'_>) -> EntryParts<'a>
        ensures { result ≡ entry.entry.now }
    {
        EntryParts {
            number: entry.number,
            now: entry.now,
            who: &entry.who,
            process: entry.process,
            call: entry.call.as_ref(),
            reply: &entry.reply,
            notices: entry.notices,
        }
    }

    /// The entry, lent with a copy of its call and its reply.
    #[inline(always)]
    pub(crate) fn lent(&self) -> LentEntry<'a>
        ensures { result ≡ self.entry.now }
    {
        LentEntry {
            number: self.number,
            now: self.now,
            who: *self.who,
            process: self.process,
            call: self.call.copied(),
            reply: *self.reply,
            notices: self.notices,
        }
    }
}
