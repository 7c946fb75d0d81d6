//! The log of a partition's entries.
ghost use Rattle.std.specs.Prelude.{◌≡◌, ◌+◌, ◌<◌, ◌≤◌, ◌↔◌, [], ◌∷◌, ◌++◌, length, vec_capacity, slice_get, Some, false, IsTrue, IfOk};
ghost use Rattle.apex_types.specs.declared.limits.TheConstants.{MOST_ENTRIES};
ghost use Rattle.apex_history.specs.StoredEntries.{caller_in, call_in, GrowsTo, IsAmong};

use crate::calls::Calls;
use crate::lent::Entries;
use crate::stored::{Asked, StoredEntry};
use apex_types::{Call, Caller, LentEntry, MOST_NOTICES, Notice};
use std::alloc::{AllocError, Global};
use std::marker::Model;

/// The entries of one history, the oldest first, up to a limit that is set beforehand.
pub struct Log {
    stored: Vec<StoredEntry>,
    calls: Calls,
    /// The notices of all entries, one behind the other.
    notices: Vec<Notice>,
    limit: u32,
}

// Whoever owns a log lets it go in one step, and not in one for each field.
impl Drop for Log {
    fn drop(self) {
        let Log {
            stored: _stored,
            calls: _calls,
            notices: _notices,
            limit: _limit,
        } = self;
    }
}

impl Model for Log {
    ghost use Rattle.std.specs.Prelude.{vec_capacity};
    ghost use Rattle.apex_history.specs.Log.{History};
    ghost use Rattle.apex_history.specs.StoredEntries.{entries_from, IsKept};

    ghost Value = { History };

    ghost view = { λ a. record {
      entries = entries_from a.calls.calls a.notices.items 0 a.stored.items;
      limit = a.limit;
    } };

    ghost invariant = { λ a. IsKept a.limit (vec_capacity a.stored) a.calls.room
        (vec_capacity a.notices) a.stored.items a.calls.calls a.notices.items };
}

/// Puts the notices behind all others. There is room for them.
fn put_notices(all: &mut Vec<Notice>, notices: &[Notice])
    requires { length all.old.items + length notices.now ≤ vec_capacity all.old }
    ensures items { all.new.items ≡ all.old.items ++ notices.now }
    ensures room { vec_capacity all.old ≤ vec_capacity all.new }
{
    // Most events have one or none, and a copy of a whole slice costs more than one.
    for notice in notices {
        all.push_reserved(*notice);
    }
}

/// The caller and the place of the call, which is put into the calls if it is new to its caller.
/// There is room for it.
#[inline(always)]
fn put_call(calls: &mut Calls, process: &Caller, call: Option<Call>) -> Asked
    requires room { length calls.old.calls < calls.old.room }
    requires few { length calls.old.calls < MOST_ENTRIES }
    ensures caller { caller_in result ≡ process.now }
    ensures call { call_in calls.new.calls result ≡ call }
    ensures among { IsAmong (length calls.new.calls) result }
    ensures calls { GrowsTo calls.old.calls calls.new.calls }
    ensures room { calls.new.room ≡ calls.old.room }
{
    match call {
        Some(call) => Asked::For(*process, calls.put(process, call)),
        None => Asked::Nothing(*process),
    }
}

#[tactic(auto, using(crate::proofs::EntriesOf::length_entries))]
impl Log {
    /// A log with no entry, which takes the memory for `limit` entries, with all their calls and
    /// notices, at once. It fails only for want of memory.
    pub fn new(alloc: Global, limit: u32) -> Result<Log, AllocError>
        requires { (1 ≤ limit) × (limit ≤ MOST_ENTRIES) }
        ensures entries { IfOk result (λ log. log.entries ≡ []) }
        ensures limit { IfOk result (λ log. log.limit ≡ limit) }
    {
        let stored = Vec::with_capacity(alloc, limit as usize)?;
        let calls = Calls::new(alloc, limit)?;
        let notices = Vec::with_capacity(alloc, MOST_NOTICES * limit as usize)?;
        Ok(Log {
            stored,
            calls,
            notices,
            limit,
        })
    }

    /// Puts the entry last. Takes no memory.
    // Inlined, so that no entry is copied on its way into the log.
    #[inline(always)]
    pub fn push(&mut self, entry: &LentEntry<'_>)
        requires room { length self.old.entries < self.old.limit }
        requires number { entry.now.number ≡ length self.old.entries + 1 }
        ensures { self.new ≡ record self.old {
          entries = self.old.entries ++ entry.entry.now
              ∷ [];
        } }
    {
        let asked = put_call(&mut self.calls, &entry.process, entry.call);
        let first_notice = self.notices.len() as u32;
        put_notices(&mut self.notices, entry.notices);
        self.stored.push_reserved(StoredEntry {
            now: entry.now,
            reply: entry.reply,
            asked,
            first_notice,
            who: entry.who,
            count: entry.notices.len() as u8,
        });
    }

    /// The entry at this place, counted from 0.
    pub fn entry(&self, place: usize) -> LentEntry<'_>
        requires { place < length self.now.entries }
        ensures { slice_get self.now.entries place ≡ Some result }
    {
        self.stored[place]
            .parts(place as u32, self.calls.as_slice(), self.notices.as_slice())
            .lent()
    }

    /// The entries so far, the oldest first.
    pub fn entries(&self) -> Entries<'_>
        ensures value { result ≡ self.now.entries }
        ensures range { length result ≤ self.now.limit }
    {
        Entries::new(
            self.stored.as_slice(),
            self.calls.as_slice(),
            self.notices.as_slice(),
        )
    }

    /// The number of entries.
    pub fn len(&self) -> usize
        ensures value { result ≡ length self.now.entries }
        ensures range { result ≤ self.now.limit }
    {
        self.stored.len()
    }

    /// Whether there is no entry.
    pub fn is_empty(&self) -> bool
        ensures { IsTrue result ↔ (self.now.entries ≡ []) }
    {
        self.len() == 0
    }

    /// The most entries that there may be: 1 to `MOST_ENTRIES`.
    pub fn limit(&self) -> u32
        ensures value { result ≡ self.now.limit }
        ensures range { (1 ≤ result) × (result ≤ MOST_ENTRIES) }
    {
        self.limit
    }

    /// Whether there is no room for another entry.
    pub fn is_full(&self) -> bool
        ensures full { IsTrue result ↔ (length self.now.entries ≡ self.now.limit) }
        ensures room { result ≡ false → length self.now.entries < self.now.limit }
    {
        self.len() == self.limit() as usize
    }
}
