//! The entries that a log lends.
ghost use Rattle.std.specs.Prelude.{◌≡◌, ◌+◌, ◌≤◌, None, length};
ghost use Rattle.apex_types.specs.declared.limits.TheConstants.{MOST_ENTRIES};
ghost use Rattle.std.specs.Iterator.{YieldsFirst, item_count};
ghost use Rattle.std.specs.List.{AllByRecursion, last_or};
ghost use Rattle.apex_history.specs.StoredEntries.{entries_from, IsWithin};

use crate::calls::Link;
use crate::entry_parts::EntryParts;
use crate::stored::StoredEntry;
use apex_types::{LentEntry, Notice};
use std::marker::Model;

/// The entries of a history that are left, the oldest first, each by its parts.
#[derive(Drop)]
pub(crate) struct EntriesByParts<'a> {
    stored: &'a [StoredEntry],
    calls: &'a [Link],
    notices: &'a [Notice],
    /// The place of the first of them, counted from 0.
    place: u32,
}

impl<'a> Model for EntriesByParts<'a> {
    ghost use Rattle.std.specs.Prelude.{◌+◌, ◌≤◌, List, length};
    ghost use Rattle.std.specs.List.{AllByRecursion};
    ghost use Rattle.apex_types.specs.declared.limits.TheConstants.{MOST_ENTRIES};
    ghost use Rattle.apex_types.specs.declared.entries.Entry.{Entry};
    ghost use Rattle.apex_history.specs.StoredEntries.{entries_from, IsWithin};

    ghost Value = { List Entry };

    ghost view = { λ e. entries_from e.calls.now e.notices.now e.place e.stored.now };

    ghost invariant = { λ e. AllByRecursion (IsWithin (length e.calls.now)
        (length e.notices.now)) e.stored.now × (e.place + length e.stored.now ≤ MOST_ENTRIES) };
}

impl<'a> EntriesByParts<'a> {
    /// The last of the entries, if there is one.
    #[inline(always)]
    #[tactic(auto, using(crate::proofs::EntriesOf::last_entry, crate::proofs::EntriesOf::within_last))]
    fn latest(&self) -> Option<EntryParts<'a>>
        ensures { result ≡ last_or None self.now }
    {
        let (item, before) = self.stored.split_last()?;
        Some(item.parts(self.place + before.len() as u32, self.calls, self.notices))
    }

    /// The number of the entries.
    #[tactic(auto, using(crate::proofs::EntriesOf::length_entries))]
    fn entry_count(&self) -> usize
        ensures { result ≡ length self.now }
    {
        self.stored.len()
    }
}

#[tactic(auto, using(crate::proofs::EntriesOf::length_entries))]
impl<'a> Iterator for EntriesByParts<'a> {
    type Item = EntryParts<'a>;

    ghost next_gives = { YieldsFirst (λ left. left) };

    ghost remaining = { item_count (λ left. left) };

    #[inline(always)]
    fn next(&mut self) -> Option<EntryParts<'a>> {
        let (item, others) = self.stored.split_first()?;
        let entry = item.parts(self.place, self.calls, self.notices);
        self.stored = others;
        self.place += 1;
        Some(entry)
    }
}

/// The entries of a history that are left, the oldest first.
#[derive(Drop)]
pub struct Entries<'a> {
    left: EntriesByParts<'a>,
}

impl<'a> Model for Entries<'a> {
    ghost use Rattle.std.specs.Prelude.{List};
    ghost use Rattle.apex_types.specs.declared.entries.Entry.{Entry};

    ghost Value = { List Entry };

    ghost view = { λ e. e.left };
}

impl<'a> Entries<'a> {
    /// The entries that these are stored as.
    pub(crate) fn new(
        stored: &'a [StoredEntry],
        calls: &'a [Link],
        notices: &'a [Notice],
    ) -> Entries<'a>
        requires within { AllByRecursion (IsWithin (length calls.now) (length notices.now))
            stored.now }
        requires many { length stored.now ≤ MOST_ENTRIES }
        ensures { result ≡ entries_from calls.now notices.now 0 stored.now }
    {
        Entries {
            left: EntriesByParts {
                stored,
                calls,
                notices,
                place: 0,
            },
        }
    }

    /// The entries, each by its parts.
    pub(crate) fn by_parts(self) -> EntriesByParts<'a>
        ensures { result ≡ self.entry }
    {
        self.left
    }

    /// The last of the entries, if there is one. It stays among them.
    pub fn latest(&self) -> Option<LentEntry<'a>>
        ensures { result ≡ last_or None self.now }
    {
        let entry = self.left.latest()?;
        Some(entry.lent())
    }
}

impl<'a> Iterator for Entries<'a> {
    type Item = LentEntry<'a>;

    ghost next_gives = { YieldsFirst (λ left. left) };

    ghost remaining = { item_count (λ left. left) };

    fn next(&mut self) -> Option<LentEntry<'a>> {
        let entry = self.left.next()?;
        Some(entry.lent())
    }

    fn size_hint(&self) -> (usize, Option<usize>) {
        let len = self.len();
        (len, Some(len))
    }
}

impl<'a> ExactSizeIterator for Entries<'a> {
    fn len(&self) -> usize {
        self.left.entry_count()
    }
}
