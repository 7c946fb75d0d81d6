//! A speaker, which writes notes into the book and knows which of them are its own.
ghost use Rattle.std.specs.Prelude.{◌≡◌, ◌<◌, [], Some, None};
ghost use mathlib.Core.List.{IsPrefix};
ghost use Rattle.logbook.specs.Pages.{may_write};
ghost use Rattle.apex_receipts.specs.Notes.{said, written};
ghost use Rattle.apex_receipts.specs.Rules.{HasAdded, HasHeard, HasSaid, MaySay, head_of};

use crate::law::{Call, Draft, Head, Hear, Known, Law, Note, Nothing, Say, Take};
use apex_types::LentEntry;
use logbook::{Offer, Pen, Word};
use std::marker::Model;
use std::snapshot::Snapshot;

/// An offer that trades nothing.
type Free = Offer<Note, u64, Law, Nothing>;

/// One speaker of the book. No other one can write a note of it, so it knows all its own.
#[derive(Drop)]
pub struct Speaker {
    first: Snapshot<Pen>,
    pen: Pen,
    seen: Known,
}

impl Model for Speaker {
    ghost use Rattle.std.specs.Prelude.{◌≡◌};
    ghost use Rattle.logbook.specs.Pages.{may_write};
    ghost use Rattle.apex_receipts.specs.Notes.{key_of};
    ghost use Rattle.apex_receipts.specs.Rules.{Speech};

    ghost Value = { Speech };

    ghost view = { λ s. record {
      book = s.seen.book;
      id = s.first.value.nib.key;
      log = s.seen.log;
    } };

    ghost invariant = { λ s. (s.pen.book ≡ s.seen.book) × (s.pen.nib.right ≡ may_write)
        × (s.pen.nib.key ≡ key_of s.first.value.nib.key s.seen.log) };
}

/// Takes a pen, whose cell isn't home.
pub fn take_pen(head: &Head, seen: &Known) -> Pen
    requires { head.now ≡ head_of seen.now.book }
    ensures book { result.book ≡ seen.now.book }
    ensures right { result.nib.right ≡ may_write }
{
    let mut known = seen.again();
    let mut pen = known.no_pen();
    let mut offer: Free = known.plain::<Nothing, (), Take>(&());
    let _found = head.compare_exchange::<Take, Nothing>(0, 0, &mut known, &mut offer, &mut pen);
    let _word: Head = Word::tracked(0, &mut pen);
    pen
}

impl Speaker {
    /// The speaker of this pen, which has written nothing.
    pub fn new(pen: Pen, seen: Known) -> Speaker
        requires book { pen.book ≡ seen.book }
        requires right { pen.nib.right ≡ may_write }
        requires empty { seen.log ≡ [] }
        ensures { result ≡ record { book = seen.book; id = pen.nib.key; log = [] } }
    {
        Speaker {
            first: Snapshot::of(&pen),
            pen,
            seen,
        }
    }

    /// All that it has seen.
    pub fn seen(&self) -> &Known
        ensures book { result.now.book ≡ self.now.book }
        ensures log { result.now.log ≡ self.now.log }
    {
        &self.seen
    }

    /// Hears the log as it is.
    pub fn hear(&mut self, head: &Head, known: &Known)
        requires head { head.now ≡ head_of self.old.book }
        requires book { known.now.book ≡ self.old.book }
        ensures book { self.new.book ≡ self.old.book }
        ensures id { self.new.id ≡ self.old.id }
        ensures heard { HasHeard self.old.log known.now.log self.new.log self.old.id }
    {
        let mut all = self.seen.again();
        all.learn(known);
        let mut offer: Free = all.plain::<Nothing, (), Take>(&());
        let pen = &mut self.pen;
        let _found = head.compare_exchange::<Hear, Nothing>(0, 0, &mut all, &mut offer, pen);
        self.seen = all;
    }

    /// Adds the note of this offer.
    fn say(&mut self, head: &Head, mut all: Known, mut offer: Free, next: Pen)
        requires head { head.now ≡ head_of self.old.book }
        requires books { (all.book ≡ self.old.book) × (next.book ≡ self.old.book) }
        requires offer { (offer.names ≡ all.names) × (offer.state ≡ None) }
        requires next { (next.nib.right ≡ may_write) × (offer.ask.key ≡ next.nib.key) }
        requires begins { IsPrefix self.old.log all.log }
        requires own { offer.ask.by ≡ self.old.id }
        requires may { MaySay self.old.log all.log offer.ask }
        ensures book { self.new.book ≡ self.old.book }
        ensures id { self.new.id ≡ self.old.id }
        ensures said { HasSaid self.old.log all.log offer.ask self.new.log }
    {
        let pen = &mut self.pen;
        let _found = head.compare_exchange::<Say, Nothing>(0, 0, &mut all, &mut offer, pen);
        self.seen = all;
        self.pen = next;
    }

    /// Adds a note without an entry.
    pub fn call(&mut self, head: &Head, known: &Known)
        requires head { head.now ≡ head_of self.old.book }
        requires book { known.now.book ≡ self.old.book }
        ensures book { self.new.book ≡ self.old.book }
        ensures id { self.new.id ≡ self.old.id }
        ensures said { HasAdded self.old.id self.old.id None self.old.log known.now.log
            self.new.log }
    {
        let mut all = self.seen.again();
        all.learn(known);
        let next = take_pen(head, &all);
        let offer: Free = all.plain::<Nothing, Call, Say>(&Call {
            by: &self.first,
            next: &next,
        });
        self.say(head, all, offer, next);
    }

    /// Writes an entry down for a speaker that has called once more than it was written for.
    pub fn write(&mut self, head: &Head, other: &Speaker, entry: &LentEntry<'_>)
        requires head { head.now ≡ head_of self.old.book }
        requires book { other.now.book ≡ self.old.book }
        requires called { written self.old.id other.now.id self.old.log
            < said other.now.id other.now.log }
        ensures book { self.new.book ≡ self.old.book }
        ensures id { self.new.id ≡ self.old.id }
        ensures said { HasAdded self.old.id other.now.id (Some entry.entry.now)
            self.old.log other.now.log self.new.log }
    {
        let mut all = self.seen.again();
        all.learn(&other.seen);
        let next = take_pen(head, &all);
        let offer: Free = all.plain::<Nothing, Draft, Say>(&Draft {
            by: &self.first,
            of: &other.first,
            entry,
            next: &next,
        });
        self.say(head, all, offer, next);
    }
}
