//! The scribe, which writes the history down under the lock.
ghost use Rattle.std.specs.Prelude.{◌≡◌, ◌+◌, ◌<◌, ◌≤◌, ◌^◌, true, [], ◌∷◌, ◌++◌, length};
ghost use Rattle.apex_receipts.specs.Notes.{ends, entries_of};
ghost use Rattle.apex_receipts.specs.Receipts.{IsAtItsPlace, own_entries, told_full, with_entry};
ghost use Rattle.apex_receipts.specs.Rules.{head_of};

use crate::keeping::keep_in;
use crate::law::{Head, Known};
use crate::meetings::{meet, write_for};
use crate::naming::Naming;
use crate::receipts::Receipt;
use crate::speakers::Speaker;
use crate::stories::Story;
use crate::voices::Voice;
use apex_types::LentEntry;
use std::marker::{Model, PhantomData};

/// The scribe, which writes the history down (this profile). Contracts see it as the entries that
/// it wrote, the oldest first; the entries themselves are kept elsewhere.
#[derive(Drop)]
pub struct Scribe<P: Naming> {
    speaker: Speaker,
    head: Head,
    of: PhantomData<P>,
}

impl<P: Naming> Model for Scribe<P> {
    ghost use Rattle.std.specs.Prelude.{◌≡◌, List};
    ghost use Rattle.apex_types.specs.declared.entries.Entry.{Entry};
    ghost use Rattle.apex_receipts.specs.Notes.{ends, entries_of};
    ghost use Rattle.apex_receipts.specs.Rules.{head_of};
    ghost use Rattle.apex_receipts.specs.Receipts.{IsLabelled};

    ghost Value = { List Entry };

    ghost view = { λ s. entries_of P.scribe s.speaker.log };

    ghost invariant = { λ s. (s.speaker.book ≡ P.book) × (s.speaker.id ≡ P.scribe)
        × (s.head ≡ head_of P.book)
        × IsLabelled P.scribe P.voice s.speaker.log × (ends P.scribe s.speaker.log ≡ 0) };
}

impl<P: Naming> Scribe<P> {
    /// The scribe of a book, which has written nothing.
    pub(crate) fn new(head: Head, speaker: Speaker) -> Scribe<P>
        requires head { head ≡ head_of P.book }
        requires speaker { speaker ≡ record { book = P.book; id = P.scribe; log = [] } }
        ensures { result ≡ [] }
    {
        Scribe {
            speaker,
            head,
            of: PhantomData,
        }
    }

    /// Writes down an entry of the voice's core or ticker. The answer is the history with this entry as
    /// its last one.
    fn write_down(&mut self, voice: &mut Voice<P>, entry: &LentEntry<'_>) -> Known
        requires who { entry.now.who ≡ voice.old.who }
        requires number { entry.now.number ≡ length self.old + 1 }
        requires room { length self.old < P.table.limit }
        requires few_entries { P.table.limit < 2 ^ 32 }
        ensures history { self.new ≡ self.old ++ entry.entry.now ∷ [] }
        ensures voice { voice.new ≡ with_entry voice.old entry.entry.now }
        ensures book { result.book ≡ P.book }
        ensures placed { IsAtItsPlace (entries_of P.scribe result.log) entry.entry.now
            (length voice.old.own + 1) }
        ensures unended { ends P.scribe result.log ≡ 0 }
    {
        let head = &self.head;
        let scribe = &mut self.speaker;
        write_for(head, scribe, &mut voice.speaker, &voice.heard, entry);
        voice.heard = self.speaker.seen().again();
        voice.count += 1;
        voice.heard.again()
    }

    /// Writes down an entry of the voice's core or ticker, and gives the receipt of it, which keeps it.
    pub fn record(&mut self, voice: &mut Voice<P>, entry: &LentEntry<'_>) -> Receipt<P>
        requires who { entry.now.who ≡ voice.old.who }
        requires number { entry.now.number ≡ length self.old + 1 }
        requires room { length self.old < P.table.limit }
        requires few_entries { P.table.limit < 2 ^ 32 }
        ensures history { self.new ≡ self.old ++ entry.entry.now ∷ [] }
        ensures voice { voice.new ≡ with_entry voice.old entry.entry.now }
        ensures receipt { result
            ≡ record { entry = entry.entry.now; place = length voice.old.own + 1 } }
    {
        let seen = self.write_down(voice, entry);
        Receipt {
            entry: entry.kept(),
            place: voice.count(),
            seen,
            of: PhantomData,
        }
    }

    /// Writes down an entry as `record` does. Its receipt takes the place of this one.
    pub fn record_into(
        &mut self,
        voice: &mut Voice<P>,
        entry: &LentEntry<'_>,
        receipt: &mut Receipt<P>,
    )
        requires who { entry.now.who ≡ voice.old.who }
        requires number { entry.now.number ≡ length self.old + 1 }
        requires room { length self.old < P.table.limit }
        requires few_entries { P.table.limit < 2 ^ 32 }
        ensures history { self.new ≡ self.old ++ entry.entry.now ∷ [] }
        ensures voice { voice.new ≡ with_entry voice.old entry.entry.now }
        ensures receipt { receipt.new
            ≡ record { entry = entry.entry.now; place = length voice.old.own + 1 } }
    {
        receipt.seen = self.write_down(voice, entry);
        receipt.place = voice.count();
        keep_in(&mut receipt.entry, entry);
    }

    /// Lets the voice know that the history is full.
    pub fn refuse(&mut self, voice: &mut Voice<P>)
        requires full { length self.old ≡ P.table.limit }
        ensures history { self.new ≡ self.old }
        ensures voice { voice.new ≡ told_full voice.old }
    {
        self.settle(voice);
        voice.heard = self.speaker.seen().again();
        voice.told = true;
    }

    /// The receipt's entry is in the history, at its number and its place.
    pub fn shows(&mut self, receipt: &Receipt<P>)
        ensures same { self.new ≡ self.old }
        ensures placed { IsAtItsPlace self.old receipt.now.entry receipt.now.place }
    {
        self.speaker.hear(&self.head, &receipt.seen);
    }

    /// The entries of the voice's core or ticker in the history are those that were written down
    /// for it; if the voice knows that the history is full, it is.
    pub fn settle(&mut self, voice: &mut Voice<P>)
        requires room { length self.old ≤ P.table.limit }
        ensures same { self.new ≡ self.old }
        ensures voice { voice.new ≡ voice.old }
        ensures own { own_entries voice.old.who self.old ≡ voice.old.own }
        ensures told { voice.old.told ≡ true → length self.old ≡ P.table.limit }
    {
        let head = &self.head;
        meet(head, &mut self.speaker, &mut voice.speaker, &voice.heard);
    }

    /// The history, to which nothing will be added.
    pub fn finish(mut self) -> Story<P>
        ensures { result ≡ self }
    {
        let known = self.speaker.seen().again();
        self.speaker.call(&self.head, &known);
        Story {
            seen: self.speaker.seen().again(),
            of: PhantomData,
        }
    }
}
