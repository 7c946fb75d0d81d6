//! A voice, which a core or the ticker holds of the book.
ghost use Rattle.std.specs.Prelude.{◌≡◌, [], length};
ghost use Rattle.apex_receipts.specs.Receipts.{unspoken};

use crate::law::Known;
use crate::naming::Naming;
use crate::speakers::Speaker;
use apex_types::Who;
use std::marker::{Model, PhantomData};

/// The voice of a core or of the ticker (this profile). Contracts see it as the entries that were
/// written down for it, the oldest first; it keeps their number alone.
#[derive(Drop)]
pub struct Voice<P: Naming> {
    pub(crate) who: Who,
    pub(crate) count: u32,
    pub(crate) told: bool,
    pub(crate) speaker: Speaker,
    /// The history as it was after the last entry of its own, or when the voice learned that it is
    /// full.
    pub(crate) heard: Known,
    of: PhantomData<P>,
}

impl<P: Naming> Model for Voice<P> {
    ghost use Rattle.std.specs.Prelude.{◌≡◌, true, length};
    ghost use Rattle.apex_receipts.specs.Notes.{entries_of, said};
    ghost use Rattle.apex_receipts.specs.Receipts.{Spoken, count_who, own_entries};

    ghost Value = { Spoken };

    ghost view = { λ v. record {
      who = v.who;
      own = own_entries v.who (entries_of P.scribe v.heard.log);
      told = v.told;
    } };

    ghost invariant = { λ v. (v.speaker.book ≡ P.book) × (v.speaker.id ≡ P.voice v.who)
        × (v.heard.book ≡ P.book)
        × (said (P.voice v.who) v.speaker.log ≡ v.count)
        × (v.count ≡ count_who v.who (entries_of P.scribe v.heard.log))
        × (v.told ≡ true → length (entries_of P.scribe v.heard.log) ≡ P.table.limit) };
}

impl<P: Naming> Voice<P> {
    /// The voice of this core or of the ticker, for which nothing was written down.
    pub(crate) fn new(who: Who, speaker: Speaker, heard: Known) -> Voice<P>
        requires books { (speaker.book ≡ P.book) × (heard.book ≡ P.book) }
        requires id { speaker.id ≡ P.voice who }
        requires empty { (speaker.log ≡ []) × (heard.log ≡ []) }
        ensures { result ≡ unspoken who }
    {
        Voice {
            who,
            count: 0,
            told: false,
            speaker,
            heard,
            of: PhantomData,
        }
    }

    /// The core or the ticker whose voice it is.
    pub fn who(&self) -> Who
        ensures { result ≡ self.now.who }
    {
        self.who
    }

    /// The number of entries that were written down for it.
    pub fn count(&self) -> u32
        ensures { result ≡ length self.now.own }
    {
        self.count
    }

    /// Whether it knows that the history is full.
    pub fn told(&self) -> bool
        ensures { result ≡ self.now.told }
    {
        self.told
    }
}
