//! The rule of the book, and the steps that are made on it.

use apex_types::{Entry, LentEntry};
use logbook::{Gain, Pen, Plain, Play, Rule, Seen, Word};
use std::snapshot::Snapshot;

/// One note. It is in proofs alone: no code makes one.
///
/// A speaker is named by the key of its first pen.
pub struct Note {
    /// The speaker of the note.
    pub by: u64,
    /// The speaker for whom it was written.
    pub of: u64,
    /// The entry that was written down, if one was.
    pub entry: Option<Entry>,
    /// The next pen of its speaker.
    pub key: u64,
}

/// The rule of the book.
pub struct Law;

impl Rule<Note, u64> for Law {
    ghost use Rattle.std.specs.Prelude.{[]};
    ghost use base.Fml.{ftrue};
    ghost use Rattle.apex_receipts.specs.Rules.{IsKept};

    ghost holds = { λ cells log. IsKept cells log };

    ghost first = { [] };

    ghost hinted = { λ n log. Unit {0} };

    ghost shows = { λ log. [] };

    ghost keeps = { λ names log. ftrue };

    ghost moves = { λ ask before after answer. Unit {0} };
}

/// A prefix of the notes.
pub type Known = Seen<Note, u64, Law>;

/// The word that each step is made on.
pub type Head = Word<Note, u64, Law>;

/// Speakers trade nothing.
pub struct Nothing;

impl Gain<Note, u64> for Nothing {
    ghost use base.Fml.{ftrue};

    ghost after = { λ names about answer. ftrue };
}

/// A step that takes a pen.
pub struct Take;

impl Play<Note, u64> for Take {
    ghost use Rattle.apex_receipts.specs.Rules.{Takes};

    ghost then = { Takes };
}

/// A step that listens.
pub struct Hear;

impl Play<Note, u64> for Hear {
    ghost use Rattle.apex_receipts.specs.Rules.{Hears};

    ghost then = { Hears };
}

/// A step that adds a note.
pub struct Say;

impl Play<Note, u64> for Say {
    ghost use Rattle.apex_receipts.specs.Rules.{Says};

    ghost then = { Says };
}

/// A step that adds no note asks for none.
impl Plain<(), Note, u64> for Take {
    ghost use Rattle.std.specs.Prelude.{None};

    ghost ask = { λ _. record { by = 0; of = 0; entry = None; key = 0 } };

    ghost state = { λ _. None };
}

/// A note without an entry, and its speaker.
#[derive(Drop)]
pub struct Call<'a> {
    /// The speaker's first pen, whose key names the speaker.
    pub by: &'a Snapshot<Pen>,
    /// The pen of the speaker's next note.
    pub next: &'a Pen,
}

impl<'a> Plain<Call<'a>, Note, u64> for Say {
    ghost use Rattle.std.specs.Prelude.{None};

    ghost ask = { λ c. record {
      by = c.by.now.value.nib.key;
      of = c.by.now.value.nib.key;
      entry = None;
      key = c.next.now.nib.key;
    } };

    ghost state = { λ _. None };
}

/// A note with an entry, its speaker, and the speaker for which it is.
#[derive(Drop)]
pub struct Draft<'a, 'e> {
    /// The speaker's first pen, whose key names the speaker.
    pub by: &'a Snapshot<Pen>,
    /// The first pen of the speaker for which it is.
    pub of: &'a Snapshot<Pen>,
    /// The entry that is written down.
    pub entry: &'a LentEntry<'e>,
    /// The pen of the speaker's next note.
    pub next: &'a Pen,
}

impl<'a, 'e> Plain<Draft<'a, 'e>, Note, u64> for Say {
    ghost use Rattle.std.specs.Prelude.{None, Some};

    ghost ask = { λ d. record {
      by = d.by.now.value.nib.key;
      of = d.of.now.value.nib.key;
      entry = Some d.entry.now;
      key = d.next.now.nib.key;
    } };

    ghost state = { λ _. None };
}
