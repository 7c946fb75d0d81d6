//! What a fault is about.
ghost use Rattle.std.specs.Prelude.{◌≡◌};
ghost use Rattle.apex_words.specs.Subjects.{whole, at_key, at_other_key, at_step, at_word};

use crate::fault::Place;
use crate::key::Key;

/// The part of a section or of an entry that a fault is about.
#[derive(Clone, Copy, PartialEq, Eq)]
pub enum Part {
    /// The section or the entry as a whole.
    Whole,
    /// A key, which is absent or whose value is at fault.
    Key(Key),
    /// A key that the section does not have, by its place among the keys of the entry, or of the
    /// table's top: they are counted from 0, in the order of their bytes.
    OtherKey(usize),
    /// The step at this place of the script or of the init list, counted from 0, as a whole.
    Step(usize),
    /// In the step at the first place, the word at the second one. Both are counted from 0: the
    /// service is word 0, and the words of its arguments follow.
    Word(usize, usize),
}

/// What a fault is about: a place of the table's text, and the part of it that is at fault.
#[derive(Clone, Copy, PartialEq, Eq)]
pub struct Subject {
    /// The section, or the entry of it.
    pub place: Place,
    /// What is at fault there.
    pub part: Part,
}

impl Place {
    /// The section or the entry as a whole.
    pub fn whole(self) -> Subject
        ensures { result ≡ whole self }
    {
        Subject {
            place: self,
            part: Part::Whole,
        }
    }

    /// A key here.
    pub fn key(self, key: Key) -> Subject
        ensures { result ≡ at_key self key }
    {
        Subject {
            place: self,
            part: Part::Key(key),
        }
    }

    /// The key at this place among those here, which the section does not have.
    pub fn other_key(self, place: usize) -> Subject
        ensures { result ≡ at_other_key self place }
    {
        Subject {
            place: self,
            part: Part::OtherKey(place),
        }
    }

    /// The step at this place here, as a whole.
    pub fn step(self, step: usize) -> Subject
        ensures { result ≡ at_step self step }
    {
        Subject {
            place: self,
            part: Part::Step(step),
        }
    }

    /// A word of the step at this place here.
    pub fn word(self, step: usize, word: usize) -> Subject
        ensures { result ≡ at_word self step word }
    {
        Subject {
            place: self,
            part: Part::Word(step, word),
        }
    }
}
