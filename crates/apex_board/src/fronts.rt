//! The front of a partition, as a reader sees it.
ghost use Rattle.std.specs.Prelude.{◌≡◌, ◌<◌, length, IfSome};
ghost use Rattle.apex_board.specs.Fronts.{FitsWords, Front as FrontValue, IsSmallId, byte_of, core_byte, words_of};

use apex_types::{MOST_CORE_PLACES, ProcessId};
use arrayvec::ArrayVec;
use std::marker::Model;

/// The state of a partition between two events, as a reader sees it (this profile).
#[derive(Drop)]
pub struct Front {
    /// The number of entries of the history.
    pub entries: u32,
    /// The time in ticks.
    pub now: u64,
    /// The process that each core runs, from core 0 on.
    pub chosen: ArrayVec<Option<ProcessId>, MOST_CORE_PLACES>,
}

impl Model for Front {
    ghost use Rattle.apex_board.specs.Fronts.{Front as FrontValue};

    ghost Value = { FrontValue };

    ghost view = { λ f. record { entries = f.entries; now = f.now; chosen = f.chosen.items } };
}

/// The process of this byte.
fn running(byte: u8) -> Option<ProcessId>
    ensures process { byte_of result ≡ byte }
    ensures small { IfSome result IsSmallId }
{
    if byte == 0 {
        None
    } else {
        Some(ProcessId::at(byte - 1))
    }
}

impl Front {
    /// The byte of the process that a core runs.
    fn byte(&self, core: usize) -> u8
        requires { FitsWords self.now }
        ensures { result ≡ core_byte self.entry.now core }
    {
        match self.chosen.as_slice().get(core) {
            Some(Some(process)) => process.number() as u8,
            _ => 0,
        }
    }

    /// The words in which it is published.
    pub(crate) fn to_words(&self) -> [u64; 3]
        requires { FitsWords self.now }
        ensures { result ≡ words_of self.entry.now }
    {
        let bytes = [
            self.byte(0),
            self.byte(1),
            self.byte(2),
            self.byte(3),
            self.byte(4),
            self.byte(5),
            self.byte(6),
            self.byte(7),
        ];
        [u64::from(self.entries), self.now, u64::from_le_bytes(bytes)]
    }

    /// The front of a partition of n cores that these words show.
    pub(crate) fn from_words(words: &[u64; 3], cores: usize) -> Front
        requires { (front : FrontValue) × (words.now ≡ words_of front) × FitsWords front
            × (length front.chosen ≡ cores) }
        ensures { (front : FrontValue) → words.entry.now ≡ words_of front → FitsWords front
            → length front.chosen ≡ cores → result ≡ front }
    {
        let bytes = words[2].to_le_bytes();
        let mut chosen = ArrayVec::new();
        for core in 0..cores {
            chosen.push(running(bytes[core]));
        }
        Front {
            entries: words[0] as u32,
            now: words[1],
            chosen,
        }
    }
}
