//! The turn that a line names, by its first words, whose spaces are found all at once.
ghost use Rattle.std.specs.Prelude.{◌≡◌, ◌≤◌, ◌∷◌, length, take, IfSome, Ok};
ghost use Rattle.apex_history.specs.ReadLines.{line_result, turn_named};
ghost use Rattle.apex_history.specs.Words.{parts};
ghost use Rattle.apex_incoming.specs.Places.{ArePlaces};
ghost use Rattle.apex_incoming.specs.declared.lanes.TheConstants.{LANES};

use crate::lanes::{LANES, behind, below, lowest, places_of};
use apex_history::read_core;
use apex_types::{Event, MOST_LINE};

/// A text of words, and its first spaces.
#[derive(Clone, Copy)]
struct Words<'a> {
    text: &'a [u8],
    spaces: u64,
    ghost are: { ArePlaces 32 text.now spaces },
}

impl<'a> Words<'a> {
    /// The words of the first line of the bytes, which has `end` bytes.
    #[inline(always)]
    fn of_line(bytes: &'a [u8], end: usize) -> Words<'a>
        requires line { end ≤ length bytes.now }
        requires room { LANES ≤ length bytes.now }
        ensures { result.text.now ≡ take end bytes.now }
    {
        Words {
            text: &bytes[..end],
            spaces: below(places_of(b' ', bytes), end.min(LANES)),
        }
    }

    /// The first word, and the words behind it, if the space between them is known.
    #[inline(always)]
    fn cut(self) -> Option<(&'a [u8], Words<'a>)>
        ensures { IfSome result (λ cut. parts 32 self.entry.text.now
            ≡ cut.0.now ∷ parts 32 cut.1.text.now) }
    {
        if self.spaces == 0 {
            return None;
        }
        let at = lowest(self.spaces);
        let word = &self.text[..at];
        let rest = Words {
            text: &self.text[at + 1..],
            spaces: behind(self.spaces, at),
        };
        Some((word, rest))
    }
}

/// The turn of a core, if the third word of a line names one.
#[inline(always)]
fn read_turn(who: &[u8]) -> Option<Event>
    ensures { result ≡ turn_named who.now }
{
    let core = who.strip_prefix(b"core")?;
    read_core(core).map(Event::Turn)
}

/// The turn that the first line of the bytes names, which has `end` bytes, if it is found fast: its
/// first words are short, and there are some bytes.
#[inline(always)]
pub fn turn_ahead(bytes: &[u8], end: usize) -> Option<Event>
    requires { end ≤ length bytes.now }
    ensures { IfSome result (λ event. line_result (take end bytes.now) ≡ Ok event) }
{
    if bytes.len() < LANES || end > MOST_LINE {
        return None;
    }
    let (_, words) = Words::of_line(bytes, end).cut()?;
    let (_, words) = words.cut()?;
    let (who, _) = words.cut()?;
    read_turn(who)
}
