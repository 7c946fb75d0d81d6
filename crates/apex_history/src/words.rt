//! The words of a text: cut apart at a separator, and read as a core and as ticks of time.
ghost use Rattle.std.specs.Prelude.{◌≡◌, ◌<◌, ◌≤◌, ◌∷◌, length, option_map, IfSome, ◌==◌};
ghost use Rattle.std.specs.List.{position};
ghost use Rattle.apex_types.specs.declared.limits.TheConstants.{MOST_TICKS};
ghost use Rattle.apex_history.specs.Words.{parts, parts_after, core_of, ticks_of};

use apex_types::{CoreId, MOST_TICKS, number_at_most};
use std::marker::Model;

/// A number of ticks of time, 1 to [`MOST_TICKS`].
#[derive(Clone, Copy, PartialEq, Eq)]
pub struct Ticks {
    count: u32,
}

impl Model for Ticks {
    ghost use Rattle.std.specs.Prelude.{ℕ, ◌≤◌};
    ghost use Rattle.apex_types.specs.declared.limits.TheConstants.{MOST_TICKS};

    ghost Value = { ℕ };

    ghost view = { λ t. t.count };

    ghost invariant = { λ t. (1 ≤ t.count) × (t.count ≤ MOST_TICKS) };

    ghost inverse = { λ n. record { count = n } };
}

impl Ticks {
    /// The number of ticks, 1 to [`MOST_TICKS`].
    pub fn count(self) -> u32
        ensures value { result ≡ self }
        ensures range { (1 ≤ result) × (result ≤ MOST_TICKS) }
    {
        self.count
    }
}

fn place_of(text: &[u8], separator: u8) -> Option<usize>
    ensures place { result ≡ position (λ byte. byte == separator) text.now }
    ensures within { IfSome result (λ at. at < length text.now) }
{
    text.iter().position(|byte| *byte == separator)
}

/// The text before the first separator, and the text after it if there is one.
#[tactic(auto, using(crate::proofs::Parts::split_at_first, crate::proofs::Parts::split_at_none))]
pub fn cut(text: &[u8], separator: u8) -> (&[u8], Option<&[u8]>)
    ensures parts { parts separator text.now
        ≡ result.0.now ∷ parts_after separator (option_map (λ rest. rest.now) result.1) }
    ensures shorter { IfSome result.1 (λ rest. length rest.now < length text.now) }
{
    match place_of(text, separator) {
        Some(at) => (&text[..at], Some(&text[at + 1..])),
        None => (text, None),
    }
}

/// The core with this number, one digit from 0 to 7.
pub fn read_core(word: &[u8]) -> Option<CoreId>
    ensures { result ≡ core_of word.now }
{
    match word {
        [digit @ b'0'..=b'7'] => Some(CoreId::new(*digit - b'0')),
        _ => None,
    }
}

/// The ticks of time that a word writes, if it is a number from 1 to [`MOST_TICKS`] without a
/// leading zero.
pub fn read_ticks(word: &[u8]) -> Option<Ticks>
    ensures { result ≡ ticks_of word.now }
{
    let count = number_at_most(word, MOST_TICKS)?;
    if count >= 1 {
        Some(Ticks { count })
    } else {
        None
    }
}
