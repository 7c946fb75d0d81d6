//! The words of one part of a situation among all of them.
ghost use Rattle.std.specs.Prelude.{◌≡◌, ℕ, ◌+◌, ◌≤◌, List, length};
ghost use Rattle.std.specs.List.{flat_map};
ghost use Rattle.apex_forms.specs.Parts.{IsPut};

/// A thing of which some words of a situation say how it is.
pub(crate) trait Stored {
    /// Its words.
    ghost stored: { Self → List ℕ };

    /// Puts its words at a place, and answers the place behind them.
    fn put(&self, words: &mut [u64], at: usize) -> usize
        requires { at + length (stored self.now) ≤ length words.old }
        ensures { IsPut (stored self.now) at words.old result words.new };
}

/// These words are as those others from now on. They are set one by one, so that words which were
/// made for this need no memory of their own.
fn set_all(words: &mut [u64], others: &[u64])
    requires { length words.old ≡ length others.now }
    ensures { words.new ≡ others.now }
{
    for place in 0..words.len() {
        words[place] = others[place];
    }
}

/// Puts these words at a place, and answers the place behind them.
pub(crate) fn put(words: &mut [u64], at: usize, part: &[u64]) -> usize
    requires { at + length part.now ≤ length words.old }
    ensures { IsPut part.now at words.old result words.new }
{
    let end = at + part.len();
    set_all(&mut words[at..end], part);
    end
}

/// Puts the words of each of these things at a place, and answers the place behind them.
pub(crate) fn put_all<P: Stored>(parts: &[P], words: &mut [u64], at: usize) -> usize
    requires { at + length (flat_map P.stored parts.now) ≤ length words.old }
    ensures { IsPut (flat_map P.stored parts.now) at words.old result words.new }
{
    let mut end = at;
    for part in parts {
        end = part.put(words, end);
    }
    end
}
