//! The words of a schedule with groups, and the pieces that they are.
ghost use Rattle.std.specs.Prelude.{◌≡◌, ◌-◌, ◌<◌, ◌≤◌, ◌∷◌, ◌||◌, ◌==◌, drop, length, take};
ghost use Rattle.std.specs.List.{position, position_or_len};
ghost use Rattle.apex_schedules.specs.Groups.{BeginsWithNoGap, filled, is_boundary, is_gap, piece_of, times_behind, words};

use crate::schedule::{Item, read_item, read_positive};

/// A piece of a schedule with groups.
#[derive(Clone, Copy, PartialEq, Eq)]
pub(crate) enum Piece {
    Single(Item),
    /// The bracket that opens a group.
    Open,
    /// The bracket that closes a group, and the number of times that the group comes, from 1 to
    /// 65,536.
    Close(u32),
}

fn read_times(after: &[u8]) -> Option<u32>
    ensures { result ≡ times_behind after.now }
{
    match after {
        [b'*', times @ ..] => read_positive(times),
        _ => None,
    }
}

/// The piece that a word is.
pub(crate) fn read_piece(word: &[u8]) -> Option<Piece>
    ensures { result ≡ piece_of word.now }
{
    match word {
        [] => None,
        [b'(', ..] => Some(Piece::Open),
        [b')', after @ ..] => read_times(after).map(Piece::Close),
        _ => read_item(word).map(Piece::Single),
    }
}

fn place_of_boundary(text: &[u8]) -> Option<usize>
    ensures { result ≡ position is_boundary text.now }
{
    text.iter()
        .position(|byte| matches!(*byte, b' ' | b'\n' | b'(' | b')'))
}

/// The number of bytes before the first that ends a word.
#[tactic(auto, using(crate::proofs::Printed::place_some, crate::proofs::Printed::place_none))]
fn length_of_word(text: &[u8]) -> usize
    ensures value { result ≡ position_or_len is_boundary text.now }
    ensures within { result ≤ length text.now }
{
    match place_of_boundary(text) {
        Some(at) => at,
        None => text.len(),
    }
}

fn is_gap(byte: u8) -> bool
    ensures { result ≡ is_gap byte }
{
    byte == b' ' || byte == b'\n'
}

/// The text behind the gap that it begins with, or the text itself if it begins with none.
#[tactic(auto, using(crate::proofs::Words::gap_left))]
fn behind_gap(text: &[u8]) -> &[u8]
    ensures words { filled (words result.now) ≡ filled (words text.now) }
    ensures fits { length result.now ≤ length text.now }
    ensures rest { result.now ≡ drop (length text.now - length result.now) text.now }
{
    match text {
        [b' ' | b'\n', after @ ..] => after,
        _ => text,
    }
}

/// The first word of a text, which may be empty, and a text that has the words behind it.
pub(crate) fn cut_word(text: &[u8]) -> (&[u8], &[u8])
    requires { 0 < length text.now }
    ensures words { filled (words text.now) ≡ filled (result.0.now ∷ words result.1.now) }
    ensures begins { 0 < length result.0.now → BeginsWithNoGap text.now }
    ensures shorter { length result.1.now < length text.now }
    ensures rest { result.1.now ≡ drop (length text.now - length result.1.now) text.now }
{
    let first = text[0];
    let after = &text[1..];
    if is_gap(first) {
        return (&text[..0], after);
    }
    if first == b'(' {
        return (&text[..1], after);
    }
    let end = length_of_word(after) + 1;
    (&text[..end], behind_gap(&text[end..]))
}
