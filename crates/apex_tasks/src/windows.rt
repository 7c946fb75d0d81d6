//! The window and the axis of a picture, as words say them.
ghost use Rattle.std.specs.Prelude.{◌≡◌, option_map};
ghost use Rattle.apex_tasks.specs.Windows.{axis_in, axis_of, bound_in, bound_of, window_between};

use crate::numbers::read_time;
use apex_scales::Axis;
use apex_schedules::read_positive;
use apex_showings::{Bound, Window};
use apex_types::MOST_ENTRIES;

/// The bound that a word says: the number of an entry, 1 to [`MOST_ENTRIES`], or `t=` and a time in
/// ticks, 0 to 2^36.
fn read_bound(word: &[u8]) -> Option<Bound>
    ensures { result ≡ bound_of word.now }
{
    match word.strip_prefix(b"t=") {
        Some(time) => read_time(time).map(Bound::Time),
        None => read_positive(word).map(Bound::Entry),
    }
}

/// The bound that a text says, and the entry of the number `otherwise` if there is no text. None if
/// the text is ill-formed.
fn bound_given(text: Option<&str>, otherwise: u32) -> Option<Bound>
    ensures { result ≡ bound_in otherwise (option_map (λ given. given.now) text.entry) }
{
    match text {
        Some(text) => read_bound(text.as_bytes()),
        None => Some(Bound::Entry(otherwise)),
    }
}

/// The window from the first bound to the last one, by their texts; all entries without a text. None
/// if one is ill-formed.
pub fn window_given(first: Option<&str>, last: Option<&str>) -> Option<Window>
    ensures { result ≡ window_between (option_map (λ given. given.now) first.entry)
        (option_map (λ given. given.now) last.entry) }
{
    let first = bound_given(first, 1)?;
    let last = bound_given(last, MOST_ENTRIES)?;
    Some(Window { first, last })
}

/// The axis of this word.
fn read_axis(word: &str) -> Option<Axis>
    ensures { result ≡ axis_of word.now }
{
    match word {
        "entries" => Some(Axis::Entries),
        "time" => Some(Axis::Time),
        _ => None,
    }
}

/// The axis that a text says, and that of the entries without a text. None if it is no word of one.
pub fn axis_given(text: Option<&str>) -> Option<Axis>
    ensures { result ≡ axis_in (option_map (λ given. given.now) text.entry) }
{
    match text {
        Some(text) => read_axis(text),
        None => Some(Axis::Entries),
    }
}
