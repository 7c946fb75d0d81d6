//! Short forms of texts: `<<3 * 5,>>` means `5,5,5,`, and in a line `; ` is a line feed.
use crate::faults::CaseFault;
use crate::texts::Text;
use std::alloc::Global;
use std::mem::drop;

/// How often, and which part, the fold repeats that a piece begins in, and what comes after it.
fn fold_of(piece: &str) -> Option<(u16, &str, &str)> {
    let (fold, after) = piece.split_once(">>")?;
    let (times, part) = fold.split_once(" * ")?;
    match times.parse::<u16>() {
        Ok(times) => Some((times, part, after)),
        Err(_) => None,
    }
}

/// Appends a piece of a text that begins in a fold.
fn put_unfolded(whole: &mut Text, piece: &str) {
    let Some((times, part, after)) = fold_of(piece) else {
        return whole.blame(CaseFault::Fold);
    };
    for _time in 0..times {
        whole.put(part);
    }
    whole.put(after);
}

/// The text without folds; `Fold` if one does not end, or does not give its number of times.
pub fn unfolded(alloc: Global, text: &str) -> Text {
    let mut whole = Text::new(alloc);
    let mut pieces = text.split("<<");
    whole.put(pieces.next().unwrap_or(""));
    for piece in pieces {
        put_unfolded(&mut whole, piece);
    }
    whole
}

/// The text that a line gives, in which `; ` is a line feed.
pub(crate) fn lines_of(alloc: Global, line: &str) -> Text {
    let line = unfolded(alloc, line);
    let lines = line.replaced(alloc, "; ", "\n", usize::MAX);
    drop(line);
    lines
}

/// The table with the new lines in place of the old ones, at the first `most` places; `Edit` if the
/// old ones are nowhere in it.
fn edited(alloc: Global, table: &Text, old: &Text, new: &Text, most: usize) -> Text {
    let mut text = table.replaced(alloc, old.as_str(), new.as_str(), most);
    text.blame_with(old);
    text.blame_with(new);
    if old.as_str().is_empty() || !table.as_str().contains(old.as_str()) {
        text.blame(CaseFault::Edit);
    }
    text
}

/// The table with the lines that `new` gives in place of those that `old` gives, at the first
/// `most` places; `Edit` if the old ones are nowhere in it.
pub(crate) fn replaced(alloc: Global, table: &Text, old: &str, new: &str, most: usize) -> Text {
    let old = lines_of(alloc, old);
    let new = lines_of(alloc, new);
    let text = edited(alloc, table, &old, &new, most);
    drop(old);
    drop(new);
    text
}
