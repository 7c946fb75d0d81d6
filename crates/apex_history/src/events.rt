//! The event that a line of a history names.
ghost use Rattle.std.specs.Prelude.{◌≡◌, ◌∷◌, option_map};
ghost use Rattle.apex_history.specs.Words.{parts, parts_after};
ghost use Rattle.apex_history.specs.ReadLines.{turn_named, tick_named, event_named, line_result};

use crate::words::{cut, read_core, read_ticks};
use apex_types::{Event, MOST_LINE};

/// The reason why a line names no event.
#[derive(Clone, Copy, Debug, PartialEq, Eq)]
pub enum LineFault {
    /// Its words name no event.
    BadLine,
    /// It has more than [`MOST_LINE`] bytes.
    TooLong,
}

/// The turn of a core, if the third word of a line names one.
fn read_turn(who: &[u8]) -> Option<Event>
    ensures { result ≡ turn_named who.now }
{
    let core = who.strip_prefix(b"core")?;
    read_core(core).map(Event::Turn)
}

/// The tick, if the third word of a line and the words behind it name one.
fn read_tick(who: &[u8], after: Option<&[u8]>) -> Option<Event>
    ensures { result ≡ tick_named
        (who.now ∷ parts_after 32 (option_map (λ rest. rest.now) after.entry)) }
{
    let (process, after) = cut(after?, b' ');
    let (call, after) = cut(after?, b' ');
    let (ticks, _) = cut(after?, b' ');
    if who != b"ticker".as_slice() || process != b"-".as_slice() || call != b"tick".as_slice() {
        return None;
    }
    let ticks = read_ticks(ticks)?;
    Some(Event::Tick(ticks.count()))
}

fn event_in(line: &[u8]) -> Option<Event>
    ensures { result ≡ event_named (parts 32 line.now) }
{
    let (_, after) = cut(line, b' ');
    let (_, after) = cut(after?, b' ');
    let (who, after) = cut(after?, b' ');
    match read_turn(who) {
        Some(turn) => Some(turn),
        None => read_tick(who, after),
    }
}

/// The event that a line of a history names; the line is given without its line feed.
///
/// Its third word is `coreC`, C a core from 0 to 7, or its third to sixth words are
/// `ticker - tick n`, n from 1 to `MOST_TICKS` without a leading zero; nothing else of it counts. A
/// word is the text between two single spaces, and may be empty (this profile).
///
/// # Errors
///
/// `TooLong` if the line has more than [`MOST_LINE`] bytes, else `BadLine` if it names no event.
pub fn read_line(line: &[u8]) -> Result<Event, LineFault>
    ensures { result ≡ line_result line.now }
{
    if line.len() > MOST_LINE {
        return Err(LineFault::TooLong);
    }
    event_in(line).ok_or(LineFault::BadLine)
}
