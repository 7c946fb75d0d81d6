//! A history that departs from what the partition does: the run before the departure, and its mark.
ghost use Rattle.std.specs.Prelude.{◌≡◌, ◌-◌, All, IfOk, None, option_map, take};
ghost use Rattle.apex_machine.specs.Events.{IsWithin};
ghost use Rattle.apex_machine.specs.Machine.{events_of, opening, run};
ghost use Rattle.apex_views.specs.Departures.{Marks, departure_behind, departure_said, extent_of};
ghost use Rattle.apex_pictures.specs.Svg.{HasRoom};

use apex_console::booted;
use apex_departures::ShownLines;
use apex_dispatch::{Kernel, events_in};
use apex_history::Lines;
use apex_pictures::{Extent, Frame, Mark, Side};
use apex_process::QueueStore;
use apex_showings::EntryRange;
use apex_store::Store;
use apex_types::Event;
use std::alloc::{AllocError, Global};

/// A departure, as it is shown.
#[derive(Drop)]
pub struct Departure {
    /// The text of the verdict.
    pub verdict: Lines,
    /// The line that departs, and the line that the machine expects.
    pub lines: ShownLines,
}

/// The events of the entries of a kernel's history before this number.
fn events_before<S: Store>(
    alloc: Global,
    kernel: &Kernel<S>,
    number: u32,
) -> Result<Vec<Event>, AllocError>
    ensures items { IfOk result (λ events. events.items
        ≡ take (number - 1) (events_of kernel.now.machine.history)) }
    ensures within { IfOk result (λ events. All (IsWithin kernel.now.table.cores) events.items) }
{
    kernel.holds();
    let mut events = events_in(alloc, kernel)?;
    events.truncate(number.saturating_sub(1) as usize);
    Ok(events)
}

/// Makes the events on a kernel before any event.
fn make<S: Store>(kernel: &mut Kernel<S>, events: &[Event])
    requires opened { kernel.old.machine ≡ opening kernel.old.table }
    requires within { All (IsWithin kernel.old.table.cores) events.now }
    ensures table { kernel.new.table ≡ kernel.old.table }
    ensures machine { kernel.new.machine
        ≡ run kernel.old.table (opening kernel.old.table) events.now }
{
    // Events for which the history has no room change nothing.
    let _ran = kernel.run(events);
}

/// Another kernel of the table, which makes the events of the entries before this number.
pub(crate) fn kernel_before(
    alloc: Global,
    kernel: Kernel<QueueStore>,
    number: u32,
) -> Result<Kernel<QueueStore>, AllocError>
    ensures table { IfOk result (λ before. before.table ≡ kernel.table) }
    ensures machine { IfOk result (λ before. before.machine ≡ run kernel.table
        (opening kernel.table) (take (number - 1) (events_of kernel.machine.history))) }
{
    let events = events_before(alloc, &kernel, number)?;
    let mut before = booted(alloc, kernel.into_table())?;
    make(&mut before, events.as_slice());
    Ok(before)
}

/// A copy of the bytes.
fn copied(alloc: Global, bytes: &[u8]) -> Result<Vec<u8>, AllocError>
    ensures { IfOk result (λ copy. copy.items ≡ bytes.now) }
{
    let mut copy = Vec::new(alloc);
    copy.extend_from_slice(bytes)?;
    Ok(copy)
}

/// The mark of a departure.
fn mark_of(alloc: Global, lines: &ShownLines) -> Result<Mark, AllocError>
    ensures expected { IfOk result (λ mark. mark.expected.items ≡ lines.now.expected.items) }
    ensures given { IfOk result (λ mark. mark.given.items ≡ lines.now.given.items) }
{
    let expected = copied(alloc, lines.expected.as_slice())?;
    let given = copied(alloc, lines.given.as_slice())?;
    Ok(Mark { expected, given })
}

/// The entries that a picture of a range is asked to show, of a history of this many entries, with idle
/// entries folded or not: if it has too many columns, and a departure follows the last entry of the
/// range, the last ones are drawn.
pub(crate) fn extent_of(
    departure: &Option<Departure>,
    entries: usize,
    fold: bool,
    range: EntryRange,
) -> Extent
    ensures { result ≡ extent_of (option_map departure_said departure.now) entries fold range }
{
    let side = match departure {
        Some(_) if range.last as usize == entries => Side::Last,
        _ => Side::First,
    };
    Extent {
        first: range.first,
        last: range.last,
        side,
        fold,
    }
}

/// The frame of an extent with the mark of the departure behind a history of this many entries, if there
/// is one and the extent ends with the last entry.
pub(crate) fn marked(
    alloc: Global,
    frame: Frame,
    departure: &Option<Departure>,
    extent: Extent,
    entries: usize,
) -> Result<Frame, AllocError>
    requires { frame.mark ≡ None }
    ensures columns { IfOk result (λ found. found.columns ≡ frame.columns) }
    ensures rows { IfOk result (λ found. found.rows ≡ frame.rows) }
    ensures room { HasRoom frame → IfOk result HasRoom }
    ensures mark { IfOk result (λ found. Marks (departure_behind extent.last entries
        (option_map departure_said departure.now)) found.mark) }
{
    let Some(departure) = departure else {
        return Ok(frame);
    };
    if extent.last as usize != entries {
        return Ok(frame);
    }
    let mark = mark_of(alloc, &departure.lines)?;
    Ok(frame.marked(mark))
}
