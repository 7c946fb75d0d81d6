//! The items of a schedule's text, and the fault of a text that is no schedule.
ghost use Rattle.std.specs.Prelude.{◌≡◌, IfErr, IfOk};
ghost use Rattle.apex_schedules.specs.Readings.{AreItemsOf, IsFaultOf};
ghost use Rattle.apex_showings.specs.Schedules.{IsBadIn, IsFaultIn, bad_of, fault_at};

use apex_schedules::{Item, Place, ScheduleFault, read_grouped};
use std::alloc::Global;

/// The reason why a text is no schedule.
#[derive(Clone, Copy, PartialEq, Eq)]
pub enum ScheduleReason {
    /// A word is neither an item nor a bracket, its bracket closes no group, or the text ends in a
    /// group.
    IllFormed,
    /// The items are more than a history has room for, each group written out as often as it comes.
    TooMany,
}

/// A fault of a schedule's text, with its place.
#[derive(Clone, Copy, PartialEq, Eq)]
pub struct BadSchedule {
    /// Why the text is no schedule.
    pub reason: ScheduleReason,
    /// The number of the item, from 1.
    pub item: usize,
    /// The line of the place, from 1.
    pub line: usize,
    /// The column of the place, from 1.
    pub column: usize,
}

/// The reason why no items are read.
#[derive(Clone, Copy)]
pub enum ItemsFault {
    /// Memory was refused.
    Memory,
    /// The text is no schedule.
    Schedule(BadSchedule),
}

/// The fault of a schedule's text for this reason, at a place.
fn bad_at(reason: ScheduleReason, place: Place, text: &[u8]) -> BadSchedule
    requires { IsFaultOf text.now (fault_at reason place) }
    ensures value { result ≡ bad_of reason place text.now }
    ensures fault { IsBadIn text.now result }
{
    let (line, column) = place.line_and_column(text);
    BadSchedule {
        reason,
        item: place.item,
        line,
        column,
    }
}

/// The fault of a reading, by that of a schedule's text.
fn fault_of_schedule(fault: ScheduleFault, text: &[u8]) -> ItemsFault
    requires { IsFaultOf text.now fault }
    ensures { IsFaultIn text.now result }
{
    match fault {
        ScheduleFault::IllFormed(place) => {
            ItemsFault::Schedule(bad_at(ScheduleReason::IllFormed, place, text))
        }
        ScheduleFault::TooMany(place) => ItemsFault::Schedule(bad_at(
            ScheduleReason::TooMany,
            place,
            text,
        )),
        ScheduleFault::Memory => ItemsFault::Memory,
    }
}

/// The items of a schedule's text, which may have groups. `Memory` if memory is refused.
pub fn read_items(alloc: Global, text: &[u8]) -> Result<Vec<Item>, ItemsFault>
    ensures ok { IfOk result (λ items. AreItemsOf text.now items.items) }
    ensures err { IfErr result (IsFaultIn text.now) }
{
    match read_grouped(alloc, text) {
        Ok(items) => Ok(items),
        Err(fault) => Err(fault_of_schedule(fault, text)),
    }
}
