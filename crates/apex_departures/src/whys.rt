//! The reason of an entry of a history.
ghost use Rattle.std.specs.Prelude.{◌≡◌, All, IfOk, IfSome, None, slice_get};
ghost use Rattle.apex_machine.specs.Machine.{events_of, opening};
ghost use Rattle.apex_machine.specs.Events.{IsWithin};
ghost use Rattle.apex_departures.specs.Why.{IsNumbered, IsReasonAt, IsReasonBehind, LacksEvent};

use apex_configs::Table;
use apex_console::booted;
use apex_dispatch::{Kernel, events_in};
use apex_reasons::{ReasonText, reason_of};
use apex_store::Store;
use apex_types::Event;
use std::alloc::{AllocError, Global};

/// The text of the reason of an event behind these events, which a kernel makes that has made none.
fn reason_behind<S: Store>(kernel: &mut Kernel<S>, before: &[Event], event: Event) -> ReasonText
    requires opening { kernel.old.machine ≡ opening kernel.old.table }
    requires before { All (IsWithin kernel.old.table.cores) before.now }
    requires event { IsWithin kernel.old.table.cores event }
    ensures { IsReasonBehind kernel.old.table before.now event result.items }
{
    // Events for which the history has no room change nothing.
    let _ran = kernel.run(before);
    reason_of(kernel, event).text(kernel.table())
}

/// The text of the reason of an event behind these events, on this table.
fn reason_after(
    alloc: Global,
    table: Table,
    before: &[Event],
    event: Event,
) -> Result<ReasonText, AllocError>
    requires before { All (IsWithin table.cores) before.now }
    requires event { IsWithin table.cores event }
    ensures { IfOk result (λ text. IsReasonBehind table before.now event text.items) }
{
    match booted(alloc, table) {
        Ok(mut kernel) => Ok(reason_behind(&mut kernel, before, event)),
        Err(error) => Err(error),
    }
}

/// An event, and those before it.
#[derive(Clone, Copy)]
struct NumberedEvent<'a> {
    before: &'a [Event],
    event: Event,
}

fn event_at(events: &[Event], place: usize) -> Option<Event>
    ensures value { result ≡ slice_get events.now place }
{
    match events.get(place) {
        Some(event) => Some(*event),
        None => None,
    }
}

/// The event of this number, counted from 1. None if there are fewer.
#[tactic(auto, using(crate::proofs::Numbered::lacks, crate::proofs::Numbered::numbered, std::proofs::lemmas::Option::slice_get_within))]
fn numbered_event<'a>(events: &'a [Event], number: u32) -> Option<NumberedEvent<'a>>
    ensures some { IfSome result
        (λ found. IsNumbered events.now number found.before.now found.event) }
    ensures none { result ≡ None → LacksEvent events.now number }
{
    if number == 0 {
        return None;
    }
    let place = number as usize - 1;
    let event = event_at(events, place)?;
    Some(NumberedEvent {
        before: &events[..place],
        event,
    })
}

/// The text of the reason of the event of this number, counted from 1.
#[tactic(auto, using(crate::proofs::Numbered::before_within, crate::proofs::Numbered::event_within, crate::proofs::Numbered::reason_at))]
fn reason_at(
    alloc: Global,
    table: Table,
    events: &[Event],
    number: u32,
) -> Result<Option<ReasonText>, AllocError>
    requires { All (IsWithin table.cores) events.now }
    ensures some { IfOk result (λ found. IfSome found
        (λ text. IsReasonAt table events.now number text.items)) }
    ensures none { IfOk result (λ found. found ≡ None → LacksEvent events.now number) }
{
    match numbered_event(events, number) {
        Some(found) => match reason_after(alloc, table, found.before, found.event) {
            Ok(text) => Ok(Some(text)),
            Err(error) => Err(error),
        },
        None => Ok(None),
    }
}

/// The text of the reason of the entry of this number, counted from 1, in a kernel's history. None
/// if the history has no entry of the number. Fails only for want of memory.
///
/// Another kernel of its table makes the events before the entry, and the reason is read off its
/// situation then.
pub fn why<S: Store>(
    alloc: Global,
    kernel: Kernel<S>,
    number: u32,
) -> Result<Option<ReasonText>, AllocError>
    ensures some { IfOk result (λ found. IfSome found
        (λ text. IsReasonAt kernel.table (events_of kernel.machine.history) number text.items)) }
    ensures none { IfOk result (λ found. found ≡ None
        → LacksEvent (events_of kernel.machine.history) number) }
{
    kernel.holds();
    match events_in(alloc, &kernel) {
        Ok(events) => reason_at(alloc, kernel.into_table(), events.as_slice(), number),
        Err(error) => Err(error),
    }
}
