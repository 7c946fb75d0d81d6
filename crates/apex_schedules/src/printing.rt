//! Events printed as the text of a schedule.
ghost use Rattle.std.specs.Prelude.{◌≡◌, ◌+◌, ◌<◌, ◌≤◌, ◌++◌, length, not, slice_get, Some, IfErr, OnErr, OnOk};
ghost use Rattle.std.specs.Io.KnownBytes.{Appends};
ghost use Rattle.std.specs.List.{position, position_or_len};
ghost use Rattle.arrayvec.specs.ArrayVec.{array_vec_len};
ghost use Rattle.apex_history.specs.Counted.{inner_of, failures_of, CountsFailure, AppendsBeginning, IsOfWrite};
ghost use Rattle.apex_history.specs.Page.{Passes};
ghost use Rattle.apex_schedules.specs.Printing.{is_turn_of, item_for, item_text, leading, schedule_text, times_text};
ghost use Rattle.apex_schedules.specs.declared.printing.TheConstants.{ITEM_ROOM, TEXT_ROOM};

use apex_history::{Counted, Sink};
use apex_texts::{put_long_number, put_number};
use apex_types::{CoreId, Event};
use arrayvec::ArrayVec;
use std::io::{Result, Write};

/// The most bytes of an item, with the space behind it.
const ITEM_ROOM: usize = 24;

/// The most bytes that are gathered before they are written.
const TEXT_ROOM: usize = 4_096;

/// A part of a schedule's text, which is written at once.
type Text = ArrayVec<u8, TEXT_ROOM>;

/// The number of times behind a core, unless it is 1.
#[tactic(auto, using(std::proofs::Common::append_assoc))]
fn put_times(text: &mut Text, times: usize)
    requires { array_vec_len text.old + 21 ≤ TEXT_ROOM }
    ensures text { text.new.items ≡ text.old.items ++ times_text times }
    ensures short { array_vec_len text.new ≤ array_vec_len text.old + 21 }
{
    if times != 1 {
        text.push(b'*');
        put_long_number(text, times as u64);
    }
}

fn is_turn_of(core: CoreId, event: &Event) -> bool
    ensures { result ≡ is_turn_of core event.now }
{
    match *event {
        Event::Turn(other) => other.number() == core.number(),
        Event::Tick(_) => false,
    }
}

fn place_of_other(core: CoreId, events: &[Event]) -> Option<usize>
    ensures { result ≡ position (λ event. not (is_turn_of core event)) events.now }
{
    events.iter().position(|event| !is_turn_of(core, event))
}

/// The number of the events that are turns of the core, up to the first other one.
#[tactic(auto, using(crate::proofs::Printed::place_some, crate::proofs::Printed::place_none))]
fn leading_turns(core: CoreId, events: &[Event]) -> usize
    ensures count { result ≡ position_or_len (λ event. not (is_turn_of core event)) events.now }
    ensures within { result ≤ length events.now }
{
    match place_of_other(core, events) {
        Some(at) => at,
        None => events.len(),
    }
}

/// The number of the events of the first item.
#[tactic(auto, using(crate::proofs::Printed::leads))]
fn length_of_first(first: Event, events: &[Event]) -> usize
    requires { slice_get events.now 0 ≡ Some first }
    ensures count { result ≡ leading first events.now }
    ensures some { 1 ≤ result }
    ensures within { result ≤ length events.now }
{
    match first {
        Event::Turn(core) => leading_turns(core, events),
        Event::Tick(_) => 1,
    }
}

/// Puts the item of this many events that are this one.
#[tactic(auto, using(std::proofs::Common::append_assoc, std::proofs::lemmas::Fmt::decimal_digit))]
fn put_item(text: &mut Text, event: Event, times: usize)
    requires { array_vec_len text.old + ITEM_ROOM ≤ TEXT_ROOM }
    ensures text { text.new.items ≡ text.old.items ++ item_text (item_for event times) }
    ensures short { array_vec_len text.new < array_vec_len text.old + ITEM_ROOM }
{
    match event {
        Event::Turn(core) => {
            text.push(b'0' + core.number());
            put_times(text, times);
        }
        Event::Tick(ticks) => {
            text.push(b't');
            put_number(text, ticks);
        }
    }
}

/// Puts the first item of the events, with a space if more events are behind it. These are left.
fn put_first<'a>(text: &mut Text, events: &'a [Event]) -> &'a [Event]
    requires { array_vec_len text.old + ITEM_ROOM ≤ TEXT_ROOM }
    ensures text { text.new.items ++ schedule_text result.now
        ≡ text.old.items ++ schedule_text events.now }
    ensures shorter { 0 < length events.now → length result.now < length events.now }
    ensures short { array_vec_len text.new ≤ array_vec_len text.old + ITEM_ROOM }
{
    let [first, ..] = events else {
        return events;
    };
    let times = length_of_first(*first, events);
    put_item(text, *first, times);
    let rest = &events[times..];
    if !rest.is_empty() {
        text.push(b' ');
    }
    rest
}

/// Writes the text out if an item may not fit behind it.
fn make_room<W: Sink>(text: &mut Text, writer: &mut Counted<W>) -> Result<()>
    ensures ok { OnOk result
        (Passes (W.contents (inner_of writer.old)) (W.contents (inner_of writer.new))
        text.old.items text.new.items) }
    ensures room { OnOk result (array_vec_len text.new + ITEM_ROOM ≤ TEXT_ROOM) }
    ensures err { OnErr result
        (AppendsBeginning (W.contents (inner_of writer.old)) (W.contents (inner_of writer.new))
        text.old.items) }
    ensures counted { CountsFailure result (failures_of writer.old) (failures_of writer.new) }
    ensures failed { IfErr result (IsOfWrite W.accepts (inner_of writer.new)) }
{
    if text.len() + ITEM_ROOM <= TEXT_ROOM {
        return Ok(());
    }
    writer.write_all(text.as_slice())?;
    text.clear();
    Ok(())
}

/// Writes the events as the text of a schedule, without a line feed. Takes no memory.
///
/// Each tick is an item, and so are all turns of one core with no other event between them. No
/// events have the empty text, which is no schedule. If a write failed, a prefix of the text was
/// written.
pub fn print_schedule<W: Sink>(events: &[Event], writer: &mut Counted<W>) -> Result<()>
    ensures ok { OnOk result
        (Appends (W.contents (inner_of writer.old)) (W.contents (inner_of writer.new))
        (schedule_text events.now)) }
    ensures err { OnErr result
        (AppendsBeginning (W.contents (inner_of writer.old)) (W.contents (inner_of writer.new))
        (schedule_text events.now)) }
    ensures counted { CountsFailure result (failures_of writer.old) (failures_of writer.new) }
    ensures failed { IfErr result (IsOfWrite W.accepts (inner_of writer.new)) }
{
    let mut text = Text::new();
    let mut rest = events;
    while !rest.is_empty() {
        make_room(&mut text, writer)?;
        rest = put_first(&mut text, rest);
    }
    writer.write_all(text.as_slice())
}
