//! The texts of calls, by the steps that ask for them.
ghost use Rattle.std.specs.Prelude.{◌≡◌, true, Some, IfSome};
ghost use Rattle.apex_machine.specs.table.Table.{call_in, process_config};
ghost use Rattle.apex_calls.specs.CallText.{call_text};

use apex_configs::Table;
use apex_types::{Call, MOST_PROCESSES, MOST_STEPS, ObjectCall, ProcessId};

/// Whether the calls are equal. The services that scripts ask for most are compared in place.
#[inline(always)]
pub(crate) fn is_same(one: &Call, other: &Call) -> bool
    ensures { result ≡ true → one.now ≡ other.now }
{
    match (one, other) {
        (
            Call::Semaphore(ObjectCall::KindService(one, asked)),
            Call::Semaphore(ObjectCall::KindService(other, also)),
        ) => *one == *other && *asked == *also,
        (
            Call::Buffer(ObjectCall::KindService(one, asked)),
            Call::Buffer(ObjectCall::KindService(other, also)),
        ) => *one == *other && *asked == *also,
        (Call::Time(one), Call::Time(other)) => *one == *other,
        _ => *one == *other,
    }
}

/// Whether the step at this place of the process's script asks for this call.
#[inline(always)]
fn asks_for(table: &Table, process: ProcessId, place: u8, call: &Call) -> bool
    ensures { result ≡ true → call_in (process_config table.now process).script place
        ≡ Some call.now }
{
    match table.step_call(process, usize::from(place)) {
        Some(step) => is_same(&step, call),
        None => false,
    }
}

/// The place behind this one in the process's script, or the first one at the end of it.
#[inline(always)]
fn place_behind(table: &Table, process: ProcessId, place: u8) -> u8 {
    let behind = place.wrapping_add(1);
    match table.step_call(process, usize::from(behind)) {
        Some(_) => behind,
        None => 0,
    }
}

/// The place of a step of the process's script that asks for this call: the first one from this
/// place on, and then from the script's first step on.
#[inline(never)]
fn place_from(table: &Table, process: ProcessId, from: u8, call: &Call) -> Option<u8>
    ensures { IfSome result (λ place. call_in (process_config table.now process).script place
        ≡ Some call.now) }
{
    let mut place = from;
    for _ in 0..=MOST_STEPS {
        if asks_for(table, process, place, call) {
            return Some(place);
        }
        place = place_behind(table, process, place);
    }
    None
}

/// The place of the step that each process is expected to ask for next: the one behind the step
/// whose text was copied last, or the first one. Scripts go on in order, so that a line's call is
/// mostly found soon, and its text is copied from the table. A wrong place has no effect on a
/// line's bytes.
#[derive(Drop)]
pub struct NextSteps {
    places: [u8; MOST_PROCESSES],
}

impl NextSteps {
    /// The first step of each script.
    pub fn new() -> NextSteps {
        NextSteps {
            places: [0; MOST_PROCESSES],
        }
    }

    /// The text of the call, if a step of the process's script asks for it.
    #[inline(always)]
    pub(crate) fn text<'t>(
        &mut self,
        table: &'t Table,
        process: ProcessId,
        call: &Call,
    ) -> Option<&'t [u8]>
        ensures { IfSome result (λ text. text.now ≡ call_text table.now call.now) }
    {
        let next = self.places.get_mut(process.place())?;
        let place = if asks_for(table, process, *next, call) {
            *next
        } else {
            place_from(table, process, *next, call)?
        };
        *next = place_behind(table, process, place);
        table.step_text(process, usize::from(place))
    }
}
