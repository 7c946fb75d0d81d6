//! The calls and the literals of a list of steps.
ghost use Rattle.std.specs.Prelude.{◌≡◌, ◌≤◌, length};
ghost use Rattle.apex_types.specs.declared.limits.TheConstants.{MOST_LITERAL};
ghost use Rattle.apex_machine.specs.table.Table.{step_at, call_in};

use apex_machine::Step;
use apex_types::Call;

/// The call of the step at this place, counted from 0, or none past the end.
pub fn call_in(steps: &[Step], place: usize) -> Option<Call>
    ensures { result ≡ call_in steps.now place }
{
    match steps.get(place) {
        Some(step) => Some(step.call()),
        None => None,
    }
}

/// The literal of the step at this place, counted from 0, which has no byte past the end.
pub fn literal_in(steps: &[Step], place: usize) -> &[u8]
    ensures value { result.now ≡ (step_at steps.now place).literal }
    ensures range { length result.now ≤ MOST_LITERAL }
{
    match steps.get(place) {
        Some(step) => step.literal().as_bytes(),
        None => &[],
    }
}
