//! The words of values, as lines and listings have them.
ghost use Rattle.std.specs.Prelude.{◌≡◌, ◌≤◌, length};
ghost use Rattle.apex_calls.specs.Lines.{code_text, deadline_text};
ghost use Rattle.apex_machine.specs.text.Status.{operating_mode_text, state_text, up_text};

use apex_types::{DeadlineType, Mode, ReturnCode, State};

/// The word of an operating mode.
pub fn mode_word(mode: Mode) -> &'static str
    ensures value { result.now ≡ operating_mode_text mode }
    ensures short { length result.now ≤ 10 }
{
    match mode {
        Mode::Idle => "IDLE",
        Mode::ColdStart => "COLD_START",
        Mode::Normal => "NORMAL",
    }
}

/// The word of a process's state.
pub fn state_word(state: State) -> &'static str
    ensures value { result.now ≡ state_text state }
    ensures short { length result.now ≤ 7 }
{
    match state {
        State::Dormant => "DORMANT",
        State::Ready => "READY",
        State::Running => "RUNNING",
        State::Waiting => "WAITING",
    }
}

/// Whether an event flag is up.
pub fn up_word(up: bool) -> &'static str
    ensures value { result.now ≡ up_text up }
    ensures short { length result.now ≤ 4 }
{
    if up { "UP" } else { "DOWN" }
}

/// The word of a return code.
pub fn code_word(code: ReturnCode) -> &'static str
    ensures value { result.now ≡ code_text code }
    ensures short { length result.now ≤ 14 }
{
    match code {
        ReturnCode::NoError => "NO_ERROR",
        ReturnCode::NoAction => "NO_ACTION",
        ReturnCode::NotAvailable => "NOT_AVAILABLE",
        ReturnCode::InvalidParam => "INVALID_PARAM",
        ReturnCode::InvalidConfig => "INVALID_CONFIG",
        ReturnCode::InvalidMode => "INVALID_MODE",
        ReturnCode::TimedOut => "TIMED_OUT",
    }
}

/// The word of a type of deadline.
pub fn deadline_word(deadline: DeadlineType) -> &'static str
    ensures value { result.now ≡ deadline_text deadline }
    ensures short { length result.now ≤ 4 }
{
    match deadline {
        DeadlineType::Soft => "soft",
        DeadlineType::Hard => "hard",
    }
}
