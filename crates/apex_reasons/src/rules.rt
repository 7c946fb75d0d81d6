//! The rules that decide a reply: a guard, the want of what a caller waits for, or another.
ghost use Rattle.std.specs.Prelude.{◌≡◌};
ghost use Rattle.apex_reasons.specs.Effects.{waiting_rule, at_once};
ghost use Rattle.apex_reasons.specs.Reasons.{idle_rule};

use crate::guards::Guard;
use apex_types::{Mode, Timeout};

/// Why the caller of a service begins to wait (this profile).
#[derive(Clone, Copy)]
pub enum WaitCause {
    /// The value of the semaphore is 0.
    SemaphoreIsAtZero,
    /// The buffer is full, and its first waiter is no receiver.
    BufferIsFull,
    /// The buffer holds no message.
    BufferIsEmpty,
    /// The blackboard holds no message.
    BlackboardIsEmpty,
    /// The event flag is down.
    EventFlagIsDown,
    /// Another process owns the mutex.
    MutexIsOwned,
    /// The caller asks to wait for some time.
    AsksForTime,
    /// The caller asks to wait for its next release.
    AsksForRelease,
    /// The caller asks to be suspended.
    AsksForSuspension,
}

/// The guard or the rule that decides the reply of an event.
#[derive(Clone, Copy)]
pub enum Rule {
    /// This is the first guard of the call's row that holds.
    Refused(Guard),
    /// No guard of the call's row holds, and the caller does not wait.
    Served,
    /// No guard of the call's row holds, and the caller begins to wait.
    Waits(WaitCause),
    /// No guard of the call's row holds, and the caller would wait, but its timeout is 0.
    WouldWait(WaitCause),
    /// The work is done: its process has kept the core.
    WorkWasKept,
    /// The work is lost: its process has lost the core.
    WorkWasBroken,
    /// The turn is idle: the mode is IDLE.
    ModeIsIdle,
    /// The turn is idle: the mode is COLD_START, and no init step is due on the core.
    NoInitStepIsDue,
    /// The turn is idle: no eligible process is bound to the core.
    NobodyIsEligible,
    /// A wait ends or a deadline passes before the tick is over, so it stops there.
    TickStops,
    /// No wait ends and no deadline passes before the tick is over.
    TickGoesWhole,
}

/// Of a caller that has to wait; with a timeout of 0 it does not.
pub(crate) fn waiting_rule(cause: WaitCause, timeout: Timeout) -> Rule
    ensures { result ≡ waiting_rule cause timeout }
{
    match timeout {
        Timeout::Poll => Rule::WouldWait(cause),
        Timeout::Ticks(_) | Timeout::Infinite => Rule::Waits(cause),
    }
}

/// Of a service that is carried out at once if it can be.
pub(crate) fn at_once(can: bool, cause: WaitCause, timeout: Timeout) -> Rule
    ensures { result ≡ at_once can cause timeout }
{
    if can {
        Rule::Served
    } else {
        waiting_rule(cause, timeout)
    }
}

/// Of an idle turn in this mode.
pub(crate) fn idle_rule(mode: Mode) -> Rule
    ensures { result ≡ idle_rule mode }
{
    match mode {
        Mode::Idle => Rule::ModeIsIdle,
        Mode::ColdStart => Rule::NoInitStepIsDue,
        Mode::Normal => Rule::NobodyIsEligible,
    }
}
