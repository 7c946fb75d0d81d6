//! The warnings about a step.
ghost use Rattle.std.specs.Prelude.{◌≡◌, ◌<◌, ◌+◌, length, drop};
ghost use Rattle.apex_warnings.specs.Calls.{init_calls, script};
ghost use Rattle.apex_warnings.specs.StepWarnings.{ceiling_is_low, is_unanswered, is_unreleased, init_step_warned, message_is_refused, is_periodic, step_warned, suspends_periodic};

use crate::acts::{Act, is_taken};
use crate::entries::{attributes, blackboard_length, buffer_length, ceiling, initial};
use crate::owning::{is_released, waits_as_owner};
use crate::steps::{StepCall, TableSteps};
use apex_configs::Table;
use apex_types::{
    BlackboardService, BufferService, Call, CallerCall, EventFlagService, MutexService, ObjectCall,
    ProcessId, ProcessService, SemaphoreService, TimeCall,
};

/// What a step can hardly be meant to do (this profile).
#[derive(Clone, Copy)]
pub enum StepWarning {
    /// Its message is empty, or longer than those of its buffer or blackboard.
    MessageRefused,
    /// PERIODIC_WAIT of an aperiodic process.
    AperiodicWait,
    /// SUSPEND or RESUME of a periodic process, or its SUSPEND_SELF.
    SuspendsPeriodic,
    /// ACQUIRE_MUTEX of a mutex whose ceiling is below the process's priority.
    LowCeiling,
    /// ACQUIRE_MUTEX without its RELEASE_MUTEX in the rest of the script.
    NotReleased,
    /// A call that may wait, of a process that owns a mutex by then.
    WaitsAsOwner,
    /// A wait that no step ends.
    NeverAnswered,
}

/// The call gives its buffer or its blackboard a message that is empty or too long.
fn message_is_refused(table: &Table, call: Call) -> bool
    ensures { result ≡ message_is_refused table.now call }
{
    match call {
        Call::Buffer(ObjectCall::KindService(buffer, BufferService::Send(message, _))) => {
            !is_taken(message, buffer_length(table, buffer))
        }
        Call::Blackboard(
            ObjectCall::KindService(blackboard, BlackboardService::Display(message)),
        ) => !is_taken(message, blackboard_length(table, blackboard)),
        _ => false,
    }
}

fn is_periodic(table: &Table, process: ProcessId) -> bool
    ensures { result ≡ is_periodic table.now process }
{
    attributes(table, process).period.is_some()
}

/// The call suspends a periodic process, or resumes it.
fn suspends_periodic(table: &Table, process: ProcessId, call: Call) -> bool
    ensures { result ≡ suspends_periodic table.now process call }
{
    match call {
        Call::Process(
            ObjectCall::KindService(other, ProcessService::Suspend | ProcessService::Resume),
        ) => is_periodic(table, other),
        Call::Caller(CallerCall::SuspendSelf(_)) => is_periodic(table, process),
        _ => false,
    }
}

/// The process acquires a mutex whose ceiling is below its priority, which no step lowers so far.
fn ceiling_is_low(steps: &TableSteps, process: ProcessId, call: Call) -> bool
    ensures { result ≡ ceiling_is_low steps.now process call }
{
    match call {
        Call::Mutex(ObjectCall::KindService(mutex, MutexService::Acquire(_))) => {
            let ceiling = ceiling(steps.table(), mutex);
            ceiling < attributes(steps.table(), process).priority
                && !steps.have(&Act::Lower(process, ceiling))
        }
        _ => false,
    }
}

/// The call acquires a mutex, and the following calls do not release it.
fn is_unreleased(call: Call, rest: &[StepCall]) -> bool
    ensures { result ≡ is_unreleased call rest.now }
{
    match call {
        Call::Mutex(ObjectCall::KindService(mutex, MutexService::Acquire(_))) => {
            !is_released(mutex, rest)
        }
        _ => false,
    }
}

/// The call waits for what no step gives.
fn is_unanswered(steps: &TableSteps, call: Call) -> bool
    ensures { result ≡ is_unanswered steps.now call }
{
    let table = steps.table();
    match call {
        Call::Semaphore(ObjectCall::KindService(semaphore, SemaphoreService::Wait(_))) => {
            initial(table, semaphore) == 0 && !steps.have(&Act::Signal(semaphore))
        }
        Call::Buffer(ObjectCall::KindService(buffer, BufferService::Receive(_))) => {
            !steps.have(&Act::Send(buffer, buffer_length(table, buffer)))
        }
        Call::Blackboard(ObjectCall::KindService(blackboard, BlackboardService::Read(_))) => {
            !steps.have(&Act::Display(blackboard, blackboard_length(table, blackboard)))
        }
        Call::EventFlag(ObjectCall::KindService(event_flag, EventFlagService::Wait(_))) => {
            !steps.have(&Act::Set(event_flag))
        }
        _ => false,
    }
}

impl StepWarning {
    /// The warning is about this call of the init list.
    pub(crate) fn is_about_init(self, table: &Table, call: Call) -> bool
        ensures { result ≡ init_step_warned self table.now call }
    {
        self == StepWarning::MessageRefused && message_is_refused(table, call)
    }

    /// The warning is about the step at this place of the process's script, with this call.
    pub(crate) fn is_about(
        self,
        steps: &TableSteps,
        process: ProcessId,
        place: usize,
        call: Call,
    ) -> bool
        requires own { process < length steps.now.processes }
        requires within { place < length (script steps.now process) }
        ensures { result ≡ step_warned self steps.now process place call }
    {
        let table = steps.table();
        match self {
            StepWarning::MessageRefused => message_is_refused(table, call),
            StepWarning::AperiodicWait => {
                Act::WaitForPeriod.is_done_by(call) && !is_periodic(table, process)
            }
            StepWarning::SuspendsPeriodic => suspends_periodic(table, process, call),
            StepWarning::LowCeiling => ceiling_is_low(steps, process, call),
            StepWarning::NotReleased => is_unreleased(call, &steps.script(process)[place + 1..]),
            StepWarning::WaitsAsOwner => waits_as_owner(steps, process, place, call),
            StepWarning::NeverAnswered => is_unanswered(steps, call),
        }
    }
}
