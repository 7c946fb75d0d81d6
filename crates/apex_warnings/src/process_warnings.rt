//! The warnings about a process.
ghost use Rattle.std.specs.Prelude.{◌≡◌, ◌<◌, ◌≤◌, length};
ghost use Rattle.apex_types.specs.declared.limits.TheConstants.{MOST_SPAN};
ghost use Rattle.apex_warnings.specs.Jobs.{done_after, fixed_capacity, has_much_work, is_above, job_limit, work_fills};
ghost use Rattle.apex_warnings.specs.ProcessWarnings.{process_warned};

use crate::acts::Act;
use crate::steps::{StepCall, TableSteps};
use apex_machine::Attributes;
use apex_types::{Call, ProcessId, Span, TimeCall};

/// What a process can hardly be meant to be (this profile).
#[derive(Clone, Copy)]
pub enum ProcessWarning {
    /// Its script is empty.
    EmptyScript,
    /// No step of the init list or of another script starts it with a delay that it may have.
    NotStarted,
    /// Its time capacity is longer than its period.
    CapacityAbovePeriod,
    /// It is periodic, and its script loops without PERIODIC_WAIT.
    NoPeriodicWait,
    /// It is periodic, and the work of a job has no fewer units than its period or its time capacity
    /// has ticks. The time capacity does not count if the script has REPLENISH.
    MuchWork,
}

/// Both spans are finite, and the first one is longer.
fn is_above(first: Option<Span>, second: Option<Span>) -> bool
    ensures { result ≡ is_above first second }
{
    match (first, second) {
        (Some(first), Some(second)) => first.ticks() > second.ticks(),
        _ => false,
    }
}

/// The ticks in which a job of a periodic process has to end: those of its period, or of its time
/// capacity if that is shorter.
fn job_limit(period: Span, capacity: Option<Span>) -> u32
    ensures { result ≡ job_limit period capacity }
{
    match capacity {
        Some(capacity) => period.ticks().min(capacity.ticks()),
        None => period.ticks(),
    }
}

/// The units of work of a job after the call, by those before it.
fn done_after(done: u64, call: &StepCall) -> u64
    requires { done ≤ MOST_SPAN }
    ensures { result ≡ done_after done call.now }
{
    match call.call {
        Call::Work(units) => done + u64::from(units.ticks()),
        Call::Time(TimeCall::PeriodicWait) => 0,
        _ => done,
    }
}

/// The units of work between two PERIODIC_WAITs come to the limit or above it.
fn work_fills(limit: u32, calls: &[StepCall]) -> bool
    ensures { result ≡ work_fills limit 0 calls.now }
{
    let mut done: u64 = 0;
    for call in calls {
        done = done_after(done, call);
        if done >= u64::from(limit) {
            return true;
        }
    }
    false
}

/// The time capacity by which the jobs of these calls have to end.
fn fixed_capacity(capacity: Option<Span>, calls: &[StepCall]) -> Option<Span>
    ensures { result ≡ fixed_capacity capacity calls.now }
{
    if Act::MoveDeadline.is_among(calls) {
        None
    } else {
        capacity
    }
}

/// The process is periodic, and the work of a job takes all of the job's ticks.
fn has_much_work(attributes: Attributes, calls: &[StepCall]) -> bool
    ensures { result ≡ has_much_work attributes calls.now }
{
    match attributes.period {
        Some(period) => {
            let capacity = fixed_capacity(attributes.capacity, calls);
            work_fills(job_limit(period, capacity), calls)
        }
        None => false,
    }
}

impl ProcessWarning {
    /// The warning is about this process.
    pub(crate) fn is_about(self, steps: &TableSteps, process: ProcessId) -> bool
        requires { process < length steps.now.processes }
        ensures { result ≡ process_warned self steps.now process }
    {
        let config = steps.table().process(process);
        let attributes = config.attributes();
        let calls = steps.script(process);
        match self {
            ProcessWarning::EmptyScript => calls.is_empty(),
            ProcessWarning::NotStarted => {
                !steps.have_outside(process, &Act::Start(process, attributes.period))
            }
            ProcessWarning::CapacityAbovePeriod => {
                is_above(attributes.capacity, attributes.period)
            }
            ProcessWarning::NoPeriodicWait => {
                attributes.period.is_some() && config.loops() && !Act::WaitForPeriod.is_among(calls)
            }
            ProcessWarning::MuchWork => has_much_work(attributes, calls),
        }
    }
}
