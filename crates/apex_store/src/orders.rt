//! Which of two processes comes first, and which processes are looked at.
ghost use Rattle.std.specs.Prelude.{◌≡◌};
ghost use Rattle.apex_machine.specs.processes.Running.{is_before, is_older, is_process, runs_on};
ghost use Rattle.apex_machine.specs.processes.Dues.{is_due_at, is_missed_at};
ghost use Rattle.apex_machine.specs.processes.Waiters.{waits_before, waits_behind, waits_in};

use apex_machine::{Queue, Record, Wait};
use apex_types::{CoreId, Discipline, Mode, ProcessId};

/// The process is eligible and bound to the core.
#[tactic(auto, unfolding(apex_machine::specs::processes::Running::runs_on))]
pub fn runs_on(mode: Mode, core: CoreId, fields: &Record) -> bool
    ensures { result ≡ runs_on mode core fields.now }
{
    // Most processes wait, so that is looked at first.
    fields.core == core && fields.wait.is_none() && fields.is_eligible(mode)
}

/// The process is this one.
pub fn is_process(process: ProcessId, other: Option<ProcessId>) -> bool
    ensures { result ≡ is_process process other }
{
    match other {
        Some(other) => process == other,
        None => false,
    }
}

/// The first has been in its queue for longer.
pub fn is_older(first: &Record, second: &Record) -> bool
    ensures { result ≡ is_older first.now second.now }
{
    first.since < second.since
}

/// As [`is_before`], by the ceilings of the mutexes that the two own.
// Out of line, since few processes own a mutex: so the loop of a scan has no loop in it.
#[inline(never)]
fn is_raised_before(first: &Record, second: &Record) -> bool
    ensures { result ≡ is_before first.now second.now }
{
    let (mine, other) = (first.current_priority(), second.current_priority());
    other < mine || (mine == other && is_older(first, second))
}

/// The first has the greater current priority, or an equal one and has been ready for longer.
pub fn is_before(first: &Record, second: &Record) -> bool
    ensures { result ≡ is_before first.now second.now }
{
    if first.owns_some() || second.owns_some() {
        is_raised_before(first, second)
    } else {
        second.base < first.base || (first.base == second.base && is_older(first, second))
    }
}

/// The process waits in the queue.
#[tactic(auto, unfolding(apex_machine::specs::processes::Waiters::waits_in))]
pub fn waits_in(queue: Queue, fields: &Record) -> bool
    ensures { result ≡ waits_in queue fields.now }
{
    let Some(wait) = &fields.wait else {
        return false;
    };
    match queue {
        Queue::Normal => matches!(wait, Wait::Normal(_)),
        Queue::Semaphore(semaphore) => *wait == Wait::Semaphore(semaphore),
        Queue::Buffer(buffer) => match wait {
            Wait::Receive(other) | Wait::Send(other, _) => *other == buffer,
            _ => false,
        },
        Queue::Blackboard(blackboard) => *wait == Wait::Blackboard(blackboard),
        Queue::EventFlag(event_flag) => *wait == Wait::EventFlag(event_flag),
        Queue::Mutex(mutex) => *wait == Wait::Mutex(mutex),
    }
}

/// The first comes before the second in a queue of this discipline.
pub fn waits_before(discipline: Discipline, first: &Record, second: &Record) -> bool
    ensures { result ≡ waits_before discipline first.now second.now }
{
    match discipline {
        Discipline::Fifo => is_older(first, second),
        Discipline::Priority => is_before(first, second),
    }
}

/// The process waits in the queue of this discipline, behind that one.
#[tactic(auto, unfolding(apex_machine::specs::processes::Waiters::waits_behind))]
pub fn waits_behind(discipline: Discipline, queue: Queue, ahead: &Record, fields: &Record) -> bool
    ensures { result ≡ waits_behind discipline queue ahead.now fields.now }
{
    waits_in(queue, fields) && waits_before(discipline, ahead, fields)
}

/// The process's due is this instant, in ticks.
#[tactic(auto, unfolding(apex_machine::specs::processes::Dues::is_due_at))]
pub fn is_due_at(instant: u64, fields: &Record) -> bool
    ensures { result ≡ is_due_at instant fields.now }
{
    match fields.due {
        Some(due) => instant == due,
        None => false,
    }
}

/// The process's deadline is this instant, in ticks.
#[tactic(auto, unfolding(apex_machine::specs::processes::Dues::is_missed_at))]
pub fn is_missed_at(instant: u64, fields: &Record) -> bool
    ensures { result ≡ is_missed_at instant fields.now }
{
    match fields.deadline {
        Some(deadline) => instant == deadline,
        None => false,
    }
}
