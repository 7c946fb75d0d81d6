//! The services of time management.

ghost use Rattle.std.specs.Prelude.{◌≡◌, ◌≤◌, []};
ghost use Rattle.apex_machine.specs.services.Callers.{IsReady, IsReadyCaller};
ghost use Rattle.apex_machine.specs.processes.Dues.{HasTime};
ghost use Rattle.apex_types.specs.Limits.{latest};
ghost use Rattle.apex_machine.specs.processes.Periods.{HasNoFutureRelease, is_beyond};
ghost use Rattle.apex_machine.specs.services.Rows.{Leaves};
ghost use Rattle.apex_machine.specs.processes.Stamps.{HasStamps};
ghost use Rattle.apex_machine.specs.services.TimeServices as services;
ghost use Rattle.apex_types.specs.declared.calls.TimeCall.TheVariants.{PeriodicWait, Replenish};

use crate::objects::Objects;
use apex_machine::Wait;
use apex_store::{Store, due_after, is_owner, release_after};
use apex_types::{Caller, ProcessId, Reply, ReturnCode, Span, TimeCall, Timeout};

/// TIMED_WAIT by a process: INVALID_PARAM if the time is infinite.
#[tactic(auto, using(apex_machine::proofs::Starts::eligible_may_wait))]
fn timed_wait<S: Store>(
    store: &mut S,
    objects: &Objects,
    process: ProcessId,
    timeout: Timeout,
) -> Reply
    requires ready { IsReady (S.roster store.old) process }
    requires stamps { HasStamps (S.roster store.old) }
    requires time { HasTime (S.roster store.old) }
    ensures { Leaves (services.timed_wait (S.roster store.old) objects.now timeout process)
        (S.roster store.new) objects.now result [] [] }
{
    match timeout {
        Timeout::Poll => {
            store.place_newest(process);
            Reply::Code(ReturnCode::NoError)
        }
        Timeout::Ticks(_) => {
            let due = due_after(store, timeout);
            store.block(process, Wait::Time, due);
            Reply::Blocked
        }
        Timeout::Infinite => Reply::Code(ReturnCode::InvalidParam),
    }
}

/// TIMED_WAIT: INVALID_MODE if the caller owns a mutex or no process calls.
fn serve_timed_wait<S: Store>(
    store: &mut S,
    objects: &Objects,
    caller: &Caller,
    timeout: Timeout,
) -> Reply
    requires caller { IsReadyCaller (S.roster store.old) caller.now }
    requires stamps { HasStamps (S.roster store.old) }
    requires time { HasTime (S.roster store.old) }
    ensures { Leaves (services.timed_wait_service
        (S.roster store.old) objects.now caller.now timeout)
        (S.roster store.new) objects.now result [] [] }
{
    if is_owner(store, caller) {
        return Reply::Code(ReturnCode::InvalidMode);
    }
    match caller {
        Caller::Process(process) => timed_wait(store, objects, *process, timeout),
        Caller::Init | Caller::Nobody => Reply::Code(ReturnCode::InvalidMode),
    }
}

/// PERIODIC_WAIT by a process: it waits for its next release, and has no deadline until then.
/// INVALID_MODE if it is aperiodic or owns a mutex.
#[tactic(auto, using(apex_machine::proofs::Starts::eligible_may_wait))]
fn periodic_wait<S: Store>(store: &mut S, objects: &Objects, process: ProcessId) -> Reply
    requires ready { IsReady (S.roster store.old) process }
    requires stamps { HasStamps (S.roster store.old) }
    requires time { HasTime (S.roster store.old) }
    requires releases { HasNoFutureRelease (S.roster store.old) }
    ensures { Leaves (services.periodic_wait (S.roster store.old) objects.now process)
        (S.roster store.new) objects.now result [] [] }
{
    let fields = store.record(process);
    if fields.attributes.period.is_none() || fields.owns_some() {
        return Reply::Code(ReturnCode::InvalidMode);
    }
    let due = release_after(store, process);
    store.set_deadline(process, None);
    store.block(process, Wait::Period, due);
    Reply::Blocked
}

/// The process is periodic, and the instant, in ticks, is above the end of its period.
fn is_beyond(release: u64, period: Option<Span>, instant: u64) -> bool
    requires { release ≤ latest }
    ensures { result ≡ is_beyond release period instant }
{
    match period {
        Some(period) => instant > release + u64::from(period.ticks()),
        None => false,
    }
}

/// REPLENISH by a process: its deadline is the budget, in ticks, from now. NO_ACTION if its
/// capacity is infinite, INVALID_MODE if the deadline would be above the end of its period.
fn replenish<S: Store>(store: &mut S, objects: &Objects, process: ProcessId, budget: Span) -> Reply
    requires ready { IsReady (S.roster store.old) process }
    requires time { HasTime (S.roster store.old) }
    requires releases { HasNoFutureRelease (S.roster store.old) }
    ensures { Leaves (services.replenish (S.roster store.old) objects.now budget process)
        (S.roster store.new) objects.now result [] [] }
{
    let fields = store.record(process);
    if fields.attributes.capacity.is_none() {
        return Reply::Code(ReturnCode::NoAction);
    }
    let deadline = store.now() + u64::from(budget.ticks());
    if is_beyond(fields.release, fields.attributes.period, deadline) {
        return Reply::Code(ReturnCode::InvalidMode);
    }
    store.set_deadline(process, Some(deadline));
    Reply::Code(ReturnCode::NoError)
}

/// PERIODIC_WAIT: INVALID_MODE if no process calls.
fn serve_periodic_wait<S: Store>(store: &mut S, objects: &Objects, caller: &Caller) -> Reply
    requires caller { IsReadyCaller (S.roster store.old) caller.now }
    requires stamps { HasStamps (S.roster store.old) }
    requires time { HasTime (S.roster store.old) }
    requires releases { HasNoFutureRelease (S.roster store.old) }
    ensures { Leaves (services.time_service
        (S.roster store.old) objects.now caller.now PeriodicWait)
        (S.roster store.new) objects.now result [] [] }
{
    match caller {
        Caller::Process(process) => periodic_wait(store, objects, *process),
        Caller::Init | Caller::Nobody => Reply::Code(ReturnCode::InvalidMode),
    }
}

/// REPLENISH: INVALID_MODE if no process calls.
fn serve_replenish<S: Store>(
    store: &mut S,
    objects: &Objects,
    caller: &Caller,
    budget: Span,
) -> Reply
    requires caller { IsReadyCaller (S.roster store.old) caller.now }
    requires time { HasTime (S.roster store.old) }
    requires releases { HasNoFutureRelease (S.roster store.old) }
    ensures { Leaves (services.time_service (S.roster store.old) objects.now caller.now
        (Replenish budget))
        (S.roster store.new) objects.now result [] [] }
{
    match caller {
        Caller::Process(process) => replenish(store, objects, *process, budget),
        Caller::Init | Caller::Nobody => Reply::Code(ReturnCode::InvalidMode),
    }
}

/// Carries out a call of a service of time management.
pub(crate) fn serve<S: Store>(
    store: &mut S,
    objects: &Objects,
    caller: &Caller,
    call: &TimeCall,
) -> Reply
    requires caller { IsReadyCaller (S.roster store.old) caller.now }
    requires stamps { HasStamps (S.roster store.old) }
    requires time { HasTime (S.roster store.old) }
    requires releases { HasNoFutureRelease (S.roster store.old) }
    ensures { Leaves (services.time_service (S.roster store.old) objects.now caller.now call.now)
        (S.roster store.new) objects.now result [] [] }
{
    match call {
        TimeCall::TimedWait(timeout) => serve_timed_wait(store, objects, caller, *timeout),
        TimeCall::PeriodicWait => serve_periodic_wait(store, objects, caller),
        TimeCall::Replenish(budget) => serve_replenish(store, objects, caller, *budget),
        TimeCall::GetTime => Reply::Value(store.now()),
    }
}
