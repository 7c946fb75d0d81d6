//! The services of process management that a process asks for itself.

ghost use Rattle.std.specs.Prelude.{◌≡◌, ◌<◌, ◌≤◌, [], length};
ghost use Rattle.apex_machine.specs.services.CallerServices as services;
ghost use Rattle.apex_machine.specs.services.Callers.{IsReady, IsReadyCaller};
ghost use Rattle.apex_machine.specs.processes.Dues.{HasTime};
ghost use Rattle.apex_types.specs.declared.limits.TheConstants.{MOST_OWNED, MOST_PROCESSES};
ghost use Rattle.apex_machine.specs.services.Rows.{Leaves};
ghost use Rattle.apex_machine.specs.processes.Stamps.{HasStamps, HasStampsFor};

use crate::objects::Objects;
use apex_store::{Store, due_after, halt};
use apex_types::{Caller, CallerCall, Notices, ProcessId, Reply, ReturnCode, Timeout};

/// SUSPEND_SELF by a process: INVALID_MODE if it is periodic or owns a mutex.
fn suspend_self<S: Store>(
    store: &mut S,
    objects: &Objects,
    process: ProcessId,
    timeout: Timeout,
) -> Reply
    requires ready { IsReady (S.roster store.old) process }
    requires stamps { HasStamps (S.roster store.old) }
    requires time { HasTime (S.roster store.old) }
    ensures { Leaves (services.suspend_self (S.roster store.old) objects.now process timeout)
        (S.roster store.new) objects.now result [] [] }
{
    let fields = store.record(process);
    if fields.attributes.period.is_some() || fields.owns_some() {
        return Reply::Code(ReturnCode::InvalidMode);
    }
    match timeout {
        Timeout::Poll => Reply::Code(ReturnCode::NoError),
        Timeout::Ticks(_) | Timeout::Infinite => {
            let due = due_after(store, timeout);
            store.suspend_self(process, due);
            Reply::Blocked
        }
    }
}

/// Carries out a service that the process asks for itself.
#[tactic(auto, using(apex_machine::proofs::Handovers::few_halted))]
fn serve_itself<S: Store>(
    store: &mut S,
    objects: &Objects,
    process: ProcessId,
    call: &CallerCall,
    notices: &mut Notices,
) -> Reply
    requires ready { IsReady (S.roster store.old) process }
    requires stamps { HasStampsFor MOST_OWNED (S.roster store.old) }
    requires time { HasTime (S.roster store.old) }
    requires room { length notices.old ≤ MOST_PROCESSES }
    ensures { Leaves (services.service_by (S.roster store.old) objects.now call.now process)
        (S.roster store.new) objects.now result notices.old notices.new }
{
    match call {
        CallerCall::StopSelf => {
            // Each mutex of the process wakes at most one other.
            let fields = store.record(process);
            let _few = fields.owned.as_slice();
            halt(store, process, notices);
            Reply::Gone
        }
        CallerCall::SuspendSelf(timeout) => suspend_self(store, objects, process, *timeout),
        CallerCall::GetMyId => Reply::Value(u64::from(process.number())),
        CallerCall::GetMyProcessorCoreId => {
            Reply::Value(u64::from(store.record(process).core.number()))
        }
    }
}

/// Carries out a service that the caller asks for itself. INVALID_MODE if no process calls.
pub(crate) fn serve<S: Store>(
    store: &mut S,
    objects: &Objects,
    caller: &Caller,
    call: &CallerCall,
    notices: &mut Notices,
) -> Reply
    requires caller { IsReadyCaller (S.roster store.old) caller.now }
    requires stamps { HasStampsFor MOST_OWNED (S.roster store.old) }
    requires time { HasTime (S.roster store.old) }
    requires room { length notices.old ≤ MOST_PROCESSES }
    ensures { Leaves (services.caller_service (S.roster store.old) objects.now caller.now call.now)
        (S.roster store.new) objects.now result notices.old notices.new }
{
    match caller {
        Caller::Process(process) => serve_itself(store, objects, *process, call, notices),
        Caller::Init | Caller::Nobody => Reply::Code(ReturnCode::InvalidMode),
    }
}
