//! The services, a room for each kind.

ghost use Rattle.std.specs.Prelude.{◌≡◌, ◌≤◌, length};
ghost use Rattle.apex_machine.specs.services.Callers.{IsReadyCaller};
ghost use Rattle.apex_machine.specs.Deeds.{service};
ghost use Rattle.apex_machine.specs.processes.Periods.{HasNoFutureRelease};
ghost use Rattle.apex_machine.specs.services.Rows.{Leaves};
ghost use Rattle.apex_machine.specs.services.Premises.{CanServe};
ghost use Rattle.apex_machine.specs.processes.Stamps.{HasOrderlyStarts};
ghost use Rattle.apex_laws.specs.Premises.{IsKnownTo};

use crate::objects::Objects;
use apex_store::{Store, serve_object};
use apex_types::{Call, Caller, Notices, Reply};

mod caller;
mod partition;
mod process;
mod time;

pub use process::ProcessObject;

/// Carries out a call of any service.
// Inlined at its one call, so that neither the call nor the reply is copied.
#[inline(always)]
pub fn serve<S: Store>(
    store: &mut S,
    objects: &mut Objects,
    caller: &Caller,
    call: &Call,
    notices: &mut Notices,
) -> Reply
    requires many { length objects.old.processes ≡ length (S.roster store.old).records }
    requires caller { IsReadyCaller (S.roster store.old) caller.now }
    requires known { IsKnownTo objects.old call.now }
    requires starts { HasOrderlyStarts (S.roster store.old) }
    requires can { CanServe (S.roster store.old) notices.old }
    requires releases { HasNoFutureRelease (S.roster store.old) }
    ensures { Leaves (service (S.roster store.old) objects.old caller.now call.now)
        (S.roster store.new) objects.new result notices.old notices.new }
{
    match call {
        Call::Partition(call) => partition::serve(store, objects, call, notices),
        Call::Process(call) => serve_object(store, &mut objects.processes, caller, call, notices),
        Call::Caller(call) => caller::serve(store, objects, caller, call, notices),
        Call::Time(call) => time::serve(store, objects, caller, call),
        Call::Semaphore(call) => {
            serve_object(store, &mut objects.semaphores, caller, call, notices)
        }
        Call::Buffer(call) => serve_object(store, &mut objects.buffers, caller, call, notices),
        Call::Blackboard(call) => {
            serve_object(store, &mut objects.blackboards, caller, call, notices)
        }
        Call::EventFlag(call) => serve_object(
            store,
            &mut objects.event_flags,
            caller,
            call,
            notices,
        ),
        Call::Mutex(call) => serve_object(store, &mut objects.mutexes, caller, call, notices),
        Call::Work(_) => Reply::Begun,
    }
}
