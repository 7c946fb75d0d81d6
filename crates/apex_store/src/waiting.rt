//! The beginning of a wait of the calling process.
ghost use Rattle.std.specs.Prelude.{◌≡◌, [], length};
ghost use Rattle.apex_machine.specs.services.Callers.{IsReady};
ghost use Rattle.apex_machine.specs.processes.Dues.{HasTime};
ghost use Rattle.apex_machine.specs.services.Rows.{Leaves};
ghost use Rattle.apex_machine.specs.processes.Stamps.{HasManyStamps};
ghost use Rattle.apex_machine.specs.services.Waiting.{wait_for};

use crate::dues::due_after;
use crate::store::Store;
use apex_machine::Wait;
use apex_types::{ProcessId, Reply, ReturnCode, Timeout};

/// The process, which calls, waits for the object until the timeout, in ticks, is over.
/// NOT_AVAILABLE if the timeout is 0.
#[tactic(auto, using(apex_machine::proofs::Starts::eligible_may_wait))]
pub fn wait_for<S: Store, O>(
    store: &mut S,
    object: &O,
    process: ProcessId,
    wait: Wait,
    timeout: Timeout,
) -> Reply
    requires ready { IsReady (S.roster store.old) process }
    requires stamps { HasManyStamps (S.roster store.old) }
    requires time { HasTime (S.roster store.old) }
    ensures { Leaves (wait_for (S.roster store.old) object.now process wait timeout)
        (S.roster store.new) object.now result [] [] }
{
    match timeout {
        Timeout::Poll => Reply::Code(ReturnCode::NotAvailable),
        Timeout::Ticks(_) | Timeout::Infinite => {
            let due = due_after(store, timeout);
            store.block(process, wait, due);
            Reply::Blocked
        }
    }
}
