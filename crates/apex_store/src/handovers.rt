//! The hand-over of the mutexes that their owner has left to their first waiters.

ghost use Rattle.std.specs.Prelude.{◌≡◌, ◌+◌, ◌<◌, ◌≤◌, length};
ghost use Rattle.apex_machine.specs.services.Handovers.{halted, hand_on, hand_over};
ghost use Rattle.apex_machine.specs.services.InTurn.{Makes};
ghost use Rattle.apex_types.specs.declared.limits.TheConstants.{MOST_NOTICES, MOST_OWNED};
ghost use Rattle.apex_machine.specs.processes.Stamps.{HasStamps, HasStampsFor};

use crate::store::Store;
use apex_machine::{Holding, Queue};
use apex_types::{Notice, Notices, ProcessId, ReturnCode};

/// The mutex of this holding goes to its first waiter, which owns it at depth 1 and is woken with
/// NO_ERROR.
#[tactic(auto, using(apex_machine::proofs::Starts::first_waits))]
pub fn hand_over<S: Store>(store: &mut S, holding: &Holding, notices: &mut Notices)
    requires stamps { HasStamps (S.roster store.old) }
    requires room { length notices.old + length (hand_over (S.roster store.old) holding.now).notices
        ≤ MOST_NOTICES }
    ensures { Makes (hand_over (S.roster store.old) holding.now)
        (S.roster store.new) notices.old notices.new }
{
    if let Some(waiter) = store.first(Queue::Mutex(holding.mutex)) {
        store.inherit(
            waiter,
            Holding {
                depth: 1,
                ..*holding
            },
        );
        notices.push(Notice::Woken(waiter, ReturnCode::NoError));
    }
}

/// Mutexes that were held so go on, one after the other, each to its first waiter.
fn hand_on<S: Store>(store: &mut S, held: &[Holding], notices: &mut Notices)
    requires stamps { HasStampsFor (length held.now) (S.roster store.old) }
    requires room { length notices.old + length (hand_on held.now (S.roster store.old)).notices
        ≤ MOST_NOTICES }
    ensures { Makes (hand_on held.now (S.roster store.old))
        (S.roster store.new) notices.old notices.new }
{
    if let [holding, others @ ..] = held {
        hand_over(store, holding, notices);
        hand_on(store, others, notices);
    }
}

/// Stops the process; the mutexes that it owned go on in order of their numbers.
pub fn halt<S: Store>(store: &mut S, process: ProcessId, notices: &mut Notices)
    requires known { process < length (S.roster store.old).records }
    requires stamps { HasStampsFor MOST_OWNED (S.roster store.old) }
    requires room { length notices.old + length (halted (S.roster store.old) process).notices
        ≤ MOST_NOTICES }
    ensures { Makes (halted (S.roster store.old) process)
        (S.roster store.new) notices.old notices.new }
{
    let owned = store.record(process).owned.in_order();
    store.stop(process);
    hand_on(store, owned.as_slice(), notices);
}
