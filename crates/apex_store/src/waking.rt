//! The end of a wait whose condition holds.

ghost use Rattle.std.specs.Prelude.{◌≡◌, ◌<◌, ◌≤◌, length};
ghost use Rattle.apex_types.specs.declared.limits.TheConstants.{MOST_NOTICES, MOST_PROCESSES};
ghost use Rattle.apex_machine.specs.services.InTurn.{Makes};
ghost use Rattle.apex_types.specs.Messages.{is_unfit};
ghost use Rattle.apex_machine.specs.processes.Stamps.{HasManyStamps, HasStamps};
ghost use Rattle.apex_machine.specs.services.Waking.{granted, grant_all};

use crate::store::Store;
use apex_machine::Queue;
use apex_types::{Message, Notice, Notices, ProcessId, ReturnCode};

/// The message is empty, or longer than this in bytes.
pub fn is_unfit(longest: u8, message: &Message) -> bool
    ensures { result ≡ is_unfit longest message.now }
{
    message.length == 0 || message.length > longest
}

/// The process has what it waited for: it gets the message, if there is one, and is woken with
/// NO_ERROR.
pub fn grant<S: Store>(
    store: &mut S,
    process: ProcessId,
    message: &Option<Message>,
    notices: &mut Notices,
)
    requires known { process < length (S.roster store.old).records }
    requires stamps { HasStamps (S.roster store.old) }
    requires room { length notices.old < MOST_NOTICES }
    ensures { Makes (granted message.now (S.roster store.old) process)
        (S.roster store.new) notices.old notices.new }
{
    if let Some(message) = message {
        store.receive(process, *message);
    }
    store.unblock(process);
    notices.push(Notice::Woken(process, ReturnCode::NoError));
}

/// All processes that wait in the queue have what they waited for, in the queue's order.
#[tactic(auto, unfolding(apex_machine::specs::services::Waking::grant_all))]
pub fn grant_all<S: Store>(
    store: &mut S,
    queue: &Queue,
    message: &Option<Message>,
    notices: &mut Notices,
)
    requires stamps { HasManyStamps (S.roster store.old) }
    requires room { length notices.old ≤ MOST_PROCESSES }
    ensures { Makes (grant_all queue.now message.now (S.roster store.old))
        (S.roster store.new) notices.old notices.new }
{
    for round in 0..store.process_count() {
        match store.first(*queue) {
            Some(process) => grant(store, process, message, notices),
            None => return,
        }
    }
}
