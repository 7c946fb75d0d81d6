//! The waiters of a queue, in the queue's order.
ghost use Rattle.std.specs.Prelude.{◌≡◌, ◌<◌, ◌≤◌, [], ◌∷◌, ◌++◌, length};
ghost use Rattle.apex_types.specs.declared.limits.TheConstants.{MOST_PROCESSES};
ghost use Rattle.apex_machine.specs.text.Listing.{waiters};

use apex_machine::Queue;
use apex_store::Store;
use apex_types::{MOST_PROCESSES, ProcessId};
use std::marker::Model;

/// Processes one behind the other, [`MOST_PROCESSES`] at the most.
#[derive(Drop)]
pub struct Waiters {
    processes: [ProcessId; MOST_PROCESSES],
    count: usize,
}

impl Model for Waiters {
    ghost use Rattle.std.specs.Prelude.{◌≡◌, ◌≤◌, ℕ, List, length, take};
    ghost use Rattle.apex_types.specs.declared.limits.TheConstants.{MOST_PROCESSES};

    ghost Value = { List ℕ };

    ghost view = { λ w. take w.count w.processes };

    ghost invariant = { λ w. (w.count ≤ MOST_PROCESSES) × (length w.processes ≡ MOST_PROCESSES) };
}

impl Waiters {
    /// No process.
    pub(crate) fn new() -> Waiters
        ensures { result ≡ [] }
    {
        Waiters {
            processes: [ProcessId::at(0); MOST_PROCESSES],
            count: 0,
        }
    }

    fn push(&mut self, process: ProcessId)
        requires { length self.old < MOST_PROCESSES }
        ensures { self.new ≡ self.old ++ process ∷ [] }
    {
        self.processes[self.count] = process;
        self.count += 1;
    }

    /// The processes, in their order.
    pub fn as_slice(&self) -> &[ProcessId]
        ensures value { result.now ≡ self.now }
        ensures few_waiters { length result.now ≤ MOST_PROCESSES }
    {
        &self.processes[..self.count]
    }
}

/// The waiters of the queue, from the first one on.
#[tactic(auto, unfolding(apex_machine::specs::text::Listing::waiters))]
pub fn waiters_in<S: Store>(store: &S, queue: &Queue) -> Waiters
    requires { length (S.roster store.now).records ≤ MOST_PROCESSES }
    ensures { result ≡ waiters (S.roster store.now) queue.now }
{
    let mut waiting = Waiters::new();
    let mut next = store.first(*queue);
    for round in 0..store.process_count() {
        match next {
            Some(process) => {
                waiting.push(process);
                next = store.next_after(*queue, process);
            }
            None => return waiting,
        }
    }
    waiting
}
