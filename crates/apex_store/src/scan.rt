//! The one search for the process that comes first.
ghost use Rattle.std.specs.Prelude.{◌≡◌, ◌<◌, ◌≤◌, Bool, length, position, IfSome};
ghost use Rattle.apex_types.specs.declared.limits.TheConstants.{MOST_PROCESSES};
ghost use Rattle.std.specs.Cmp.{IsStrictWeakOrder};
ghost use Rattle.apex_machine.specs.declared.records.Record.{Record};
ghost use Rattle.apex_machine.specs.processes.Choice.{place_of_least};
ghost use Rattle.apex_machine.specs.processes.Running.{is_before, runs_on};
ghost use Rattle.apex_machine.specs.processes.Waiters.{waits_before, waits_behind, waits_in};
ghost use Rattle.apex_machine.proofs.Orders.{before_strict, waits_strict};

use crate::orders;
use apex_machine::{Queue, Record};
use apex_types::{CoreId, Discipline, Mode, ProcessId};

/// The processes that a scan looks at, and the order of any two of them.
pub trait Order {
    ghost passes: { Self → Record → Bool };

    ghost precedes: { Self → Record → Record → Bool };

    /// Whether the scan looks at the process of this record.
    fn passes(&self, fields: &Record) -> bool
        ensures { result ≡ passes self.now fields.now };

    /// Whether the process of the first record comes before that of the second one.
    fn precedes(&self, first: &Record, second: &Record) -> bool
        ensures { result ≡ precedes self.now first.now second.now };

    ghost ranks: { (s : Self) → IsStrictWeakOrder (precedes s) };
}

/// The processes that a core may run, the most urgent first.
#[derive(Drop)]
pub struct Runnable {
    /// The partition's mode: only in NORMAL may a process run.
    pub mode: Mode,
    /// The core to which the processes are bound.
    pub core: CoreId,
}

impl Order for Runnable {
    ghost passes = { λ s. runs_on s.mode s.core };

    ghost precedes = { λ s. is_before };

    ghost ranks = { λ s. before_strict };

    fn passes(&self, fields: &Record) -> bool {
        orders::runs_on(self.mode, self.core, fields)
    }

    fn precedes(&self, first: &Record, second: &Record) -> bool {
        orders::is_before(first, second)
    }
}

/// The processes that wait in a queue of this discipline, in the queue's order.
#[derive(Drop)]
pub struct Waiting {
    /// The order of the queue.
    pub discipline: Discipline,
    /// The queue in which they wait.
    pub queue: Queue,
}

impl Order for Waiting {
    ghost passes = { λ s. waits_in s.queue };

    ghost precedes = { λ s. waits_before s.discipline };

    ghost ranks = { λ s. waits_strict s.discipline };

    fn passes(&self, fields: &Record) -> bool {
        orders::waits_in(self.queue, fields)
    }

    fn precedes(&self, first: &Record, second: &Record) -> bool {
        orders::waits_before(self.discipline, first, second)
    }
}

/// The processes that wait in a queue of this discipline behind one process, in the queue's order.
#[derive(Drop)]
pub struct Behind {
    /// The order of the queue.
    pub discipline: Discipline,
    /// The queue in which they wait.
    pub queue: Queue,
    /// The record of the process behind which they are.
    pub ahead: Record,
}

impl Order for Behind {
    ghost passes = { λ s. waits_behind s.discipline s.queue s.ahead };

    ghost precedes = { λ s. waits_before s.discipline };

    ghost ranks = { λ s. waits_strict s.discipline };

    fn passes(&self, fields: &Record) -> bool {
        orders::waits_behind(self.discipline, self.queue, &self.ahead, fields)
    }

    fn precedes(&self, first: &Record, second: &Record) -> bool {
        orders::waits_before(self.discipline, first, second)
    }
}

/// The place of the first record that the order looks at.
fn place_passing<O: Order>(order: &O, records: &[Record]) -> Option<usize>
    ensures value { result ≡ position (O.passes order.now) records.now }
    ensures known { IfSome result (λ p. p < length records.now) }
{
    records.iter().position(|fields| order.passes(fields))
}

/// The first of those that the order looks at, by a scan of all records from the first one on.
// Inlined, as the call that scans is.
#[inline(always)]
#[tactic(auto, using(crate::proofs::FirstPassing::none_is_least))]
pub fn first_of<O: Order>(order: &O, records: &[Record]) -> Option<ProcessId>
    requires { length records.now ≤ MOST_PROCESSES }
    ensures value { result ≡ place_of_least (O.passes order.now)
        (O.precedes order.now) records.now }
    ensures known { IfSome result (λ p. p < length records.now) }
{
    let mut first = place_passing(order, records)?;
    for place in first + 1..records.len() {
        let fields = &records[place];
        if order.passes(fields) && order.precedes(fields, &records[first]) {
            first = place;
        }
    }
    Some(ProcessId::at(first as u8))
}
