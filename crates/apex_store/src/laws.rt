//! The meaning of the choices of every store.
ghost use Rattle.apex_machine.specs.processes.Distinct.{HasDistinctStamps, IsStamped};
ghost use Rattle.apex_machine.specs.processes.Roster.{opening_roster, record_at};
ghost use Rattle.apex_store.specs.Laws as laws;

use crate::store::Store;
use apex_configs::Table;
use apex_machine::Queue;
use apex_types::{CoreId, ProcessId};

/// If no two stamps are the same, the chosen process of a core is eligible, bound to the core and
/// before every other such process (ARINC 653 Part 1, process management).
pub fn chosen_is_first<S: Store>(store: &S, core: CoreId)
    requires { HasDistinctStamps (S.roster store.now) }
    ensures { laws.ChosenIsFirst (S.roster store.now) core }
{}

/// If no two stamps are the same, each core's running process is the highest-priority,
/// longest-ready one bound to it.
pub fn most_urgent_runs<S: Store>(store: &S, core: CoreId)
    requires { HasDistinctStamps (S.roster store.now) }
    ensures { laws.RunsMostUrgent (S.roster store.now) core }
{}

/// A process is running exactly if it is the chosen one of its core.
pub fn running_is_chosen<S: Store>(store: &S, process: ProcessId)
    ensures { laws.RunningIsChosen (S.roster store.now) process }
{}

/// A core runs one process at the most.
pub fn one_process_runs<S: Store>(store: &S)
    ensures { laws.RunsOneProcess (S.roster store.now) }
{}

/// If no two stamps are the same, the first waiter of a queue is before every other one there, by
/// the queue's discipline.
pub fn first_waiter_is_first<S: Store>(store: &S, queue: Queue)
    requires { HasDistinctStamps (S.roster store.now) }
    ensures { laws.FirstWaiterIsFirst (S.roster store.now) queue }
{}

/// If no two stamps are the same, the next waiter behind a process is the first of those behind it.
pub fn next_waiter_is_next<S: Store>(store: &S, queue: Queue, process: ProcessId)
    requires { HasDistinctStamps (S.roster store.now) }
    ensures { laws.NextWaiterIsNext (S.roster store.now) queue process }
{}

/// A process is in one queue at the most: that of its wait.
pub fn waits_in_one_queue<S: Store>(store: &S, process: ProcessId)
    ensures { laws.WaitsInOneQueue (record_at (S.roster store.now) process) }
{}

/// The next instant is the least due or deadline of all processes. If there is none, no process has
/// either.
pub fn next_instant_is_least<S: Store>(store: &S)
    ensures { laws.NextInstantIsLeast (S.roster store.now) }
{}

/// The first process that is due has the lowest number of those whose due is now. If there is none,
/// no process is due now.
pub fn first_due_is_lowest<S: Store>(store: &S)
    ensures { laws.FirstDueIsLowest (S.roster store.now) }
{}

/// The first process that misses a deadline has the lowest number of those whose deadline is now.
/// If there is none, no deadline is now.
pub fn first_missed_is_lowest<S: Store>(store: &S)
    ensures { laws.FirstMissedIsLowest (S.roster store.now) }
{}

/// A periodic process has a next release: the least instant above now that is one or more whole
/// periods after its last release. A process without a period has none.
pub fn next_release_is_least<S: Store>(store: &S, process: ProcessId)
    ensures { laws.NextReleaseIsLeast (S.roster store.now) process }
{}

/// The processes of a table open with distinct stamps.
pub fn opens_with_distinct_stamps(table: &Table)
    ensures { IsStamped (opening_roster table.now) }
{}

/// No call of a store gives two of its processes the same stamp.
pub fn stamps_stay_distinct<S: Store>(store: &S)
    requires { IsStamped (S.roster store.now) }
    ensures { laws.StampsStayDistinct (S.roster store.now) }
{}
