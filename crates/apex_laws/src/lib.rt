//! The laws of the machine: what every run of a lawful table keeps. Each law is the contract of a
//! function that changes nothing.
#![tactic(auto)]

ghost use Rattle.apex_laws.specs.Delivery.{MessagesComeInOrder};
ghost use Rattle.apex_laws.specs.Laws.{HardMissesStop, HistoriesReplay, MutexesStayOwnedInOrder, NobodyEverWaitsInVain, OfEachTable, ReleasesLieInPeriods, RunsCompose, RunsStayWithin, TimeGoesForward, ValuesStayInRange, WorkersStay};
ghost use Rattle.apex_laws.specs.States.{EachHasOneState};
ghost use Rattle.apex_laws.specs.Unbroken.{WorkEndsAsItWasKept};
ghost use Rattle.apex_laws.specs.Worked.{MissedDeadlineThenNextRelease, SignalWakesWaiter, WorkIsLostAfterAbsence};
ghost use Rattle.apex_machine.specs.Machine.{Machine};
ghost use Rattle.apex_machine.specs.table.Table.{Table};

/// A run is a run over a prefix of it, and then over the rest.
pub fn runs_compose()
    ensures { (table : Table) (machine : Machine) → RunsCompose table machine }
{}

/// In every run each process is in exactly one of the four states, and those that run are exactly
/// the chosen ones (ARINC 653 Part 1, process management).
pub fn each_has_one_state()
    ensures { OfEachTable EachHasOneState }
{}

/// In every run each semaphore's value stays from 0 to its maximum.
pub fn values_stay_in_range()
    ensures { OfEachTable ValuesStayInRange }
{}

/// No run makes more entries than the table's limit.
pub fn runs_stay_within()
    ensures { OfEachTable RunsStayWithin }
{}

/// The events that the history of a run records, run anew, give the same state and the same
/// history: so a history can be replayed from its lines alone.
pub fn histories_replay()
    ensures { OfEachTable HistoriesReplay }
{}

/// In every run time never goes back, and no due and no deadline is below now: no wait outlasts its
/// due unseen, and no deadline passes unseen.
pub fn time_goes_forward()
    ensures { OfEachTable TimeGoesForward }
{}

/// In every run a process is released whole periods after the release before, as long as it isn't
/// stopped: so all its releases since its start are whole periods after the first one.
pub fn releases_lie_in_periods()
    ensures { OfEachTable ReleasesLieInPeriods }
{}

/// In every run a process whose deadline is HARD, and passes at a tick, is dormant after that tick.
pub fn hard_misses_stop()
    ensures { OfEachTable HardMissesStop }
{}

/// In every run a process with work open on a core is bound to that core.
pub fn workers_stay()
    ensures { OfEachTable WorkersStay }
{}

/// In every run the work that a core has begun is done by its next turn exactly if its process was
/// the core's chosen one after the entry that began it and after every later one; else it is lost.
pub fn work_ends_as_it_was_kept()
    ensures { OfEachTable WorkEndsAsItWasKept }
{}

/// In every run a receive that a turn answers with a message gives the next one of its buffer: the
/// first receive gives the first message that was sent, the second the second, and so on. A process
/// that waits to receive is woken with NO_ERROR only by a send to its buffer; it gets the message of
/// that send, and each message sent before had been received. A send wakes no other process with
/// NO_ERROR (ARINC 653 Part 1, buffers).
pub fn messages_come_in_order()
    ensures { OfEachTable MessagesComeInOrder }
{}

/// In every run no more receives from a buffer are satisfied than messages were sent to it, no
/// buffer holds more than it has room for, and no process waits for an object that has what it
/// waits for.
pub fn nobody_ever_waits_in_vain()
    ensures { OfEachTable NobodyEverWaitsInVain }
{}

/// In every run each mutex has one owner at the most, which owns it once, at the table's ceiling and
/// at a depth of 1 to 32, and whose current priority is at least that ceiling; and no process waits
/// for a free one.
pub fn mutexes_stay_owned_in_order()
    ensures { OfEachTable MutexesStayOwnedInOrder }
{}

/// The definitions compute the worked histories.
pub fn worked_histories()
    ensures signal_wakes_waiter { SignalWakesWaiter }
    ensures missed_deadline_then_next_release { MissedDeadlineThenNextRelease }
    ensures work_is_lost_after_absence { WorkIsLostAfterAbsence }
{}
