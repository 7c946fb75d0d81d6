//! The effect of a tick: time goes on to the next instant at the latest, and there deadlines are
//! missed and waits end.
ghost use Rattle.std.specs.Prelude.{◌≡◌, ◌+◌, ◌-◌, ◌<◌, ◌≤◌, ◌^◌, [], ◌∷◌, ◌++◌, length};
ghost use Rattle.apex_types.specs.declared.limits.TheConstants.{MOST_NOTICES, MOST_OWNED, MOST_PROCESSES};
ghost use Rattle.apex_types.specs.Limits.{latest};
ghost use Rattle.apex_types.specs.declared.entries.Notice.TheVariants.{Missed};
ghost use Rattle.apex_machine.specs.processes.Dues.{HasTime};
ghost use Rattle.apex_machine.specs.services.InTurn.{Makes, behind};
ghost use Rattle.apex_machine.specs.processes.Periods.{AreInTime};
ghost use Rattle.apex_machine.specs.processes.Stamps.{HasManyStamps, HasOrderlyStarts, HasStamps, HasStampsFor};
ghost use Rattle.apex_machine.specs.Ticks as ticks;
ghost use Rattle.apex_laws.specs.Premises.{HasStampsForAll, due_count};

use apex_machine::Wait;
use apex_store::{Store, halt};
use apex_types::{DeadlineType, Notice, Notices, ProcessId, ReturnCode};

/// The smaller of an instant and the next one, if there is one.
fn not_beyond(instant: u64, next: Option<u64>) -> u64
    ensures { result ≡ ticks.not_beyond instant next }
{
    match next {
        Some(next) => instant.min(next),
        None => instant,
    }
}

/// The instant to which a tick of `n` goes: the smaller of now + `n` and the next instant.
fn tick_goal<S: Store>(store: &S, n: u32) -> u64
    requires time { HasTime (S.roster store.now) }
    ensures { result ≡ ticks.tick_goal (S.roster store.now) n }
{
    not_beyond(store.now() + u64::from(n), store.next_instant())
}

/// The process missed its deadline: a HARD one stops it, and the mutexes that it owned go on at
/// once.
fn miss<S: Store>(store: &mut S, process: ProcessId, deadline: DeadlineType, notices: &mut Notices)
    requires known { process < length (S.roster store.old).records }
    requires stamps { HasStampsFor MOST_OWNED (S.roster store.old) }
    requires room { length notices.old + 1 + length
        (ticks.miss (S.roster store.old) process deadline).notices ≤ MOST_NOTICES }
    ensures { Makes (behind (Missed process deadline ∷ [])
        (ticks.miss (S.roster store.old) process deadline))
        (S.roster store.new) notices.old notices.new }
{
    notices.push(Notice::Missed(process, deadline));
    match deadline {
        DeadlineType::Soft => {}
        DeadlineType::Hard => halt(store, process, notices),
    }
}

/// The deadlines at now are served, by process number.
fn serve_deadlines<S: Store>(store: &mut S, notices: &mut Notices)
    requires few_processes { length (S.roster store.old).records ≤ MOST_PROCESSES }
    requires starts { HasOrderlyStarts (S.roster store.old) }
    requires stamps { HasManyStamps (S.roster store.old) }
    requires room { notices.old ≡ [] }
    ensures { Makes (ticks.serve_deadlines (S.roster store.old))
        (S.roster store.new) notices.old notices.new }
{
    for round in 0..store.process_count() {
        match store.take_missed() {
            Some(process) => {
                let deadline = store.record(process).attributes.deadline;
                miss(store, process, deadline, notices);
            }
            None => return,
        }
    }
}

/// The wait of a process ends at its due, by the thing for which it waited; if it waits for
/// nothing, its suspension of itself ends.
fn wait_over<S: Store>(store: &mut S, process: ProcessId, wait: Option<Wait>, notices: &mut Notices)
    requires known { process < length (S.roster store.old).records }
    requires stamps { HasStamps (S.roster store.old) }
    requires time { HasTime (S.roster store.old) }
    requires room { length notices.old < MOST_NOTICES }
    ensures { Makes (ticks.wait_over (S.roster store.old) process wait)
        (S.roster store.new) notices.old notices.new }
{
    match wait {
        Some(Wait::Time) => {
            store.unblock(process);
            notices.push(Notice::Woken(process, ReturnCode::NoError));
        }
        Some(Wait::Start | Wait::Period) => {
            store.release(process);
            notices.push(Notice::Released(process));
        }
        _ => {
            store.unblock(process);
            notices.push(Notice::Woken(process, ReturnCode::TimedOut));
        }
    }
}

/// The dues at now are served, by process number.
fn serve_dues<S: Store>(store: &mut S, notices: &mut Notices)
    requires few_processes { length (S.roster store.old).records ≤ MOST_PROCESSES }
    requires starts { HasOrderlyStarts (S.roster store.old) }
    requires instants { AreInTime (S.roster store.old) }
    requires stamps { HasStampsForAll (S.roster store.old) }
    requires time { HasTime (S.roster store.old) }
    requires room { length notices.old + due_count (S.roster store.old) ≤ MOST_NOTICES }
    ensures { Makes (ticks.serve_dues (S.roster store.old))
        (S.roster store.new) notices.old notices.new }
{
    for round in 0..store.process_count() {
        match store.take_due() {
            Some(process) => {
                let wait = store.record(process).wait;
                wait_over(store, process, wait, notices);
            }
            None => return,
        }
    }
}

/// The deadlines at now are served first, and then the dues.
fn serve_instant<S: Store>(store: &mut S, notices: &mut Notices)
    requires few_processes { length (S.roster store.old).records ≤ MOST_PROCESSES }
    requires starts { HasOrderlyStarts (S.roster store.old) }
    requires instants { AreInTime (S.roster store.old) }
    requires stamps { HasManyStamps (S.roster store.old) }
    requires time { HasTime (S.roster store.old) }
    requires room { notices.old ≡ [] }
    ensures { Makes (ticks.serve_instant (S.roster store.old))
        (S.roster store.new) notices.old notices.new }
{
    serve_deadlines(store, notices);
    serve_dues(store, notices);
}

/// Time goes on by a tick of `n`, and the deadlines and then the dues at that instant are served.
/// Answers the ticks by which time went on.
#[tactic(auto, unfolding(apex_machine::specs::Ticks::pass_time))]
pub(crate) fn pass_time<S: Store>(store: &mut S, n: u32, notices: &mut Notices) -> u32
    requires few_processes { length (S.roster store.old).records ≤ MOST_PROCESSES }
    requires starts { HasOrderlyStarts (S.roster store.old) }
    requires instants { AreInTime (S.roster store.old) }
    requires stamps { HasManyStamps (S.roster store.old) }
    requires near { (S.roster store.old).now + n ≤ latest }
    requires room { notices.old ≡ [] }
    ensures changes { Makes (ticks.pass_time (S.roster store.old) n)
        (S.roster store.new) notices.old notices.new }
    ensures went { result ≡ ticks.tick_goal (S.roster store.old) n - (S.roster store.old).now }
{
    let before = store.now();
    let goal = tick_goal(store, n);
    store.advance_to(goal);
    serve_instant(store, notices);
    (goal - before) as u32
}
