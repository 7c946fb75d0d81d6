//! What a pace allows in a situation, whatever holds it.
ghost use Rattle.std.specs.Prelude.{◌≡◌, ◌≤◌, is_some, IfSome};
ghost use Rattle.apex_types.specs.declared.limits.TheConstants.{MOST_CORES, MOST_TICKS};
ghost use Rattle.apex_types.specs.Limits.{latest};
ghost use Rattle.apex_machine.specs.Situations.{due_call};
ghost use Rattle.apex_machine.specs.processes.Dues.{next_instant};
ghost use Rattle.apex_machine.specs.processes.Running.{chosen};
ghost use Rattle.apex_machine.specs.table.Table.{Table};
ghost use Rattle.apex_pace.specs.First.{takes_turn};
ghost use Rattle.apex_pace.specs.Pace.{Paced, all_cores, first_work_end, is_at_work, is_idle, is_quiet, is_settled, is_starting, may_turn, needs_time, next_moment, next_tick, ticks_to, work_end};

use crate::paces::{Pace, least_ticks};
use apex_machine::{OpenWork, sooner};
use apex_types::{CoreId, MOST_TICKS, ProcessId};

/// A table in a situation of which a pace counts the turns and the ticks of each core.
pub trait AtPace {
    ghost table: { Self → Table };

    ghost paced: { Self → Paced };

    /// The number of cores that the table gives.
    fn cores(&self) -> u8
        ensures value { result ≡ (table self.now).cores }
        ensures range { result ≤ MOST_CORES };

    /// The time in ticks.
    fn now(&self) -> u64
        ensures { result ≡ (paced self.now).situation.roster.now };

    /// The partition is still in COLD_START.
    fn is_starting(&self) -> bool
        ensures { result ≡ is_starting (paced self.now) };

    /// An init step is due in a turn of the core.
    fn has_due_call(&self, core: CoreId) -> bool
        ensures { result ≡ is_some (due_call (table self.now) (paced self.now).situation core) };

    /// The process that the core runs.
    fn chosen(&self, core: CoreId) -> Option<ProcessId>
        ensures { result ≡ chosen (paced self.now).situation.roster core };

    /// The work that is open on the core.
    fn work(&self, core: CoreId) -> Option<OpenWork>
        ensures { result ≡ (paced self.now).situation.works core };

    /// The next instant in ticks at which a wait ends by itself or a deadline passes.
    fn next_instant(&self) -> Option<u64>
        ensures { result ≡ next_instant (paced self.now).situation.roster };

    /// The turns of the core since the last tick.
    fn turns(&self, core: CoreId) -> u64
        ensures { result ≡ (paced self.now).turns core };

    /// The ticks since the core began its open work.
    fn worked(&self, core: CoreId) -> u64
        ensures { result ≡ (paced self.now).worked core };
}

/// No work of the core is open, and it has no process to run.
fn is_idle<P: AtPace>(at: &P, core: CoreId) -> bool
    ensures { result ≡ is_idle (P.paced at.now) core }
{
    at.work(core).is_none() && at.chosen(core).is_none()
}

/// The core's open work is unbroken, and fewer ticks than its amount have passed.
fn is_at_work<P: AtPace>(at: &P, core: CoreId) -> bool
    ensures { result ≡ is_at_work (P.paced at.now) core }
{
    match at.work(core) {
        Some(open) => open.unbroken && at.worked(core) < u64::from(open.work.amount.ticks()),
        None => false,
    }
}

/// The core's open work is unbroken and needs more ticks.
fn needs_time<P: AtPace>(at: &P, percent: u8, core: CoreId) -> bool
    ensures { result ≡ needs_time percent (P.paced at.now) core }
{
    match at.work(core) {
        Some(open) => {
            let least = least_ticks(percent, open.work.amount.ticks());
            open.unbroken && at.worked(core) < least
        }
        None => false,
    }
}

/// The core is idle, or its work needs more ticks.
fn is_quiet<P: AtPace>(at: &P, percent: u8, core: CoreId) -> bool
    ensures { result ≡ is_quiet percent (P.paced at.now) core }
{
    is_idle(at, core) || needs_time(at, percent, core)
}

/// The core is idle or at work, or has had its turns since the last tick.
fn is_settled<P: AtPace>(at: &P, pace: Pace, core: CoreId) -> bool
    ensures { result ≡ is_settled pace (P.paced at.now) core }
{
    is_at_work(at, core) || at.turns(core) >= u64::from(pace.turns) || is_idle(at, core)
}

/// Each of the first `n` cores is settled.
fn are_settled<P: AtPace>(at: &P, pace: Pace, n: u8) -> bool
    requires { n ≤ MOST_CORES }
    ensures { result ≡ all_cores (is_settled pace (P.paced at.now)) n }
{
    n == 0 || is_settled(at, pace, CoreId::new(n - 1)) && are_settled(at, pace, n - 1)
}

/// Each of the first `n` cores is quiet.
fn are_quiet<P: AtPace>(at: &P, percent: u8, n: u8) -> bool
    requires { n ≤ MOST_CORES }
    ensures { result ≡ all_cores (is_quiet percent (P.paced at.now)) n }
{
    n == 0 || is_quiet(at, percent, CoreId::new(n - 1)) && are_quiet(at, percent, n - 1)
}

/// The instant in ticks from which the work of a core needs no more ticks.
fn work_end<P: AtPace>(at: &P, percent: u8, core: CoreId) -> Option<u64>
    requires { (P.paced at.now).situation.roster.now ≤ latest }
    ensures { result ≡ work_end percent (P.paced at.now) core }
{
    if !needs_time(at, percent, core) {
        return None;
    }
    match at.work(core) {
        Some(open) => {
            let least = least_ticks(percent, open.work.amount.ticks());
            Some(at.now() + (least - at.worked(core)))
        }
        None => None,
    }
}

/// The soonest of these instants of the first `n` cores.
fn first_work_end<P: AtPace>(at: &P, percent: u8, n: u8) -> Option<u64>
    requires cores { n ≤ MOST_CORES }
    requires time { (P.paced at.now).situation.roster.now ≤ latest }
    ensures { result ≡ first_work_end percent (P.paced at.now) n }
{
    if n == 0 {
        return None;
    }
    sooner(
        work_end(at, percent, CoreId::new(n - 1)),
        first_work_end(at, percent, n - 1),
    )
}

/// The next moment if all cores are quiet: the next instant, or the end of work.
fn next_moment<P: AtPace>(at: &P, percent: u8) -> Option<u64>
    requires { (P.paced at.now).situation.roster.now ≤ latest }
    ensures { result ≡ next_moment percent (P.table at.now) (P.paced at.now) }
{
    let instant = at.next_instant();
    sooner(instant, first_work_end(at, percent, at.cores()))
}

/// The ticks from now to a moment, as far as one tick goes.
fn ticks_to<P: AtPace>(at: &P, moment: u64) -> u32
    ensures value { result ≡ ticks_to (P.paced at.now) moment }
    ensures range { (1 ≤ result) × (result ≤ MOST_TICKS) }
{
    let ahead = moment.saturating_sub(at.now());
    ahead.min(u64::from(MOST_TICKS)).max(1) as u32
}

/// The tick that may come, in ticks.
pub fn next_tick<P: AtPace>(at: &P, pace: Pace) -> Option<u32>
    requires { (P.paced at.now).situation.roster.now ≤ latest }
    ensures value { result ≡ next_tick pace (P.table at.now) (P.paced at.now) }
    ensures range { IfSome result (λ n. (1 ≤ n) × (n ≤ MOST_TICKS)) }
{
    let cores = at.cores();
    if at.is_starting() || !are_settled(at, pace, cores) {
        return None;
    }
    if !are_quiet(at, pace.percent, cores) {
        return Some(1);
    }
    match next_moment(at, pace.percent) {
        Some(moment) => Some(ticks_to(at, moment)),
        None => None,
    }
}

/// The core may take a turn: in COLD_START if an init step is due, later if it is not quiet.
pub fn may_turn<P: AtPace>(at: &P, pace: Pace, core: CoreId) -> bool
    ensures { result ≡ may_turn pace (P.table at.now) (P.paced at.now) core }
{
    if at.is_starting() {
        at.has_due_call(core)
    } else {
        !is_quiet(at, pace.percent, core)
    }
}

/// The core takes a turn in a round: in COLD_START if an init step is due, later if it may, is not
/// at work and has not had all its turns since the last tick.
pub fn takes_turn<P: AtPace>(at: &P, pace: Pace, core: CoreId) -> bool
    ensures { result ≡ takes_turn pace (P.table at.now) (P.paced at.now) core }
{
    if at.is_starting() {
        return at.has_due_call(core);
    }
    !is_at_work(at, core)
        && at.turns(core) < u64::from(pace.turns)
        && !is_quiet(at, pace.percent, core)
}
