//! The figures of a core.
ghost use Rattle.std.specs.Prelude.{◌≡◌, ◌≤◌, []};
ghost use Rattle.apex_types.specs.declared.limits.TheConstants.{MOST_ENTRIES, MOST_SPAN};
ghost use Rattle.apex_report.specs.Cores.{busy_percent, core_figures, is_begun, is_done, is_idle, is_lost, is_service, is_turn, percent_of, ticks_in, units};
ghost use Rattle.apex_report.specs.Steps.{core_after, core_with_ticks, IsCoreUpTo};

use apex_types::{Call, Caller, CoreId, LentEntry, Reply, Who};

/// The figures of a core over a history (this profile).
#[derive(Clone, Copy)]
pub struct CoreFigures {
    /// The core whose figures these are.
    pub core: CoreId,
    /// Its turns, the idle ones too.
    pub turns: u32,
    /// The turns that had nothing to do.
    pub idle: u32,
    /// The turns that called a service.
    pub calls: u32,
    /// The turns that ended lost work.
    pub lost: u32,
    /// The units of work that is done.
    pub work_done: u64,
    /// The units of work that was lost.
    pub work_lost: u64,
    /// Its last turn began work, which no turn has ended yet.
    pub is_working: bool,
    /// The ticks that passed while work that it had begun was open.
    pub busy_ticks: u64,
    /// The other ticks.
    pub idle_ticks: u64,
}

/// The entry is a turn of the core.
fn is_turn(core: CoreId, entry: &LentEntry<'_>) -> bool
    ensures { result ≡ is_turn core entry.entry.now }
{
    match entry.who {
        Who::Core(made_by) => core == made_by,
        Who::Ticker => false,
    }
}

/// A service was called.
fn is_service(call: &Option<Call>) -> bool
    ensures { result ≡ is_service call.now }
{
    match call {
        None | Some(Call::Work(_)) => false,
        Some(_) => true,
    }
}

/// The units of work that the call asks for.
pub(crate) fn units(call: &Option<Call>) -> u32
    ensures value { result ≡ units call.now }
    ensures range { result ≤ MOST_SPAN }
{
    match call {
        Some(Call::Work(amount)) => amount.ticks(),
        _ => 0,
    }
}

/// The turn began work of a process.
fn is_begun(entry: &LentEntry<'_>) -> bool
    ensures { result ≡ is_begun entry.entry.now }
{
    match (entry.process, entry.call, entry.reply) {
        (Caller::Process(_), Some(Call::Work(_)), Reply::Begun) => true,
        _ => false,
    }
}

/// The ticks by which time goes on with the reply.
pub(crate) fn ticks_in(reply: &Reply) -> u32
    ensures value { result ≡ ticks_in reply.now }
    ensures range { result ≤ MOST_SPAN }
{
    match reply {
        Reply::Advanced(_, went) => *went,
        _ => 0,
    }
}

/// How many of each hundred of these and those are of these, rounded down.
fn percent_of(these: u64, those: u64) -> Option<u64>
    ensures { result ≡ percent_of these those }
{
    let all = u128::from(these) + u128::from(those);
    if all == 0 {
        return None;
    }
    Some((u128::from(these) * 100 / all) as u64)
}

impl CoreFigures {
    /// The part of the ticks in which it was busy, in percent and rounded down. None if no tick has
    /// passed.
    pub fn busy_percent(&self) -> Option<u64>
        ensures { result ≡ busy_percent self.now }
    {
        percent_of(self.busy_ticks, self.idle_ticks)
    }

    /// Notes that these ticks pass.
    fn note_ticks(&mut self, ticks: u32)
        requires { IsCoreUpTo MOST_ENTRIES self.old }
        ensures { self.new ≡ core_with_ticks ticks self.old }
    {
        if self.is_working {
            self.busy_ticks += u64::from(ticks);
        } else {
            self.idle_ticks += u64::from(ticks);
        }
    }

    /// The figures of the core before any entry.
    pub(crate) fn before(core: CoreId) -> CoreFigures
        ensures { result ≡ core_figures [] core }
    {
        CoreFigures {
            core,
            turns: 0,
            idle: 0,
            calls: 0,
            lost: 0,
            work_done: 0,
            work_lost: 0,
            is_working: false,
            busy_ticks: 0,
            idle_ticks: 0,
        }
    }

    /// Notes what the entry, whose work has these units and whose reply these ticks, says of the core.
    pub(crate) fn note(&mut self, entry: &LentEntry<'_>, amount: u32, ticks: u32)
        requires up_to { IsCoreUpTo MOST_ENTRIES self.old }
        requires amount { amount ≡ units entry.now.call }
        requires ticks { ticks ≡ ticks_in entry.now.reply }
        ensures { self.new ≡ core_after entry.entry.now self.old }
    {
        self.note_ticks(ticks);
        if !is_turn(self.core, entry) {
            return;
        }
        self.is_working = is_begun(entry);
        self.turns += 1;
        self.calls += u32::from(is_service(&entry.call));
        match entry.reply {
            Reply::Idle => self.idle += 1,
            Reply::Done => self.work_done += u64::from(amount),
            Reply::Lost => {
                self.lost += 1;
                self.work_lost += u64::from(amount);
            }
            _ => (),
        }
    }
}
