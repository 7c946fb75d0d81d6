//! The figures of a process.
ghost use Rattle.std.specs.Prelude.{◌≡◌, ◌≤◌, [], ◌∷◌, ◌++◌, IfOk, OnOk};
ghost use Rattle.apex_types.specs.declared.limits.TheConstants.{MOST_ENTRIES};
ghost use Rattle.apex_report.specs.Cores.{units};
ghost use Rattle.apex_report.specs.Processes.{is_miss_of, is_timeout_of, misses, times_out, process_figures};
ghost use Rattle.apex_report.specs.Concerned.{is_concerned, is_for, is_noticed};
ghost use Rattle.apex_report.specs.Steps.{process_after, with_changes, with_own, with_turn, AreJobsUpTo, IsProcessUpTo};

use crate::job_figures::JobFigures;
use crate::jobs::{is_by_process, is_stop_of};
use crate::refusals::Refusals;
use crate::waits::queue_after;
use apex_machine::Queue;
use apex_types::{LentEntry, Notice, ProcessId, Reply, ReturnCode};
use std::alloc::{AllocError, Global};
use std::marker::Model;

/// The figures of a process over a history (this profile). Times are in ticks.
#[derive(Clone, Copy)]
pub struct ProcessFigures {
    /// The process whose figures these are.
    pub process: ProcessId,
    /// The turns in which it carried out a step.
    pub turns: u32,
    /// The deadlines that it missed.
    pub misses: u32,
    /// The waits, and suspensions of itself, that ended with TIMED_OUT.
    pub timeouts: u32,
    /// The units of its work that is done.
    pub work_done: u64,
    /// The units of its work that was lost.
    pub work_lost: u64,
    /// The replies to its calls, other than NO_ERROR.
    pub refusals: Refusals,
    /// Its jobs, each of which begins with a release.
    pub jobs: JobFigures,
    /// The queue of the object for which it waits, if it waits for one.
    pub waits_in: Option<Queue>,
}

fn is_miss_of(process: ProcessId, notice: &Notice) -> bool
    ensures { result ≡ is_miss_of process notice.now }
{
    match notice {
        Notice::Missed(missed, _) => process == *missed,
        _ => false,
    }
}

/// The process misses its deadline at the entry.
fn misses(process: ProcessId, entry: &LentEntry<'_>) -> bool
    ensures { result ≡ misses process entry.entry.now }
{
    entry
        .notices
        .iter()
        .any(|notice| is_miss_of(process, notice))
}

fn is_timeout_of(process: ProcessId, notice: &Notice) -> bool
    ensures { result ≡ is_timeout_of process notice.now }
{
    match notice {
        Notice::Woken(woken, code) => process == *woken && *code == ReturnCode::TimedOut,
        _ => false,
    }
}

/// A wait of the process times out at the entry.
fn times_out(process: ProcessId, entry: &LentEntry<'_>) -> bool
    ensures { result ≡ times_out process entry.entry.now }
{
    entry
        .notices
        .iter()
        .any(|notice| is_timeout_of(process, notice))
}

fn is_for(process: ProcessId, notice: &Notice) -> bool
    ensures { result ≡ is_for process notice.now }
{
    match notice {
        Notice::Woken(other, _) => process == *other,
        Notice::Released(other) => process == *other,
        Notice::Missed(other, _) => process == *other,
    }
}

/// The entry has a notice for the process.
fn is_noticed(process: ProcessId, entry: &LentEntry<'_>) -> bool
    ensures { result ≡ is_noticed process entry.entry.now }
{
    entry.notices.iter().any(|notice| is_for(process, notice))
}

/// The entry says something of the process: it is its own, has a notice for it, or stops it.
fn is_concerned(process: ProcessId, entry: &LentEntry<'_>) -> bool
    ensures { result ≡ is_concerned process entry.entry.now }
{
    is_by_process(process, &entry.process)
        || is_noticed(process, entry)
        || is_stop_of(process, &entry.call, &entry.reply)
}

impl ProcessFigures {
    /// The figures of the process before any entry.
    pub(crate) fn before(process: ProcessId) -> ProcessFigures
        ensures { result ≡ process_figures [] process }
    {
        ProcessFigures {
            process,
            turns: 0,
            misses: 0,
            timeouts: 0,
            work_done: 0,
            work_lost: 0,
            refusals: Refusals::none(),
            jobs: JobFigures::none(process),
            waits_in: None,
        }
    }

    /// Notes the call and the reply of an entry of its own, whose work has these units.
    fn note_own(&mut self, reply: &Reply, amount: u32)
        requires { IsProcessUpTo MOST_ENTRIES self.old }
        ensures { self.new ≡ with_own reply.now amount self.old }
    {
        self.turns += 1;
        match reply {
            Reply::Done => self.work_done += u64::from(amount),
            Reply::Lost => self.work_lost += u64::from(amount),
            _ => self.refusals.note(reply),
        }
    }

    /// Notes the turn of the entry, whose work has these units, if it is the process's own.
    #[tactic(auto, using(crate::proofs::Unconcerned::other_turn, crate::proofs::Unconcerned::own_turn))]
    fn note_turn(&mut self, entry: &LentEntry<'_>, amount: u32)
        requires up_to { IsProcessUpTo MOST_ENTRIES self.old }
        requires amount { amount ≡ units entry.now.call }
        ensures { self.new ≡ with_turn entry.entry.now self.old }
    {
        if is_by_process(self.process, &entry.process) {
            self.note_own(&entry.reply, amount);
        }
    }

    /// Notes what the notices of the entry say of the process, and the jobs and the wait that it begins or
    /// ends.
    fn note_changes(&mut self, entry: &LentEntry<'_>)
        requires misses { self.old.misses ≤ MOST_ENTRIES }
        requires timeouts { self.old.timeouts ≤ MOST_ENTRIES }
        requires jobs { AreJobsUpTo MOST_ENTRIES self.old.jobs }
        ensures { self.new ≡ with_changes entry.entry.now self.old }
    {
        self.misses += u32::from(misses(self.process, entry));
        self.timeouts += u32::from(times_out(self.process, entry));
        self.jobs.note(self.process, entry);
        self.waits_in = queue_after(self.process, self.waits_in, entry);
    }

    /// Notes the turn and the changes of the entry, whose work has these units.
    fn note_concerned(&mut self, entry: &LentEntry<'_>, amount: u32)
        requires up_to { IsProcessUpTo MOST_ENTRIES self.old }
        requires amount { amount ≡ units entry.now.call }
        ensures { self.new ≡ process_after entry.entry.now self.old }
    {
        self.note_turn(entry, amount);
        self.note_changes(entry);
    }

    /// Notes what the entry, whose work has these units, says of the process: nothing if it does not concern
    /// the process.
    #[tactic(auto, using(crate::proofs::Unconcerned::process_kept))]
    pub(crate) fn note(&mut self, entry: &LentEntry<'_>, amount: u32)
        requires up_to { IsProcessUpTo MOST_ENTRIES self.old }
        requires amount { amount ≡ units entry.now.call }
        ensures { self.new ≡ process_after entry.entry.now self.old }
    {
        if is_concerned(self.process, entry) {
            self.note_concerned(entry, amount);
        }
    }
}

/// The figures of processes, as they are put together.
#[derive(Drop)]
pub(crate) struct ProcessList {
    figures: Vec<ProcessFigures>,
}

impl Model for ProcessList {
    ghost use Rattle.std.specs.Prelude.{List};
    ghost use Rattle.apex_report.specs.declared.processes.ProcessFigures.{ProcessFigures};

    ghost Value = { List ProcessFigures };

    ghost view = { λ l. l.figures.items };
}

impl ProcessList {
    pub(crate) fn with_capacity(alloc: Global, count: usize) -> Result<ProcessList, AllocError>
        ensures { IfOk result (λ made. made ≡ []) }
    {
        Ok(ProcessList {
            figures: Vec::with_capacity(alloc, count)?,
        })
    }

    pub(crate) fn push(&mut self, figures: ProcessFigures) -> Result<(), AllocError>
        ensures { OnOk result (self.new ≡ self.old ++ figures ∷ []) }
    {
        // The prover finds this type only if the function names it.
        let _waits_in: Option<Queue> = None;
        self.figures.push(figures)?;
        Ok(())
    }

    pub(crate) fn into_vec(self) -> Vec<ProcessFigures>
        ensures { result.items ≡ self }
    {
        self.figures
    }
}
