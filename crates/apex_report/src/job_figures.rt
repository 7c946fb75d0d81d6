//! The figures of a process's jobs.
ghost use Rattle.std.specs.Prelude.{◌≡◌, []};
ghost use Rattle.apex_types.specs.declared.limits.TheConstants.{MOST_ENTRIES};
ghost use Rattle.apex_report.specs.Jobs.{ended_open};
ghost use Rattle.apex_report.specs.JobFigures.{faster, job_figures, slower};
ghost use Rattle.apex_report.specs.Steps.{jobs_after, AreJobsUpTo};
ghost use Rattle.apex_report.specs.Unbeaten.{kept};

use crate::jobs::{Job, completes, releases, stops};
use apex_types::{LentEntry, ProcessId};

/// The figures of a process's jobs over a history (this profile).
#[derive(Clone, Copy)]
pub struct JobFigures {
    /// The releases of the process; each begins a job.
    pub releases: u32,
    /// The jobs that it completed, with a PERIODIC_WAIT or a STOP_SELF.
    pub completions: u32,
    /// The jobs that others stopped: by a STOP, a HARD deadline or the mode IDLE.
    pub stops: u32,
    /// The time of the release of the open job in ticks, if there is one.
    pub open_since: Option<u64>,
    /// The first of the completed jobs with the shortest response.
    pub best: Option<Job>,
    /// The first of the completed jobs with the longest response.
    pub worst: Option<Job>,
}

/// The better of two jobs: the second one only if its response is shorter.
fn better(best: Option<Job>, job: Job) -> Option<Job>
    ensures { result ≡ kept faster best job }
{
    match best {
        Some(best) if job.response() >= best.response() => Some(best),
        _ => Some(job),
    }
}

/// The worse of two jobs: the second one only if its response is longer.
fn worse(worst: Option<Job>, job: Job) -> Option<Job>
    ensures { result ≡ kept slower worst job }
{
    match worst {
        Some(worst) if job.response() <= worst.response() => Some(worst),
        _ => Some(job),
    }
}

/// The job that the entry ends if it is an end: the one that is open before it.
fn ended_open(is_end: bool, open_since: Option<u64>, entry: &LentEntry<'_>) -> Option<Job>
    ensures { result ≡ ended_open is_end open_since entry.entry.now }
{
    let released = open_since?;
    if !is_end {
        return None;
    }
    Some(Job {
        released,
        ended: entry.now,
        number: entry.number,
    })
}

impl JobFigures {
    /// There is no job before any entry.
    pub(crate) fn none(process: ProcessId) -> JobFigures
        ensures { result ≡ job_figures process [] }
    {
        JobFigures {
            releases: 0,
            completions: 0,
            stops: 0,
            open_since: None,
            best: None,
            worst: None,
        }
    }

    /// Notes the release that begins a job of the process, and the end of one.
    pub(crate) fn note(&mut self, process: ProcessId, entry: &LentEntry<'_>)
        requires { AreJobsUpTo MOST_ENTRIES self.old }
        ensures { self.new ≡ jobs_after process self.old entry.entry.now }
    {
        let releases = releases(process, entry);
        let completes = completes(process, entry);
        let stops = stops(process, entry);
        if let Some(job) = ended_open(completes, self.open_since, entry) {
            self.completions += 1;
            self.best = better(self.best, job);
            self.worst = worse(self.worst, job);
        }
        if ended_open(stops, self.open_since, entry).is_some() {
            self.stops += 1;
        }
        self.releases += u32::from(releases);
        if releases {
            self.open_since = Some(entry.now);
        } else if completes || stops {
            self.open_since = None;
        }
    }
}
