//! The greatest response of a process.
ghost use Rattle.std.specs.Prelude.{◌≡◌, ℕ, IfOk, option_map};
ghost use Rattle.apex_explore.specs.Searches.{room_of};
ghost use Rattle.apex_search.specs.Answers.{LeadsToFact, schedule_of};
ghost use Rattle.apex_search.specs.Census.{IsSearchOf};
ghost use Rattle.apex_choices.specs.Counts.{paced_in};
ghost use Rattle.apex_search.specs.Steps.{Searched};
ghost use Rattle.apex_search.specs.Worst.{IsJobOf, IsRound, IsWorst, last_job, responding, schedule_in};

use crate::laws::forms_stand_for_situations;
use crate::systems::{TableSystem, Workplace};
use apex_choices::PacedSituation;
use apex_explore::{Answer, Search, Watch};
use apex_jobs::Jobs;
use apex_store::Store;
use apex_types::{Event, ProcessId};
use std::alloc::{AllocError, Global};
use std::marker::Sync;
use std::mem::drop;
use std::thread::Threads;

/// The slowest job that was found.
#[derive(Drop)]
pub struct Slowest {
    /// Its response: the ticks from its release to its end, at most a period.
    pub response: u64,
    /// The events of a shortest schedule that has so great a response.
    pub schedule: Vec<Event>,
}

/// What a search for the greatest response of a process says.
#[derive(Drop)]
pub enum Worst {
    /// No schedule has a greater response than that of `found`, or any response if it is none, and
    /// the search reached this many states.
    Greatest {
        found: Option<Slowest>,
        states: usize,
    },
    /// These are the events of a shortest schedule with a response of more than a period, which has
    /// this many ticks. How great a response can be then is not said.
    Overrun {
        schedule: Vec<Event>,
        period: u32,
    },
    /// No schedule of at most `depth` events has a greater response than that of `found`, or any if
    /// it is none, and there is no room for more states.
    Full {
        found: Option<Slowest>,
        depth: usize,
    },
    /// No schedule of at most `limit` events, for as many entries as the history has room for, has a
    /// greater response than that of `found`, or any if it is none, but a longer one does.
    Beyond {
        found: Option<Slowest>,
        limit: u32,
    },
}

/// What a search on for a response of at least some number of ticks says.
#[derive(Drop)]
enum Round {
    /// This job has one.
    Slower(Slowest),
    /// The schedule has one of more than a period, which has this many ticks.
    Overrun { schedule: Vec<Event>, period: u32 },
    /// No schedule has one.
    Closed { states: usize },
    /// No schedule of at most `depth` events has one.
    Full { depth: usize },
    /// No schedule of at most `limit` events, for as many entries as the history has room for, has
    /// one, but a longer one does.
    Beyond { limit: u32 },
}

/// A job: the period of its process, and its response in ticks.
#[derive(Clone, Copy)]
pub(crate) struct Job {
    period: u32,
    response: u64,
}

/// The period of the process, if it has one, and the ticks since its last release.
fn last_job(paced: &PacedSituation, process: ProcessId) -> Option<Job>
    ensures { result ≡ last_job (paced_in paced.now).situation.roster process }
{
    let store = paced.situation.store();
    if process.place() >= store.process_count() {
        return None;
    }
    let fields = store.record(process);
    match fields.attributes.period {
        Some(period) => Some(Job {
            period: period.ticks(),
            response: store.now().saturating_sub(fields.release),
        }),
        None => None,
    }
}

impl TableSystem {
    /// The events of the path, and the job of the process that they end. Fails only for want of
    /// memory.
    fn job_of(
        &self,
        alloc: Global,
        path: &[u32],
        process: ProcessId,
    ) -> Result<(Vec<Event>, Job), AllocError>
        requires { (least : ℕ)
            × LeadsToFact (responding self.now process least) (schedule_of self.now path.now) }
        ensures { IfOk result (λ ended. IsJobOf self.now process path.now ended.0.items ended.1) }
    {
        let (schedule, form) = self.follow(alloc, path)?;
        match last_job(&form, process) {
            Some(job) => Ok((schedule, job)),
            None => unreachable!(),
        }
    }

    /// Searches on for a response of at least this many ticks. If one of at most a period is found,
    /// the question is for a greater one afterwards. Fails only for want of memory.
    fn next_response<R: Threads + Sync, V: Watch>(
        &mut self,
        alloc: Global,
        search: &mut Search<Workplace>,
        process: ProcessId,
        least: u64,
        jobs: &Jobs<'_, R>,
        watch: &mut V,
    ) -> Result<Round, AllocError>
        requires asks { self.old ≡ responding self.old process least }
        requires search { IsSearchOf self.old search.old }
        ensures says { (system : Searched) → self.old ≡ responding system process least
            → IfOk result (IsRound system self.new process least (room_of search.old) search.new) }
        ensures room { IfOk result (λ _. room_of search.new ≡ room_of search.old) }
    {
        let path = match self.go_on(alloc, search, jobs, watch)? {
            Answer::Found(path) => path,
            Answer::Closed { states } => return Ok(Round::Closed { states }),
            Answer::Full { depth } => return Ok(Round::Full { depth }),
        };
        let limit = self.table().limit();
        if path.len() > limit as usize {
            self.lawful();
            forms_stand_for_situations();
            return Ok(Round::Beyond { limit });
        }
        let (schedule, job) = self.job_of(alloc, path.as_slice(), process)?;
        let Job { period, response } = job;
        if response > u64::from(period) {
            return Ok(Round::Overrun { schedule, period });
        }
        self.ask_for_response(process, response + 1);
        Ok(Round::Slower(Slowest { response, schedule }))
    }

    /// Asks for a greater response as long as one is found. Fails only for want of memory.
    fn greatest_response<R: Threads + Sync, V: Watch>(
        &mut self,
        alloc: Global,
        search: &mut Search<Workplace>,
        process: ProcessId,
        jobs: &Jobs<'_, R>,
        watch: &mut V,
    ) -> Result<Worst, AllocError>
        requires asks { self.old ≡ responding self.old process 0 }
        requires search { IsSearchOf self.old search.old }
        ensures { (system : Searched) → self.old ≡ responding system process 0
            → IfOk result (IsWorst system process (room_of search.old)) }
    {
        let mut found = None;
        let mut least = 0;
        loop {
            match self.next_response(alloc, search, process, least, jobs, watch)? {
                Round::Slower(slowest) => {
                    least = slowest.response + 1;
                    found = Some(slowest);
                }
                Round::Overrun { schedule, period } => {
                    return Ok(Worst::Overrun { schedule, period });
                }
                Round::Closed { states } => return Ok(Worst::Greatest { found, states }),
                Round::Full { depth } => return Ok(Worst::Full { found, depth }),
                Round::Beyond { limit } => return Ok(Worst::Beyond { found, limit }),
            }
        }
    }

    /// Searches the schedules of the pace, the shortest first, for the greatest response of the
    /// process. The jobs share the search. The room for `room` states is taken before the first event.
    /// Fails only for want of memory.
    ///
    /// A response is the time in ticks from the release of a job of a periodic process to the
    /// PERIODIC_WAIT that ends it. Those up to a period are told apart, since a job that takes longer
    /// can take as long as the others keep it from the core.
    pub fn worst<R: Threads + Sync, V: Watch>(
        mut self,
        alloc: Global,
        process: ProcessId,
        room: u32,
        jobs: &Jobs<'_, R>,
        watch: &mut V,
    ) -> Result<Worst, AllocError>
        ensures { IfOk result (IsWorst self process room) }
    {
        self.ask_for_response(process, 0);
        let mut search = Search::new(alloc, &self, room)?;
        let worst = self.greatest_response(alloc, &mut search, process, jobs, watch);
        drop(search);
        worst
    }
}

impl Worst {
    /// The events of the schedule that was found, if one was.
    pub fn schedule(&self) -> Option<&[Event]>
        ensures { option_map (λ events. events.now) result ≡ schedule_in self.now }
    {
        match self {
            Worst::Overrun { schedule, .. } => Some(schedule.as_slice()),
            Worst::Greatest { found, .. }
            | Worst::Full { found, .. }
            | Worst::Beyond { found, .. } => {
                match found {
                    Some(slowest) => Some(slowest.schedule.as_slice()),
                    None => None,
                }
            }
        }
    }
}
