//! Processes in the order of their instants.
ghost use Rattle.std.specs.Prelude.{◌≡◌, ◌<◌, false, length, IfOk, IfSome};
ghost use Rattle.apex_links.specs.Neighbours.{first_of, stands_in};
ghost use Rattle.apex_timeouts.specs.Timeline.{armed, disarmed, due_at, empty_line, instant_of, instant_on, is_later, next_of, without_due_at, IsReset, IsTimed};

use apex_links::{LinkSet, ListId, Test};
use apex_types::ProcessId;
use std::alloc::{AllocError, Global};
use std::marker::Model;

/// The test for processes that come later than one at this instant.
#[derive(Drop)]
struct Later<'a> {
    instants: &'a [u64],
    process: ProcessId,
    instant: u64,
}

impl Test for Later<'_> {
    ghost passes = { λ t. is_later t.instants.now t.process t.instant };

    ghost known = { λ t. length t.instants.now };

    fn passes(&self, other: ProcessId) -> bool {
        let instant = self.instants[other.place()];
        self.instant < instant || self.instant == instant && self.process.place() < other.place()
    }
}

/// The one list of the link set.
fn line() -> ListId
    ensures { result ≡ 0 }
{
    ListId::at(0)
}

/// Some of the processes, each with an instant of its own, in ticks: the soonest first, and of
/// those at the same instant the one of the lowest number.
#[derive(Drop)]
pub struct Timeline {
    links: LinkSet,
    instants: Vec<u64>,
}

impl Model for Timeline {
    ghost use Rattle.apex_links.specs.Links.{list_at};
    ghost use Rattle.apex_timeouts.specs.Timeline.{Times, AreTimed};

    ghost Value = { Times };

    ghost view = { λ t. record { order = list_at t.links 0; instants = t.instants.items } };

    ghost invariant = { λ t. AreTimed t.links t.instants.items };
}

impl Timeline {
    /// An empty line for n processes. Fails only for want of memory.
    pub fn new(alloc: Global, processes: u16) -> Result<Timeline, AllocError>
        ensures { IfOk result (λ line. line ≡ empty_line processes) }
    {
        Ok(Timeline {
            links: LinkSet::new(alloc, processes, 1)?,
            instants: vec![in alloc; 0; usize::from(processes)]?,
        })
    }

    /// The processes are in the order of their instants, and none of them is there twice.
    pub fn holds(&self)
        ensures { IsTimed self.now }
    {
        self.links.holds();
    }

    /// The number of nodes that the calls, reading ones too, have read or written since the line
    /// was made; it stays at the greatest `u64`.
    pub fn visits(&self) -> u64 {
        self.links.visits()
    }

    /// The process, which is not on the line, has this instant from now on.
    pub fn arm(&mut self, process: ProcessId, instant: u64)
        requires process { process < length self.old.instants }
        requires idle { stands_in process self.old.order ≡ false }
        ensures { self.new ≡ armed self.old process instant }
    {
        let later = Later {
            instants: &self.instants,
            process,
            instant,
        };
        self.links.place_sorted(line(), process, &later);
        self.instants[process.place()] = instant;
    }

    /// The process is not on the line from now on.
    pub fn disarm(&mut self, process: ProcessId)
        requires { process < length self.old.instants }
        ensures line { self.new ≡ disarmed self.old process }
        ensures idle { stands_in process self.new.order ≡ false }
    {
        self.links.remove(process);
    }

    /// The instant of the process, in ticks, or none if it is not on the line.
    pub fn instant_on(&self, process: ProcessId) -> Option<u64>
        requires { process < length self.now.instants }
        ensures { result ≡ instant_on self.now process }
    {
        self.links.list_of(process)?;
        Some(self.instant(process))
    }

    /// The process has this instant from now on, or none. Nothing is walked if it has it already.
    pub fn set(&mut self, process: ProcessId, instant: Option<u64>)
        requires { process < length self.old.instants }
        ensures { IsReset self.old self.new process instant }
    {
        if instant.is_none() && self.first().is_none() {
            return;
        }
        if self.instant_on(process) != instant {
            self.reset(process, instant);
        }
    }

    // In a function of its own, so that `set` is small enough to be inlined.
    #[inline(never)]
    fn reset(&mut self, process: ProcessId, instant: Option<u64>)
        requires { process < length self.old.instants }
        ensures { IsReset self.old self.new process instant }
    {
        // For the proof: no process is on the line twice.
        self.holds();
        self.disarm(process);
        if let Some(instant) = instant {
            self.arm(process, instant);
        }
    }

    /// The first process on the line.
    fn first(&self) -> Option<ProcessId>
        ensures value { result ≡ first_of self.now.order }
        ensures known { IfSome result (λ p. p < length self.now.instants) }
    {
        // For the proof: the first process has an instant.
        self.links.holds();
        self.links.front(line())
    }

    /// The instant of the process.
    fn instant(&self, process: ProcessId) -> u64
        requires { process < length self.now.instants }
        ensures { result ≡ instant_of self.now.instants process }
    {
        self.instants[process.place()]
    }

    /// The soonest instant.
    pub fn next_instant(&self) -> Option<u64>
        ensures { result ≡ next_of self.now }
    {
        let process = self.first()?;
        Some(self.instant(process))
    }

    /// Takes the first process off the line if this is its instant.
    pub fn pop_at(&mut self, instant: u64) -> Option<ProcessId>
        ensures value { result ≡ due_at self.old instant }
        ensures known { IfSome result (λ p. p < length self.old.instants) }
        ensures line { self.new ≡ without_due_at self.old instant }
    {
        let process = self.first()?;
        if self.instant(process) != instant {
            return None;
        }
        self.disarm(process);
        Some(process)
    }
}
