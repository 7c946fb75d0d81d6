//! A kernel that runs at a pace.
ghost use Rattle.std.specs.Prelude.{◌≡◌, ◌<◌, ◌≤◌, [], ◌∷◌, not, IfErr, IfOk, IfSome};
ghost use Rattle.apex_types.specs.declared.entries.Event.TheVariants.{Turn, Tick};
ghost use Rattle.apex_types.specs.declared.limits.TheConstants.{MOST_TICKS};
ghost use Rattle.apex_machine.specs.Machine.{opening, run};
ghost use Rattle.apex_pace.specs.First.{first_schedule, takes_turn};
ghost use Rattle.apex_pace.specs.Pace.{next_tick};
ghost use Rattle.apex_rounds.specs.Rounds.{IsAtOpening, Makes, is_any, paced_in, part_from, schedule_from, tick_from, turns_from};

use crate::counts::Counts;
use apex_dispatch::Kernel;
use apex_pace::{AtPace, Pace, next_tick, takes_turn};
use apex_store::Store;
use apex_types::{CoreId, Event, Full};
use std::marker::Model;

/// A kernel that runs at a pace, and what the pace counts of each of its cores.
#[derive(Drop)]
pub struct Rounds<S: Store> {
    pub(crate) kernel: Kernel<S>,
    pub(crate) pace: Pace,
    pub(crate) counts: Counts,
}

impl<S: Store> Model for Rounds<S> {
    ghost use Rattle.std.specs.Prelude.{length};
    ghost use Rattle.apex_rounds.specs.Rounds.{AreWithin, RoundsState};

    ghost Value = { RoundsState S };

    ghost view = { λ r. record { kernel = r.kernel; pace = r.pace; counts = r.counts } };

    ghost invariant = { λ r. AreWithin r.counts (length r.kernel.machine.history)
        r.kernel.machine.roster.now };
}

impl<S: Store> Rounds<S> {
    /// The kernel, before any event, at this pace.
    pub fn new(kernel: Kernel<S>, pace: Pace) -> Rounds<S>
        requires { kernel.machine ≡ opening kernel.table }
        ensures kernel { result.kernel ≡ kernel }
        ensures pace { result.pace ≡ pace }
        ensures opening { IsAtOpening result }
    {
        Rounds {
            kernel,
            pace,
            counts: Counts::new(),
        }
    }

    /// The kernel, in the state that its events have led to.
    pub fn kernel(&self) -> &Kernel<S>
        ensures { result.now ≡ self.now.kernel }
    {
        &self.kernel
    }

    /// The kernel, in the state that its events have led to.
    pub fn into_kernel(self) -> Kernel<S>
        ensures { result ≡ self.kernel }
    {
        let Rounds { kernel, .. } = self;
        kernel
    }

    /// The core takes a turn in a round.
    fn takes_turn(&self, core: CoreId) -> bool
        ensures { result
            ≡ takes_turn self.now.pace self.now.kernel.table (paced_in self.now) core }
    {
        takes_turn(self, self.pace, core)
    }

    /// The tick that may come.
    fn next_tick(&self) -> Option<u32>
        ensures value { result
            ≡ next_tick self.now.pace self.now.kernel.table (paced_in self.now) }
        ensures range { IfSome result (λ n. (1 ≤ n) × (n ≤ MOST_TICKS)) }
    {
        self.kernel.holds();
        next_tick(self, self.pace)
    }

    /// A turn of the core, and what the pace counts after it. `Full` if the history has no room for
    /// it, and then nothing changes.
    fn turn(&mut self, core: CoreId) -> Result<(), Full>
        requires { core < self.old.kernel.table.cores }
        ensures makes { Makes result self.old self.new (Turn core ∷ []) }
        ensures full { IfErr result (λ e. e.entries ≡ self.old.kernel.table.limit) }
    {
        self.kernel.holds();
        let counts = !self.is_starting();
        self.kernel.accept(Event::Turn(core))?;
        self.counts.turn(core, self.kernel.now(), counts);
        Ok(())
    }

    /// A tick of `n`, and what the pace counts after it. `Full` if the history has no room for it,
    /// and then nothing changes.
    fn tick(&mut self, n: u32) -> Result<(), Full>
        requires { (1 ≤ n) × (n ≤ MOST_TICKS) }
        ensures makes { Makes result self.old self.new (Tick n ∷ []) }
        ensures full { IfErr result (λ e. e.entries ≡ self.old.kernel.table.limit) }
    {
        self.kernel.holds();
        self.kernel.accept(Event::Tick(n))?;
        self.counts.tick();
        Ok(())
    }

    /// A round: each core in order takes the turn that it is allowed. Answers whether any did.
    fn round(&mut self) -> Result<bool, Full>
        ensures makes { Makes result self.old self.new (turns_from self.old) }
        ensures any { IfOk result (λ any. any ≡ is_any (turns_from self.old)) }
        ensures full { IfErr result (λ e. e.entries ≡ self.old.kernel.table.limit) }
    {
        self.kernel.holds();
        let mut any = false;
        for number in 0..self.kernel.table().cores() {
            let core = CoreId::new(number);
            if self.takes_turn(core) {
                self.turn(core)?;
                any = true;
            }
        }
        Ok(any)
    }

    /// The tick that may come, up to the time. Answers whether the schedule goes on after it.
    fn close(&mut self, until: u64) -> Result<bool, Full>
        requires { self.old.kernel.machine.roster.now < until }
        ensures makes { Makes result self.old self.new (tick_from self.old until).events }
        ensures goes_on { IfOk result (λ goes_on. goes_on ≡ not (tick_from self.old until).ends) }
        ensures full { IfErr result (λ e. e.entries ≡ self.old.kernel.table.limit) }
    {
        self.kernel.holds();
        let left = until - self.kernel.now();
        match self.next_tick() {
            Some(ticks) if u64::from(ticks) < left => {
                self.tick(ticks)?;
                Ok(true)
            }
            Some(_) => {
                self.tick(left as u32)?;
                Ok(false)
            }
            None => Ok(false),
        }
    }

    /// A round, or the tick if it has no turn. Answers whether the schedule goes on after it.
    fn part(&mut self, until: u64) -> Result<bool, Full>
        requires { self.old.kernel.machine.roster.now < until }
        ensures makes { Makes result self.old self.new (part_from self.old until).events }
        ensures goes_on { IfOk result (λ goes_on. goes_on ≡ not (part_from self.old until).ends) }
        ensures full { IfErr result (λ e. e.entries ≡ self.old.kernel.table.limit) }
    {
        Ok(self.round()? || self.close(until)?)
    }

    /// Makes the events of the first schedule of the pace from here up to a time in ticks, or until
    /// the partition is at rest. `Full` if the history has no room for all of them; then those for
    /// which it has room are made (this profile).
    pub fn run_until(&mut self, until: u64) -> Result<(), Full>
        ensures makes { Makes result self.old self.new (schedule_from self.old until) }
        ensures first { IsAtOpening self.old → self.new.kernel.machine
            ≡ run self.old.kernel.table (opening self.old.kernel.table)
            (first_schedule self.old.pace self.old.kernel.table until) }
        ensures full { IfErr result (λ e. e.entries ≡ self.old.kernel.table.limit) }
    {
        self.kernel.holds();
        while self.kernel.now() < until {
            if !self.part(until)? {
                return Ok(());
            }
        }
        Ok(())
    }
}
