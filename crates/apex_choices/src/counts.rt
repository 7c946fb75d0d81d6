//! What a pace counts of each core, as far as it matters.
ghost use Rattle.std.specs.Prelude.{◌≡◌, ℕ, ◌+◌, ◌<◌, ◌≤◌, ◌^◌, ◌==◌, ◌&&◌, if◌then◌else◌};
ghost use Rattle.apex_types.specs.declared.limits.TheConstants.{MOST_CORES};
ghost use Rattle.apex_choices.specs.Counts.{count_at};

use apex_types::{CoreId, MOST_CORE_PLACES};
use std::marker::Model;

/// Of each core, its turns since the last tick, and the ticks since it began its open work.
#[derive(Drop)]
pub struct Counts {
    turns: [u64; MOST_CORE_PLACES],
    worked: [u64; MOST_CORE_PLACES],
}

impl Model for Counts {
    ghost use Rattle.std.specs.Prelude.{◌≡◌, length};
    ghost use Rattle.apex_types.specs.declared.limits.TheConstants.{MOST_CORES};
    ghost use Rattle.apex_choices.specs.Counts.{CountsOfCores};

    ghost Value = { CountsOfCores };

    ghost view = { λ c. record { turns = c.turns; worked = c.worked } };

    ghost invariant = { λ c. (length c.turns ≡ MOST_CORES) × (length c.worked ≡ MOST_CORES) };
}

impl Counts {
    /// No core has had a turn.
    pub fn new() -> Counts
        ensures turns { (core : ℕ) → count_at result.turns core ≡ 0 }
        ensures worked { (core : ℕ) → count_at result.worked core ≡ 0 }
    {
        Counts {
            turns: [0; MOST_CORE_PLACES],
            worked: [0; MOST_CORE_PLACES],
        }
    }

    /// The turns of the core since the last tick.
    pub fn turns(&self, core: CoreId) -> u64
        ensures { result ≡ count_at self.now.turns core }
    {
        self.turns[usize::from(core.number())]
    }

    /// The ticks since the core began its open work.
    pub fn worked(&self, core: CoreId) -> u64
        ensures { result ≡ count_at self.now.worked core }
    {
        self.worked[usize::from(core.number())]
    }

    /// Past the last core nothing is counted.
    pub fn cover_all(&self)
        ensures turns { (core : ℕ) → MOST_CORES ≤ core → count_at self.now.turns core ≡ 0 }
        ensures worked { (core : ℕ) → MOST_CORES ≤ core → count_at self.now.worked core ≡ 0 }
    {
        let (_turns, _worked) = (self.turns[0], self.worked[0]);
    }

    /// The core has had these turns, and has worked for these ticks.
    pub fn set(&mut self, core: CoreId, turns: u64, worked: u64)
        ensures turns { (c : ℕ) → count_at self.new.turns c
            ≡ (if c == core then turns else count_at self.old.turns c) }
        ensures worked { (c : ℕ) → count_at self.new.worked c
            ≡ (if c == core then worked else count_at self.old.worked c) }
    {
        let place = usize::from(core.number());
        self.turns[place] = turns;
        self.worked[place] = worked;
    }

    /// The core has had a turn, which counts unless the partition was in COLD_START before it.
    pub(crate) fn turn(&mut self, core: CoreId, counts: bool)
        requires { count_at self.old.turns core + 1 < 2 ^ 64 }
        ensures turns { (c : ℕ) → count_at self.new.turns c
            ≡ (if counts && c == core then count_at self.old.turns c + 1
            else count_at self.old.turns c) }
        ensures worked { (c : ℕ) → count_at self.new.worked c
            ≡ (if c == core then 0 else count_at self.old.worked c) }
    {
        let place = usize::from(core.number());
        self.worked[place] = 0;
        if counts {
            self.turns[place] += 1;
        }
    }

    /// Time has gone on by these ticks.
    pub(crate) fn tick(&mut self, ticks: u64)
        requires { (core : ℕ) → count_at self.old.worked core + ticks < 2 ^ 64 }
        ensures turns { (core : ℕ) → count_at self.new.turns core ≡ 0 }
        ensures worked { (core : ℕ) → core < MOST_CORES → count_at self.new.worked core
            ≡ count_at self.old.worked core + ticks }
    {
        self.turns = [0; MOST_CORE_PLACES];
        for place in 0..MOST_CORE_PLACES {
            self.worked[place] += ticks;
        }
    }
}
