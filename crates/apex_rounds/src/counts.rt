//! What a pace counts of each core.
ghost use Rattle.std.specs.Prelude.{◌≡◌, ℕ, ◌+◌, ◌<◌, ◌≤◌, ◌^◌, ◌==◌, ◌&&◌, if◌then◌else◌};
ghost use Rattle.apex_rounds.specs.Rounds.{count_at};

use apex_types::{CoreId, MOST_CORE_PLACES};
use std::marker::Model;

/// Of each core, its turns since the last tick, and the instant of its last turn.
#[derive(Drop)]
pub(crate) struct Counts {
    turns: [u32; MOST_CORE_PLACES],
    since: [u64; MOST_CORE_PLACES],
}

impl Model for Counts {
    ghost use Rattle.std.specs.Prelude.{◌≡◌, length};
    ghost use Rattle.apex_types.specs.declared.limits.TheConstants.{MOST_CORES};
    ghost use Rattle.apex_rounds.specs.Rounds.{CountsOfCores};

    ghost Value = { CountsOfCores };

    ghost view = { λ c. record { turns = c.turns; since = c.since } };

    ghost invariant = { λ c. (length c.turns ≡ MOST_CORES) × (length c.since ≡ MOST_CORES) };
}

impl Counts {
    /// No core has had a turn.
    pub(crate) fn new() -> Counts
        ensures turns { (core : ℕ) → count_at result.turns core ≡ 0 }
        ensures since { (core : ℕ) → count_at result.since core ≡ 0 }
    {
        Counts {
            turns: [0; MOST_CORE_PLACES],
            since: [0; MOST_CORE_PLACES],
        }
    }

    /// The turns of the core since the last tick.
    pub(crate) fn turns(&self, core: CoreId) -> u32
        ensures { result ≡ count_at self.now.turns core }
    {
        self.turns[usize::from(core.number())]
    }

    /// The instant of the core's last turn, in ticks.
    pub(crate) fn since(&self, core: CoreId) -> u64
        ensures { result ≡ count_at self.now.since core }
    {
        self.since[usize::from(core.number())]
    }

    /// The core has had a turn now, which counts unless the partition was in COLD_START before it.
    pub(crate) fn turn(&mut self, core: CoreId, now: u64, counts: bool)
        requires { count_at self.old.turns core + 1 < 2 ^ 32 }
        ensures turns { (c : ℕ) → count_at self.new.turns c
            ≡ (if counts && c == core then count_at self.old.turns c + 1
            else count_at self.old.turns c) }
        ensures since { (c : ℕ) → count_at self.new.since c
            ≡ (if c == core then now else count_at self.old.since c) }
    {
        let place = usize::from(core.number());
        self.since[place] = now;
        if counts {
            self.turns[place] += 1;
        }
    }

    /// Time has gone on.
    pub(crate) fn tick(&mut self)
        ensures turns { (core : ℕ) → count_at self.new.turns core ≡ 0 }
        ensures since { self.new.since ≡ self.old.since }
    {
        self.turns = [0; MOST_CORE_PLACES];
    }
}
