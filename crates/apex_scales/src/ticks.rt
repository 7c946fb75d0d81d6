//! The length of a tick on the axis of a trace.
ghost use Rattle.std.specs.Prelude.{◌≡◌, ◌≤◌, Some};
ghost use Rattle.apex_scales.specs.Ticks.{tick_length};
ghost use Rattle.apex_scales.specs.declared.ticks.TheConstants.{LEAST_TICK, LONGEST_TICK};

use std::marker::Model;

/// The least length of a tick, in microseconds: a shorter one has no room for all moments.
pub const LEAST_TICK: u32 = 100;

/// The greatest length of a tick, in microseconds.
pub const LONGEST_TICK: u32 = 100_000;

/// Each limit is the number of this profile.
pub fn limits_of_the_profile()
    ensures least_tick { LEAST_TICK ≡ 100 }
    ensures longest_tick { LONGEST_TICK ≡ 100000 }
{}

/// The length of a tick on the axis of a trace.
#[derive(Clone, Copy)]
pub struct TickLength {
    /// `LEAST_TICK` to `LONGEST_TICK`.
    microseconds: u32,
}

impl Model for TickLength {
    ghost use Rattle.std.specs.Prelude.{◌≤◌, ℕ};
    ghost use Rattle.apex_scales.specs.declared.ticks.TheConstants.{LEAST_TICK, LONGEST_TICK};

    ghost Value = { ℕ };

    ghost view = { λ t. t.microseconds };

    ghost invariant = { λ t. (LEAST_TICK ≤ t.microseconds) × (t.microseconds ≤ LONGEST_TICK) };

    ghost inverse = { λ n. record { microseconds = n } };
}

impl TickLength {
    /// The length of this many microseconds, if it is from `LEAST_TICK` to `LONGEST_TICK`.
    pub fn new(microseconds: u32) -> Option<TickLength>
        ensures { result ≡ tick_length (Some microseconds) }
    {
        if (LEAST_TICK..=LONGEST_TICK).contains(&microseconds) {
            Some(TickLength { microseconds })
        } else {
            None
        }
    }

    /// A millisecond.
    pub fn usual() -> TickLength
        ensures { result ≡ 1000 }
    {
        TickLength {
            microseconds: 1_000,
        }
    }

    /// The length in microseconds, `LEAST_TICK` to `LONGEST_TICK`.
    pub fn microseconds(self) -> u32
        ensures value { result ≡ self }
        ensures range { (LEAST_TICK ≤ result) × (result ≤ LONGEST_TICK) }
    {
        self.microseconds
    }
}
