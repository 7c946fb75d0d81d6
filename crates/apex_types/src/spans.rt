//! A span of time.
ghost use Rattle.std.specs.Prelude.{◌≡◌, ◌≤◌};

use std::marker::Model;

/// A span of time: 1 to 4,294,967,295 ticks.
#[derive(Clone, Copy, PartialEq, Eq)]
pub struct Span {
    ticks: u32,
}

impl Model for Span {
    ghost use Rattle.std.specs.Prelude.{ℕ, ◌≤◌};
    ghost use Rattle.apex_types.specs.declared.limits.TheConstants.{MOST_SPAN};

    ghost Value = { ℕ };

    ghost view = { λ s. s.ticks };

    ghost invariant = { λ s. (1 ≤ s.ticks) × (s.ticks ≤ MOST_SPAN) };

    ghost inverse = { λ n. record { ticks = n } };
}

impl Span {
    /// The span of n ticks.
    pub fn of(ticks: u32) -> Span
        requires { 1 ≤ ticks }
        ensures { result ≡ ticks }
    {
        Span { ticks }
    }

    /// The number of its ticks.
    pub fn ticks(self) -> u32
        ensures value { result ≡ self }
        ensures range { 1 ≤ result }
    {
        self.ticks
    }
}
