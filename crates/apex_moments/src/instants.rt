//! Instants: where the moment after an entry is on the axis of a trace.
ghost use Rattle.std.specs.Prelude.{◌≡◌, ◌≤◌};
ghost use Rattle.apex_types.specs.Limits.{latest};
ghost use Rattle.apex_types.specs.declared.limits.TheConstants.{MOST_ENTRIES};
ghost use Rattle.apex_moments.specs.Instants.{next_instant, opening_instant, time_at};
ghost use Rattle.apex_moments.specs.declared.instants.TheConstants.{WIDE_MOMENTS};

use apex_scales::TickLength;

/// The moments of one time that are a thousandth of a tick apart on an axis. Those behind them are a
/// hundredth of that apart.
pub const WIDE_MOMENTS: u64 = 100;

/// Each limit is the number of this profile.
pub fn limits_of_the_profile()
    ensures { WIDE_MOMENTS ≡ 100 }
{}

/// The instant of a moment: its time, and its place among the moments of that time.
#[derive(Clone, Copy)]
pub struct Instant {
    /// In ticks.
    pub now: u64,
    /// The number of moments before it at the same time.
    pub place: u32,
}

impl Instant {
    /// The instant of the moment before any entry.
    pub fn opening() -> Instant
        ensures { result ≡ opening_instant }
    {
        Instant { now: 0, place: 0 }
    }

    /// The instant after this one, at which the time is `now`.
    pub fn next(self, now: u64) -> Instant
        requires { self.place ≤ MOST_ENTRIES }
        ensures { result ≡ next_instant self now }
    {
        if now == self.now {
            Instant {
                now,
                place: self.place + 1,
            }
        } else {
            Instant { now, place: 0 }
        }
    }

    /// The time of the instant in nanoseconds, for ticks of this length.
    pub fn time(self, tick: TickLength) -> u64
        requires time { self.now ≤ latest }
        ensures { result ≡ time_at tick self }
    {
        let (tick, place) = (u64::from(tick.microseconds()), u64::from(self.place));
        let within = if place < WIDE_MOMENTS {
            tick * place
        } else {
            tick * WIDE_MOMENTS + tick * (place - WIDE_MOMENTS) / 100
        };
        1_000 * tick * self.now + within
    }
}
