//! A pace's two numbers.
ghost use Rattle.std.specs.Prelude.{◌≡◌, ◌<◌, ◌^◌};
ghost use Rattle.apex_pace.specs.Pace.{least_ticks};
ghost use Rattle.apex_pace.specs.declared.paces.TheConstants.{USUAL_TURNS};

/// The turns of a pace that is not chosen (this profile).
pub const USUAL_TURNS: u32 = 8;

/// Each limit is the number of this profile.
pub fn limits_of_the_profile()
    ensures { USUAL_TURNS ≡ 8 }
{}

/// How fast the cores are and how long work takes (this profile).
#[derive(Clone, Copy, PartialEq, Eq)]
pub struct Pace {
    /// The turns that a core has before time may pass while it has a process to run.
    pub turns: u32,
    /// How many percent of its ticks work takes at least.
    pub percent: u8,
}

/// The least ticks that work of this amount in ticks takes.
pub(crate) fn least_ticks(percent: u8, amount: u32) -> u64
    ensures value { result ≡ least_ticks percent amount }
    ensures range { result < 2 ^ 40 }
{
    (u64::from(percent) * u64::from(amount) + 99) / 100
}
