//! The plan of a run.

/// The plan of a run (this profile).
#[derive(Clone, Copy, PartialEq, Eq)]
pub struct RunPlan {
    /// The turns of each core.
    pub turns: u32,
    /// The ticks of the ticker, each of 1.
    pub ticks: u32,
}
