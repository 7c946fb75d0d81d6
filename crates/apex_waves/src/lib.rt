//! Waves of a partition's history: a value change dump (IEEE 1364) with a signal for each core, each
//! process and each object, for viewers such as GTKWave.
#![tactic(auto)]

mod heads;
mod instants;
mod kinds;
mod laws;
mod levels;
mod names;
mod printing;
mod sheets;
mod signals;
mod values;

pub use laws::times_rise;
pub use printing::print_waves;
pub use sheets::Sheet;
