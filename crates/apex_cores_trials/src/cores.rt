//! Runs whose cores and ticker are threads, and workers on their own.

mod contention;
mod crews;
mod gates;
mod meetings;
mod outlines;
mod reading;
mod refusals;
mod values;
mod workers;

pub use crews::is_weathered;
pub use reading::reads_beside_holder;
pub use workers::{Shift, makes_ticks, makes_turns};
