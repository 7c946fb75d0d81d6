//! The choices of a situation at a pace: a turn of each core and the tick that may come, the event
//! that each makes, and what the pace counts after it.
#![tactic(auto)]

mod counts;
mod events;
mod in_table;
mod paced;

pub use counts::Counts;
pub use paced::PacedSituation;
