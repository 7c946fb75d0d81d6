//! The timers of a partition: the dues and the deadlines, and the next instant among them.
#![tactic(auto)]

mod timeline;
mod timers;

pub use timeline::Timeline;
pub use timers::Timers;
