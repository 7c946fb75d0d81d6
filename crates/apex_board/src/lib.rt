//! The board of a partition: the front that it publishes, and the readers, which never take its lock.
#![tactic(auto)]

mod access;
mod boards;
mod fronts;
mod law;
mod publishers;
mod readers;
mod steps;

pub use boards::{Board, MOST_READERS, NewBoard, limits_of_the_profile};
pub use fronts::Front;
pub use publishers::Publisher;
pub use readers::Reader;
