//! A search of the schedules of a pace, for the table that a reader has: for one fact, for each fact, or
//! for the greatest response of a process. Its progress is shown on a terminal.
#![tactic(auto)]

mod endings;
mod progress;
mod searching;

pub use endings::{SearchEnding, SearchFault};
pub use progress::Progress;
pub use searching::run_search;
