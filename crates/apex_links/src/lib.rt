//! Linked lists of processes, by index: a process is in at most one list at a time, and each change
//! touches only its neighbours.
#![tactic(auto)]

mod chains;
mod links;
mod lists;
mod numbers;
mod placing;
mod visits;

pub use links::LinkSet;
pub use lists::ListId;
pub use numbers::{ALL_LISTS, ID_PLACES, PRIORITIES, QUEUE_KINDS, QUEUE_LISTS, READY_LISTS};
pub use placing::Test;
pub use visits::Visits;
