//! The ready orders of a partition's cores: for each core and each priority the ready processes,
//! the longest ready first, and for each core the priorities that have a ready process.
#![tactic(auto)]

mod lists;
mod orders;

pub use lists::ready_list;
pub use orders::ReadyOrders;
