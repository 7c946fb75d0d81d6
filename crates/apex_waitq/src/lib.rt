//! The wait queues of a partition: the waiters of each object, in the order of its discipline, and
//! their number.
#![tactic(auto)]

mod lists;
mod queues;

pub use lists::wait_list;
pub use queues::WaitQueues;
