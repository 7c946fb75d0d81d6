//! A store of processes that keeps the ready processes, the waiters, the timers and the owners of
//! mutexes in linked lists, and finds each without a scan.
#![tactic(auto)]

mod lists;
mod owners;
mod queue_store;

pub use queue_store::QueueStore;
