//! The services of semaphores (ARINC 653 Part 1, intrapartition communication), over any store.
//!
//! A semaphore is an object of its kind: each service takes what it needs of the store, answers a
//! reply, and appends what it did to other processes to the notices.
#![tactic(auto)]

mod semaphores;

pub use semaphores::Semaphore;
