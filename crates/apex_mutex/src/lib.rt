//! The services of mutexes (this profile), over any store.
//!
//! A mutex is an object of its kind. The record of its owner has the mutex and the depth. An owner
//! that leaves it hands it over to its first waiter.
#![tactic(auto)]

mod mutexes;

pub use mutexes::Mutex;
