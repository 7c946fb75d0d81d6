//! The services of blackboards and of event flags (ARINC 653 Part 1, intrapartition communication),
//! over any store.
//!
//! Each is an object of its kind. A display and a set release every process that waits, in the
//! order in which they wait.
#![tactic(auto)]

mod blackboards;
mod event_flags;

pub use blackboards::Blackboard;
pub use event_flags::EventFlag;
