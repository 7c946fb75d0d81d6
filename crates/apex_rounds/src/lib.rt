//! Runs a table without a schedule: the first schedule of a pace, up to a time.
#![tactic(auto)]

mod at_pace;
mod counts;
mod rounds;

pub use rounds::Rounds;
