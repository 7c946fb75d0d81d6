//! What a search of the schedules of a pace says.
#![tactic(auto)]

mod answers;
mod worst;

pub use answers::{SearchAnswer, answer_of};
pub use worst::{WorstAnswer, worst_of};
