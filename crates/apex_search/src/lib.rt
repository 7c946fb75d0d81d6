//! A table under a pace as a system that can be searched: a state is a situation in canonical form,
//! with what the pace counts, as words; a choice is a turn of a core or the tick that may come.
#![tactic(auto)]

mod census;
mod laws;
mod questions;
mod steps;
mod systems;
mod worst;

pub use census::{Census, End, Finding};
pub use laws::{answers_say_of_schedules, forms_stand_for_situations, long_responses_are_alike};
pub use questions::Question;
pub use systems::{TableSystem, Workplace};
pub use worst::{Slowest, Worst};
