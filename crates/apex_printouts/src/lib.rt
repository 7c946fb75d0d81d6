//! The texts of what a search says: of its answer, of the greatest response, and of a census.
#![tactic(auto)]

mod answers;
mod census;
mod texts;
mod worst;

pub use answers::print_answer;
pub use census::print_census;
pub use worst::print_worst;
