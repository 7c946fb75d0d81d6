//! The states that a search has reached, each once, and where each of them comes from. What states
//! have in common is kept once.
#![tactic(auto)]

mod batches;
mod expansions;
mod finds;
mod halves;
mod index;
mod keeping;
mod nodes;
mod pairs;
mod registers;
mod roots;
mod rows;
mod states;
mod words;

pub use batches::Batch;
pub use expansions::Expansion;
pub use finds::Finds;
pub use states::{Origin, States};
