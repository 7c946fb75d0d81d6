//! The program `apex` except for its `main`: it does what the words ask for over a reader and a
//! writer, and reports a fault on a third stream.
#![tactic(auto)]

mod fronts;
mod program;
mod runs;
mod tasks;
mod words;

pub use program::{Ending, Exit, run_on, serve};
