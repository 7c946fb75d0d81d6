//! The program `apex_lab` except for its `main`: it does what the words ask for over a reader and a
//! writer, and reports a fault or a departure on a third stream.
#![tactic(auto)]

mod checking;
mod dumping;
mod ends;
mod faults;
mod linting;
mod listed;
mod program;
mod stepping;
mod whys;

pub use program::serve;
