//! The command line of the program `apex_lab`, read into a task: a run that is to be shown or dumped, a
//! search, a lint, a session, a history to explain, or the reason of an entry.
#![tactic(auto)]

mod faults;
mod lints;
mod names;
mod numbers;
mod questions;
mod tasks;
mod windows;
mod words;

pub use faults::{TaskFault, USAGE};
pub use lints::Lint;
pub use numbers::limits_of_the_profile;
pub use tasks::{Task, Why, task_asked};
