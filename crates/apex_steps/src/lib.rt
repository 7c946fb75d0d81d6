//! A session over a table's kernel: commands come in lines, and each is answered at once.
#![tactic(auto)]

mod answers;
mod busy;
mod commands;
mod conversations;
mod desks;
mod faults;
mod refusals;
mod sayings;
mod sessions;

pub use conversations::{converse, serve_steps};
pub use faults::StepFault;
pub use sessions::Session;
