//! The lines of a text as they come from a reader, and the turn that a line names: what is found by
//! looking at many bytes at once.
#![tactic(auto)]

mod lanes;
mod leading;
mod pending;

pub use leading::turn_ahead;
pub use pending::{Next, Pending};
