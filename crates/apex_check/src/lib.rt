//! The streaming checker of one avionics partition's printed history: a table, `%%`, and lines.
#![tactic(auto)]

mod checking;
mod expected;
mod following;
mod tables;
mod verdicts;

pub use checking::{Followed, check, follow};
pub use tables::{LeadingFault, leading_table};
pub use verdicts::{CheckFault, Verdict, verdict_text};
