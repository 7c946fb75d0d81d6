//! Reads cases, gives the requests by which a program plays them, and reports each difference in
//! its outcomes: the cases of the services by their rows, and the examples, each a table
//! with its cases and its readings.
#![tactic(auto)]

mod arguments;
mod attempts;
mod cases;
mod details;
mod devices;
mod differences;
mod expectations;
mod faults;
mod folders;
mod folds;
mod judgements;
mod outlines;
mod plans;
mod progress;
mod reports;
mod requests;
mod rows;
mod texts;
mod trials;

pub use attempts::{Attempt, Calls, Part};
pub use cases::Case;
pub use faults::CaseFault;
pub use folders::{CaseFile, read_folder};
pub use folds::unfolded;
pub use plans::{Entry, Kind, Plan, Written};
pub use reports::Report;
pub use requests::{Outcome, Request};
pub use texts::Text;
