//! The warnings of a table: what a table that is read can hardly mean (this profile).
#![tactic(auto)]

mod acts;
mod entries;
mod found;
mod objects;
mod owning;
mod process_warnings;
mod reasons;
mod step_warnings;
mod steps;
mod texts;
mod warning_words;
mod warnings;

pub use objects::Group;
pub use process_warnings::ProcessWarning;
pub use reasons::{
    aperiodic_waits_are_refused, periodic_processes_are_not_suspended, unfit_messages_are_refused,
};
pub use step_warnings::StepWarning;
pub use warning_words::{allowed_in, is_among};
pub use warnings::{Warning, lint};
