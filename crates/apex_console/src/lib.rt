//! What the programs have in common: the words that they are given, their faults, and a run by a
//! schedule with its reports.
#![tactic(auto)]

mod events;
mod faults;
mod given;
mod kernels;
mod reports;
mod streams;
mod words;

pub use events::{repeated, run_items};
pub use faults::{CliFault, fault_line};
pub use given::given_words;
pub use kernels::{booted, kernel_for, ran, table_for};
pub use reports::{Report, Run, run_of, write_report};
pub use streams::write_error;
pub use words::{
    Argument, bare_line, has_flag, matches_of, scheduled_items, with_arguments, with_command,
};
