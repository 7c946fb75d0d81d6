//! The remarks on a table's text: a fault or a warning, with its place and its text (this profile).
#![tactic(auto)]

mod remarks;

pub use remarks::{Remark, Severity, remarks_on_faults, remarks_on_table};
