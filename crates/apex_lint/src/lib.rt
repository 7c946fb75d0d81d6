//! The report on a table's text: a line or an object of JSON for each remark (this profile).
#![tactic(auto)]

mod reports;

pub use reports::{LintVerdict, Report, report_on, reports_have_a_line_for_each_remark};
