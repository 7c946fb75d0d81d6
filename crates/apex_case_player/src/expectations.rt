//! The outcome that a case expects.
use crate::differences::TextOutcome;
use crate::reports::Report;
use crate::texts::Text;
use std::alloc::Global;

/// The expected outcome: the texts on standard output and on standard error, and the status.
#[derive(Drop)]
pub(crate) struct Expected<'a> {
    pub(crate) output: Text,
    pub(crate) error: Text,
    pub(crate) status: u64,
    /// The verdict of `check` on the lines, if these differ from run to run; then `output` is
    /// empty.
    pub(crate) verdict: Option<&'a str>,
    /// Whether the outcome must be another one.
    pub(crate) differs: bool,
}

impl<'a> Expected<'a> {
    pub(crate) fn new(alloc: Global) -> Expected<'a> {
        Expected {
            output: Text::new(alloc),
            error: Text::new(alloc),
            status: 0,
            verdict: None,
            differs: false,
        }
    }

    /// Takes a line about the outcome.
    pub(crate) fn put(&mut self, report: &mut Report, field: &str, rest: &'a str, line: &'a str) {
        match field {
            "status" => self.status = report.number_of(rest),
            "verdict" => self.verdict = Some(rest),
            "apex:" => self.error.put_line(line),
            _ => self.output.put_line(line),
        }
    }

    /// The program refuses its table with this fault, if that is not `none`.
    pub(crate) fn put_table_fault(&mut self, fault: &str) {
        if fault != "none" {
            self.error.put("apex: table refused: ");
            self.error.put_line(fault);
            self.status = 3;
        }
    }

    /// Compares the status of an outcome, and the text on standard error.
    pub(crate) fn compare_status(&self, report: &mut Report, outcome: &TextOutcome<'_>) {
        report.compare(self.error.as_str(), outcome.error);
        report.compare_numbers("status", self.status, outcome.status);
    }

    /// Whether no outcome is given.
    pub(crate) fn is_nothing(&self) -> bool {
        let is_silent = self.output.as_str().is_empty() && self.error.as_str().is_empty();
        is_silent && self.verdict.is_none()
    }

    /// Notes the faults of its texts.
    pub(crate) fn blame(&self, report: &mut Report) {
        report.blame_with(&self.output);
        report.blame_with(&self.error);
    }
}
