//! What the program wrote so far in a case, and what it is to answer next.
use crate::differences::whole_lines;
use crate::faults::CaseFault;
use crate::reports::Report;
use crate::texts::Text;
use std::alloc::Global;

/// What the attempts of a case brought about so far.
#[derive(Drop)]
pub(crate) struct Progress {
    /// The output of the case as it is.
    pub(crate) whole: Text,
    /// The lines that are to be checked.
    pub(crate) written: Text,
    /// The verdict that they are to have, or what is expected of a changed line.
    pub(crate) wanted: Text,
    /// Whether there are lines that are to be checked.
    pub(crate) is_to_check: bool,
    /// The number of cuts that were answered as the whole table.
    pub(crate) accepted: u64,
    /// The number of bytes of the shortest of these.
    pub(crate) shortest: usize,
}

impl Progress {
    pub(crate) fn new(alloc: Global) -> Progress {
        Progress {
            whole: Text::new(alloc),
            written: Text::new(alloc),
            wanted: Text::new(alloc),
            is_to_check: false,
            accepted: 0,
            shortest: usize::MAX,
        }
    }

    /// The lines are to be checked, and to be legal.
    pub(crate) fn ask_check(&mut self, lines: &str) {
        self.written.clear();
        self.written.put(lines);
        self.wanted.clear();
        self.wanted.put("legal ");
        self.wanted.put_number(lines.lines().count() as u64);
        self.is_to_check = true;
    }

    /// The whole lines among those that were written are fewer than all, and are to be checked.
    pub(crate) fn check_part(&mut self, report: &mut Report, output: &str) {
        let lines = whole_lines(output);
        let is_shorter = lines.lines().count() < self.whole.as_str().lines().count();
        report.require(is_shorter, "the output is shorter than the whole one");
        self.ask_check(lines);
    }

    /// What was written is a prefix of the whole output, and not all.
    pub(crate) fn require_part(&self, report: &mut Report, output: &str) {
        let whole = self.whole.as_str();
        let is_prefix = whole.starts_with(output) && output.len() < whole.len();
        report.require(is_prefix, "the output is a prefix of the whole one");
    }

    /// Counts the cut after this number of bytes, unless the report has a fault; forgives a
    /// difference if the program refuses the cut table.
    pub(crate) fn count_cut(&mut self, report: &mut Report, end: usize, is_refused: bool) {
        match report.fault() {
            None => {
                self.accepted = self.accepted.saturating_add(1);
                self.shortest = self.shortest.min(end);
            }
            Some(CaseFault::Differs) if is_refused => {
                self.is_to_check = false;
                report.clear_fault();
            }
            Some(_) => {}
        }
    }

    /// Notes that a text lacks a piece.
    pub(crate) fn blame(&self, report: &mut Report) {
        report.blame_with(&self.whole);
        report.blame_with(&self.written);
        report.blame_with(&self.wanted);
    }
}
