//! The further trials of a case.
use crate::reports::Report;

/// The further trials of a case, each with its number in the case.
#[derive(Clone, Copy)]
pub(crate) struct Trials {
    /// Each of the reads fails in turn, up to this one, which is the last one.
    pub(crate) reads: Option<u64>,
    /// Each of the writes on standard output fails in turn, up to this one.
    pub(crate) writes: Option<u64>,
    /// The table is cut after each byte. This number of prefixes are answered as the whole table
    /// is; each other one is refused.
    pub(crate) cuts: Option<u64>,
    /// Each byte of this number of lines after the separator is changed in turn.
    pub(crate) changes: Option<usize>,
}

impl Trials {
    pub(crate) fn none() -> Trials {
        Trials {
            reads: None,
            writes: None,
            cuts: None,
            changes: None,
        }
    }

    /// Takes a line about a further trial; whether it is one.
    pub(crate) fn put(&mut self, report: &mut Report, field: &str, rest: &str) -> bool {
        match field {
            "reads" => self.reads = Some(report.number_of(rest)),
            "writes" => self.writes = Some(report.number_of(rest)),
            "cuts" => self.cuts = Some(report.number_of(rest)),
            "changes" => self.changes = Some(report.number_of(rest) as usize),
            _ => return false,
        }
        true
    }
}
