//! The judgement on each attempt of a case: its outcome beside the expected one.
use crate::attempts::{Attempt, Calls, Change, Part};
use crate::cases::Case;
use crate::differences::{TextOutcome, compare_parts, compare_refusal};
use crate::faults::CaseFault;
use crate::plans::{Kind, Written};
use crate::reports::Report;
use crate::requests::Outcome;
use crate::rows::cut_line;

impl<'a> Case<'a> {
    /// Judges the outcome of an attempt; the difference is in the report. Whether the lines that
    /// the program wrote are to be checked.
    pub fn judge(&mut self, report: &mut Report, attempt: Attempt, outcome: &Outcome<'_>) -> bool {
        attempt.begin(report);
        self.progress.is_to_check = false;
        match TextOutcome::of(outcome) {
            Ok(outcome) => self.judge_text(report, attempt, &outcome),
            Err(fault) => report.blame(fault),
        }
        self.progress.is_to_check
    }

    fn judge_text(&mut self, report: &mut Report, attempt: Attempt, outcome: &TextOutcome<'_>) {
        match attempt {
            Attempt::Whole => self.judge_whole(report, outcome),
            Attempt::Check => self.judge_check(report, outcome),
            Attempt::Fail(Calls::Reads, _) => {
                report.compare_numbers("calls that fail", 1, outcome.failed_reads);
                compare_refusal(report, outcome, 6, "apex: read failed\n");
            }
            Attempt::Fail(Calls::Writes, _) => self.judge_failure(report, outcome),
            Attempt::Pass(calls, _) => {
                let failed = match calls {
                    Calls::Reads => outcome.failed_reads,
                    Calls::Writes => outcome.failed_writes,
                };
                report.compare_numbers("calls that fail", 0, failed);
                self.compare_outcome(report, outcome);
            }
            Attempt::Cut(end) => self.judge_cut(report, end, outcome),
            Attempt::Change(change) => self.judge_change(report, change, outcome),
        }
    }

    /// Compares an outcome with the expected one.
    fn compare_outcome(&mut self, report: &mut Report, outcome: &TextOutcome<'_>) {
        self.expected.compare_status(report, outcome);
        match self.expected.verdict {
            Some(verdict) => {
                compare_parts(report, self.lines, outcome.output);
                self.progress.ask_check(outcome.output);
                report.compare(verdict, self.progress.wanted.as_str());
            }
            None => self.compare_output(report, outcome.output),
        }
    }

    /// Compares what is on standard output, which has room for a part of it.
    fn compare_output(&self, report: &mut Report, got: &str) {
        let output = self.expected.output.as_str();
        match self.kind {
            Kind::Row => report.compare_end(output, got),
            Kind::Example(_) => {
                report.compare(output.get(..self.devices.room).unwrap_or(output), got)
            }
            Kind::Reading { .. } => self.compare_reading(report, got),
        }
    }

    /// Compares the number of lines of a reading's output: the one of its turn, or none if the
    /// program refuses its table.
    fn compare_reading(&self, report: &mut Report, got: &str) {
        let wanted = u64::from(self.expected.status == 0);
        report.compare_numbers("lines", wanted, got.lines().count() as u64);
    }

    /// Judges the outcome of the case as it is. The lines of a replay are legal: `check` makes them
    /// by a kernel over the other store.
    fn judge_whole(&mut self, report: &mut Report, outcome: &TextOutcome<'_>) {
        self.progress.whole.put(outcome.output);
        if self.arguments.is_for("replay")
            && outcome.failed_writes == 0
            && !outcome.output.is_empty()
        {
            self.progress.ask_check(outcome.output);
        }
        self.compare_outcome(report, outcome);
    }

    /// Judges the verdict of `check` on the lines that the program wrote.
    fn judge_check(&self, report: &mut Report, outcome: &TextOutcome<'_>) {
        let wanted = self.progress.wanted.as_str();
        let verdict = outcome.output.trim_end();
        if self.expected.verdict.is_some() {
            report.compare(wanted, verdict);
            report.compare_numbers("status of check", 0, outcome.status);
        } else if verdict != wanted || outcome.status != 0 {
            report.blame(CaseFault::Plain);
        }
    }

    /// Judges the outcome if a write fails: it fails alone, the program says so, and what it wrote
    /// is a prefix of the whole output, and not all. The lines of a run by threads differ from run
    /// to run: the whole ones among those that were written are legal, and not all.
    fn judge_failure(&mut self, report: &mut Report, outcome: &TextOutcome<'_>) {
        report.compare_numbers("calls that fail", 1, outcome.failed_writes);
        report.compare_numbers("status", 6, outcome.status);
        report.compare("apex: write failed\n", outcome.error);
        if self.expected.verdict.is_some() && self.arguments.is_for("run") {
            self.progress.check_part(report, outcome.output);
        } else {
            self.progress.require_part(report, outcome.output);
        }
    }

    /// Judges the answer to the table cut after this number of bytes, which is that to the whole
    /// one, or a refusal.
    fn judge_cut(&mut self, report: &mut Report, end: usize, outcome: &TextOutcome<'_>) {
        self.compare_outcome(report, outcome);
        self.progress.count_cut(report, end, outcome.is_refused());
    }

    /// Judges the verdict on a history of which this byte was changed: on standard output if its
    /// line departs, and else on standard error.
    fn judge_change(&mut self, report: &mut Report, change: Change, outcome: &TextOutcome<'_>) {
        let (_, lines) = cut_line(self.after.as_str());
        change.put_wanted(&mut self.progress.wanted, lines);
        let wanted = self.progress.wanted.as_str();
        match change.part {
            Part::Core => report.compare("", outcome.error),
            Part::Name => return compare_refusal(report, outcome, 3, wanted),
            Part::Rest => report.compare(wanted, outcome.output),
        }
        report.compare_numbers("status", 1, outcome.status);
    }

    /// Ends the case, all attempts of which were made, and reports how it is as it should be, or
    /// its fault.
    pub fn end(&self, report: &mut Report, written: &Written<'_>) {
        report.begin("", 0);
        if let Some(wanted) = self.trials.cuts {
            self.compare_cuts(report, wanted);
        }
        if let Some(wanted) = self.trials.changes {
            let (_, lines) = cut_line(self.after.as_str());
            let got = lines.lines().count().min(wanted);
            report.compare_numbers("lines", wanted as u64, got as u64);
        }
        self.progress.blame(report);
        report.end_case(written, self.expected.differs);
    }

    /// Compares the number of cuts that are accepted with the expected one, and the shortest one of
    /// a reading with the table without its last line feed.
    fn compare_cuts(&self, report: &mut Report, wanted: u64) {
        if let Kind::Reading { table, .. } = self.kind {
            let end = table.trim_end().len();
            let got = self.progress.shortest.min(table.len());
            report.compare_numbers("bytes that are accepted", end as u64, got as u64);
        }
        report.compare_numbers("cuts that are accepted", wanted, self.progress.accepted);
    }
}
