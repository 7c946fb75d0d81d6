//! The report on the rows and on the examples, line by line.
ghost use Rattle.std.specs.Prelude.{◌≡◌, ◌-◌, length, drop, IsNone, IsTrue, false};

use crate::details::Detail;
use crate::faults::CaseFault;
use crate::plans::{Kind, Written};
use crate::rows::is_silent;
use crate::texts::Text;
use std::alloc::Global;

/// The numbers of what the report is on so far.
#[derive(Clone, Copy)]
pub(crate) struct Counts {
    rows: u64,
    pub(crate) guards: u64,
    pub(crate) effects: u64,
    cases: u64,
    examples: u64,
    histories: u64,
    /// The readings of one table that are as expected.
    readings: u64,
}

/// The report so far.
#[derive(Drop)]
pub struct Report {
    text: Text,
    /// The last difference.
    detail: Detail,
    /// The first fault of the case or the reading at hand.
    fault: Option<CaseFault>,
    is_clean: bool,
    pub(crate) counts: Counts,
}

impl Report {
    pub fn new(alloc: Global) -> Report {
        Report {
            text: Text::new(alloc),
            detail: Detail::new(alloc),
            fault: None,
            is_clean: true,
            counts: Counts {
                rows: 0,
                guards: 0,
                effects: 0,
                cases: 0,
                examples: 0,
                histories: 0,
                readings: 0,
            },
        }
    }

    /// The text of the report; `Memory` if a piece of it is missing.
    pub fn text(&self) -> Result<&str, CaseFault> {
        self.text.whole()
    }

    /// Whether nothing was reported that is not as it should be.
    pub fn is_clean(&self) -> bool
        ensures { result ≡ self.now.is_clean }
    {
        self.is_clean
    }

    /// Reports the number of cases of a row.
    pub(crate) fn count(&mut self, row: &str, cases: u64)
        ensures { self.new.is_clean ≡ self.old.is_clean }
    {
        self.counts.rows = self.counts.rows.saturating_add(1);
        self.counts.cases = self.counts.cases.saturating_add(cases);
        let noun = if cases == 1 { " case\n" } else { " cases\n" };
        self.text.put_named_count(row, cases, noun);
    }

    /// Reports how a case of an example is as it should be.
    pub(crate) fn confirm(&mut self, example: &str, case: &str, how: &str)
        ensures { self.new.is_clean ≡ self.old.is_clean }
    {
        self.text.put_item(example, case, how);
    }

    /// Reports the number of readings of an example's table that are as expected, and begins anew.
    pub fn total_of_readings(&mut self, example: &str)
        ensures { self.new.is_clean ≡ self.old.is_clean }
    {
        let noun = " readings as expected\n";
        self.text
            .put_named_count(example, self.counts.readings, noun);
        self.counts.readings = 0;
    }

    /// Counts an example and its cases.
    pub(crate) fn count_example(&mut self, cases: u64) {
        self.counts.examples = self.counts.examples.saturating_add(1);
        self.counts.histories = self.counts.histories.saturating_add(cases);
    }

    /// Reports the complaint about a guard, an effect, a case or a reading.
    pub(crate) fn complain(&mut self, group: &str, name: &str, what: &str)
        ensures { self.new.is_clean ≡ false }
    {
        self.is_clean = false;
        self.text.put_item(group, name, what);
    }

    /// Complains of a case or a reading by its fault, or by the last difference.
    fn complain_of(&mut self, written: &Written<'_>, fault: CaseFault)
        ensures { self.new.is_clean ≡ false }
    {
        if !matches!(fault, CaseFault::Differs) {
            return self.complain(written.group, written.name, fault.text());
        }
        self.is_clean = false;
        self.detail
            .put_item(&mut self.text, written.group, written.name);
    }

    /// Complains of each line of a text that says something.
    pub(crate) fn complain_of_lines(&mut self, row: &str, text: &str, what: &str) {
        for line in text.lines() {
            if !is_silent(line) {
                self.complain(row, line, what);
            }
        }
    }

    /// Reports the numbers of rows, guards, effects and cases.
    pub(crate) fn total(&mut self)
        ensures { self.new.is_clean ≡ self.old.is_clean }
    {
        let counts = self.counts;
        self.text.put_count(counts.rows, " rows, ");
        self.text.put_count(counts.guards, " guards, ");
        self.text.put_count(counts.effects, " effects, ");
        self.text.put_count(counts.cases, " cases\n");
    }

    /// Reports the number of examples, and that of their cases.
    pub fn total_of_examples(&mut self)
        ensures { self.new.is_clean ≡ self.old.is_clean }
    {
        self.text.put_count(self.counts.examples, " examples, ");
        self.text.put_count(self.counts.histories, " histories\n");
    }

    /// Notes that there is no fault so far.
    pub(crate) fn clear_fault(&mut self) {
        self.fault = None;
    }

    /// Begins an attempt of this name and number.
    pub(crate) fn begin(&mut self, attempt: &'static str, number: u64) {
        self.detail.set_attempt(attempt, number);
    }

    /// The first fault of the case or the reading at hand.
    pub fn fault(&self) -> Option<CaseFault> {
        self.fault
    }

    /// Notes a fault of the case at hand. The first one counts, and more than a difference does.
    pub fn blame(&mut self, fault: CaseFault) {
        if matches!(self.fault, None | Some(CaseFault::Differs)) {
            self.fault = Some(fault);
        }
    }

    /// Notes the fault of a text of the case at hand, if it has one.
    pub(crate) fn blame_with(&mut self, text: &Text) {
        if let Some(fault) = text.fault() {
            self.blame(fault);
        }
    }

    /// The number that a word of the case at hand writes; blames the word if it is none.
    pub(crate) fn number_of(&mut self, word: &str) -> u64 {
        match word.parse::<u64>() {
            Ok(number) => number,
            Err(_) => {
                self.blame(CaseFault::Number);
                0
            }
        }
    }

    /// Ends the case or the reading at hand, whose outcome must be another one if it differs:
    /// reports how it is as it should be, or complains of it.
    pub(crate) fn end_case(&mut self, written: &Written<'_>, differs: bool) {
        let how = match self.fault {
            None if differs => return self.complain_of(written, CaseFault::Alike),
            None => "as expected",
            Some(CaseFault::Differs) if differs => "differs, as it must",
            Some(fault) => return self.complain_of(written, fault),
        };
        match written.kind {
            Kind::Row => {}
            Kind::Example(_) => self.confirm(written.group, written.name, how),
            Kind::Reading { .. } => {
                self.counts.readings = self.counts.readings.saturating_add(1);
            }
        }
    }

    /// Notes that the outcome differs if this does not hold.
    pub(crate) fn require(&mut self, holds: bool, what: &str) {
        if self.fault.is_some() || holds {
            return;
        }
        self.detail.put_unmet(what);
        self.fault = Some(CaseFault::Differs);
    }

    /// Notes that the outcome differs if a number is not the expected one.
    pub(crate) fn compare_numbers(&mut self, what: &str, wanted: u64, got: u64)
        ensures { IsNone self.new.fault → wanted ≡ got }
    {
        if self.fault.is_some() || wanted == got {
            return;
        }
        self.detail.put_numbers(what, wanted, got);
        self.fault = Some(CaseFault::Differs);
    }

    /// Notes that the outcome differs if a text is not the expected one, with the first line that
    /// differs.
    pub(crate) fn compare(&mut self, expected: &str, got: &str)
        ensures { IsNone self.new.fault → expected.now ≡ got.now }
    {
        if self.fault.is_some() || expected == got {
            return;
        }
        self.detail.put_first_difference(expected, got);
        self.fault = Some(CaseFault::Differs);
    }

    /// Notes that the outcome differs if a history does not end in the expected lines, with these
    /// and the actual ones: those from that one on that begins as the expected ones do.
    pub(crate) fn compare_end(&mut self, expected: &str, history: &str) {
        if self.fault.is_some() || ends_in(history.as_bytes(), expected.as_bytes()) {
            return;
        }
        self.detail.put_end(expected, history);
        self.fault = Some(CaseFault::Differs);
    }
}

/// Whether a history ends in these lines, the first of which begins a line of it.
fn ends_in(history: &[u8], lines: &[u8]) -> bool
    ensures { IsTrue result → drop (length history.now - length lines.now) history.now ≡ lines.now }
{
    let Some(at) = history.len().checked_sub(lines.len()) else {
        return false;
    };
    let (before, last) = history.split_at(at);
    last == lines && (before.is_empty() || before.ends_with(b"\n"))
}
