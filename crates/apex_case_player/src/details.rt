//! The details of a difference: the attempt, and what differs in its outcome.
use crate::rows::cut_word;
use crate::texts::Text;
use std::alloc::Global;

/// The last difference, and the attempt at hand.
#[derive(Drop)]
pub(crate) struct Detail {
    text: Text,
    /// The attempt that is made, which a difference names, as `read 3`; at "" the case as it is.
    attempt: &'static str,
    number: u64,
}

impl Detail {
    pub(crate) fn new(alloc: Global) -> Detail {
        Detail {
            text: Text::new(alloc),
            attempt: "",
            number: 0,
        }
    }

    /// Begins an attempt of this name and number.
    pub(crate) fn set_attempt(&mut self, attempt: &'static str, number: u64) {
        self.attempt = attempt;
        self.number = number;
    }

    /// Appends the difference to a report, as what is said of an item of a group.
    pub(crate) fn put_item(&self, report: &mut Text, group: &str, item: &str) {
        report.put_item(group, item, self.text.as_str());
        report.blame_with(&self.text);
    }

    /// Begins a difference: the attempt, and what differs.
    fn begin(&mut self, what: &str) {
        self.text.clear();
        if !self.attempt.is_empty() {
            self.text.put(self.attempt);
            self.text.put(" ");
            self.text.put_count(self.number, ": ");
        }
        self.text.put(what);
    }

    /// What should hold does not.
    pub(crate) fn put_unmet(&mut self, what: &str) {
        self.begin("it is not so: ");
        self.text.put(what);
    }

    /// A number is not the expected one.
    pub(crate) fn put_numbers(&mut self, what: &str, wanted: u64, got: u64) {
        self.begin(what);
        self.text.put(": expected ");
        self.text.put_count(wanted, ", but got ");
        self.text.put_number(got);
    }

    /// A text differs from what was expected, first in a line of both.
    pub(crate) fn put_first_difference(&mut self, expected: &str, got: &str) {
        let (number, wanted, line) = first_difference(expected, got);
        self.begin("line ");
        self.text.put_count(number, ": expected ");
        self.text.put(wanted);
        self.text.put(", but got ");
        self.text.put(line);
    }

    /// The expected end of a history, and the actual one: the lines from that one on that begins
    /// as the expected ones do.
    pub(crate) fn put_end(&mut self, expected: &str, history: &str) {
        self.begin("expected\n");
        self.text.put(expected);
        self.text.put("but got\n");
        let (first, _) = cut_word(expected);
        let mut is_reached = false;
        for line in history.lines() {
            is_reached = is_reached || cut_word(line).0 == first;
            if is_reached {
                self.text.put_line(line);
            }
        }
    }
}

/// The number of the first line in which a text differs from what was expected, the expected line
/// and the actual one.
fn first_difference<'a>(expected: &'a str, got: &'a str) -> (u64, &'a str, &'a str) {
    let mut lines = got.lines();
    let mut number: u64 = 1;
    for wanted in expected.lines() {
        let line = lines.next().unwrap_or("no line");
        if wanted != line {
            return (number, wanted, line);
        }
        number = number.saturating_add(1);
    }
    (number, "no line", lines.next().unwrap_or("no line"))
}
