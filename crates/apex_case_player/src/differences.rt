//! The differences between an outcome and the expected one.
use crate::faults::CaseFault;
use crate::reports::Report;
use crate::requests::Outcome;
use crate::rows::cut_word;
use std::str;

const USAGE: &str =
    "apex: usage: apex replay|status --schedule S, apex run --turns N --ticks K, apex check\n";

/// An outcome whose bytes are text.
#[derive(Clone, Copy)]
pub(crate) struct TextOutcome<'a> {
    pub(crate) output: &'a str,
    pub(crate) error: &'a str,
    pub(crate) status: u64,
    pub(crate) failed_reads: u64,
    pub(crate) failed_writes: u64,
}

impl<'a> TextOutcome<'a> {
    /// The outcome as text; `Text` if it is none.
    pub(crate) fn of(outcome: &Outcome<'a>) -> Result<TextOutcome<'a>, CaseFault> {
        match (
            str::from_utf8(outcome.output),
            str::from_utf8(outcome.error),
        ) {
            (Ok(output), Ok(error)) => Ok(TextOutcome {
                output,
                error,
                status: outcome.status as u64,
                failed_reads: outcome.failed_reads,
                failed_writes: outcome.failed_writes,
            }),
            _ => Err(CaseFault::Text),
        }
    }

    /// Whether the program refuses its arguments or the bytes that it reads, and writes nothing
    /// else.
    pub(crate) fn is_refused(&self) -> bool {
        let is_refusal = match self.status {
            2 => self.error == USAGE,
            3 => {
                self.error == "apex: no separator\n"
                    || self.error.starts_with("apex: table refused: ")
            }
            _ => false,
        };
        is_refusal && self.output.is_empty()
    }
}

/// The number of lines whose third word is this one.
fn lines_of(history: &str, word: &str) -> u64 {
    let mut count: u64 = 0;
    for line in history.lines() {
        if line.split(' ').nth(2) == Some(word) {
            count = count.saturating_add(1);
        }
    }
    count
}

/// Compares the number of lines of a word with the one after the word.
fn compare_count(report: &mut Report, count: &str, lines: &str) {
    let (word, number) = cut_word(count);
    let wanted = report.number_of(number);
    report.compare_numbers(word, wanted, lines_of(lines, word));
}

/// Compares lines with what the lines of a case expect of them in part: the number of each core's
/// and of the ticker's, as `lines core0 3`, and the texts in them, as `contains TEXT`.
pub(crate) fn compare_parts(report: &mut Report, case: &str, lines: &str) {
    for expected in case.lines() {
        if let Some(count) = expected.strip_prefix("lines ") {
            compare_count(report, count, lines);
        } else if let Some(text) = expected.strip_prefix("contains ") {
            report.require(lines.contains(text), expected);
        }
    }
}

/// Compares the program's outcome with this fault and this status, and nothing on standard output.
pub(crate) fn compare_refusal(
    report: &mut Report,
    outcome: &TextOutcome<'_>,
    status: u64,
    fault: &str,
) {
    report.compare_numbers("status", status, outcome.status);
    report.compare(fault, outcome.error);
    report.compare("", outcome.output);
}

/// The whole lines at the head of a text.
pub(crate) fn whole_lines(text: &str) -> &str {
    match text.rsplit_once('\n') {
        Some((before, _)) => text.get(..before.len().saturating_add(1)).unwrap_or(text),
        None => "",
    }
}
