//! The attempts by which a case is played: as it is, and then with each call failing, each cut and
//! each change in turn.
use crate::cases::Case;
use crate::devices::{BRIEF, Devices};
use crate::faults::CaseFault;
use crate::reports::Report;
use crate::requests::Request;
use crate::rows::cut_line;
use crate::texts::Text;
use std::alloc::Global;

/// The arguments that ask for a check.
const CHECK: &[&str] = &["check"];

/// The calls that fail in turn.
#[derive(Clone, Copy)]
pub enum Calls {
    Reads,
    /// The writes on standard output.
    Writes,
}

impl Calls {
    /// The name of one of them.
    fn name(self) -> &'static str {
        match self {
            Calls::Reads => "read",
            Calls::Writes => "write",
        }
    }
}

/// The part of a history's line in which a byte is changed, by the verdict that the change has to
/// have. A line names its event by its third word, which ends at the third space.
#[derive(Clone, Copy)]
pub enum Part {
    /// The event is another core's.
    Core,
    /// The line names no event.
    Name,
    /// The line differs from that of its event.
    Rest,
}

impl Part {
    /// The part of this byte, which comes after `spaces` spaces of its line.
    fn of(spaces: u64, byte: u8) -> Part {
        if spaces == 2 && byte.is_ascii_digit() {
            Part::Core
        } else if spaces == 2 || (spaces < 2 && byte == b' ') {
            Part::Name
        } else {
            Part::Rest
        }
    }
}

/// A change of one byte in a line after the separator.
#[derive(Clone, Copy)]
pub struct Change {
    /// The place of the byte in what the program reads.
    pub(crate) at: usize,
    /// The number of its line, counted from 0.
    pub(crate) line: usize,
    pub(crate) part: Part,
}

impl Change {
    /// Writes what the program is to say if it checks these lines with the change: on standard
    /// output if the line departs, and else on standard error.
    pub(crate) fn put_wanted(self, wanted: &mut Text, lines: &str) {
        let number = (self.line as u64).saturating_add(1);
        wanted.clear();
        match self.part {
            Part::Core => {}
            Part::Name => {
                wanted.put("apex: history refused: BadLine at line ");
                wanted.put_count(number, "\n");
            }
            Part::Rest => {
                wanted.put("departs at ");
                wanted.put_count(number, "\nexpected: ");
                wanted.put_line(lines.lines().nth(self.line).unwrap_or(""));
            }
        }
    }
}

/// One call of the program, by which a case is played.
#[derive(Clone, Copy)]
pub enum Attempt {
    /// The case as it is.
    Whole,
    /// The program checks the lines that it wrote.
    Check,
    /// The call of this number fails.
    Fail(Calls, u64),
    /// The call of this number would fail, and the program makes no such call.
    Pass(Calls, u64),
    /// The table is cut after this number of bytes.
    Cut(usize),
    Change(Change),
}

impl Attempt {
    /// Begins the attempt in the report; a check is a part of the attempt before it.
    pub(crate) fn begin(self, report: &mut Report) {
        let (name, number) = match self {
            Attempt::Whole => ("", 0),
            Attempt::Check => return,
            Attempt::Fail(calls, call) | Attempt::Pass(calls, call) => (calls.name(), call),
            Attempt::Cut(end) => ("cut", end as u64),
            Attempt::Change(change) => ("byte", change.at as u64),
        };
        report.begin(name, number);
    }

    /// These devices, but for the call that fails.
    fn devices(self, devices: Devices) -> Devices {
        match self {
            Attempt::Fail(Calls::Reads, call) | Attempt::Pass(Calls::Reads, call) => Devices {
                failing_read: call,
                ..devices
            },
            Attempt::Fail(Calls::Writes, call) | Attempt::Pass(Calls::Writes, call) => Devices {
                failing_write: call,
                ..devices
            },
            _ => devices,
        }
    }
}

fn put(report: &mut Report, attempts: &mut Vec<Attempt>, attempt: Attempt) {
    if attempts.push(attempt).is_err() {
        report.blame(CaseFault::Memory);
    }
}

/// Each of the calls up to the last one fails, and a further call is not made.
fn put_calls(report: &mut Report, attempts: &mut Vec<Attempt>, calls: Calls, last: u64) {
    for call in 1..=last {
        put(report, attempts, Attempt::Fail(calls, call));
    }
    put(
        report,
        attempts,
        Attempt::Pass(calls, last.saturating_add(1)),
    );
}

impl<'a> Case<'a> {
    /// The attempts by which the case is played, one after the other.
    pub fn attempts(&self, alloc: Global, report: &mut Report) -> Vec<Attempt> {
        let mut attempts = Vec::new(alloc);
        put(report, &mut attempts, Attempt::Whole);
        if let Some(last) = self.trials.reads {
            put_calls(report, &mut attempts, Calls::Reads, last);
        }
        if let Some(last) = self.trials.writes {
            put_calls(report, &mut attempts, Calls::Writes, last);
        }
        if self.trials.cuts.is_some() {
            self.put_cuts(report, &mut attempts);
        }
        if let Some(wanted) = self.trials.changes {
            self.put_changes(report, &mut attempts, wanted);
        }
        attempts
    }

    /// The table is cut after each of its bytes but the last.
    fn put_cuts(&self, report: &mut Report, attempts: &mut Vec<Attempt>) {
        for (end, _) in self.table.as_str().char_indices() {
            put(report, attempts, Attempt::Cut(end));
        }
    }

    /// Each byte of the first `wanted` lines after the separator is changed in turn.
    fn put_changes(&self, report: &mut Report, attempts: &mut Vec<Attempt>, wanted: usize) {
        let (separator, lines) = cut_line(self.after.as_str());
        let before = self.table.as_str().len().saturating_add(separator.len());
        let begins = before.saturating_add(1);
        let mut line: usize = 0;
        let mut spaces: u64 = 0;
        for (place, byte) in lines.bytes().enumerate() {
            if byte == b'\n' {
                line = line.saturating_add(1);
                spaces = 0;
            } else if line < wanted {
                let at = begins.saturating_add(place);
                let part = Part::of(spaces, byte);
                put(report, attempts, Attempt::Change(Change { at, line, part }));
                if byte == b' ' {
                    spaces = spaces.saturating_add(1);
                }
            }
        }
    }

    /// The request of an attempt.
    pub fn request(&self, attempt: Attempt) -> Request<'_> {
        let table = self.table.as_str();
        if matches!(attempt, Attempt::Check) {
            return Request {
                arguments: Some(CHECK),
                texts: [table, "\n%%\n", self.progress.written.as_str()],
                changed: None,
                devices: Devices::sound(BRIEF),
            };
        }
        let mut read = table;
        let mut changed = None;
        match attempt {
            Attempt::Cut(end) => read = table.get(..end).unwrap_or(table),
            Attempt::Change(change) => changed = Some(change.at),
            _ => {}
        }
        Request {
            arguments: self.arguments.fetched(),
            texts: [read, self.after.as_str(), ""],
            changed,
            devices: attempt.devices(self.devices),
        }
    }
}
