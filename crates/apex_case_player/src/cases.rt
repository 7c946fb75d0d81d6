//! A case: the table, the text after it, the arguments, the devices, and the output of `apex`. A
//! case of an example edits the example's table, and has the whole output; a case of a row has a
//! table in short, and the last lines of the output; a reading has a changed table, and its fault.
use crate::arguments::Arguments;
use crate::devices::{AMPLE, BRIEF, Devices};
use crate::expectations::Expected;
use crate::faults::CaseFault;
use crate::folds::{lines_of, replaced};
use crate::outlines::{is_of_table, table_of};
use crate::plans::Kind;
use crate::progress::Progress;
use crate::reports::Report;
use crate::rows::{cut_word, is_silent};
use crate::texts::Text;
use crate::trials::Trials;
use std::alloc::Global;

/// The request of a case, the expected outcome, and what the program wrote so far.
#[derive(Drop)]
pub struct Case<'a> {
    alloc: Global,
    pub(crate) kind: Kind<'a>,
    /// The lines of the case.
    pub(crate) lines: &'a str,
    /// The table, with the case's edits.
    pub(crate) table: Text,
    /// The text after the table.
    pub(crate) after: Text,
    pub(crate) arguments: Arguments<'a>,
    pub(crate) devices: Devices,
    pub(crate) trials: Trials,
    pub(crate) expected: Expected<'a>,
    pub(crate) progress: Progress,
}

/// The table of a case of this kind with these lines, before its edits.
fn table_for(alloc: Global, kind: Kind<'_>, lines: &str) -> Text {
    match kind {
        Kind::Row => table_of(alloc, lines),
        Kind::Example(table) | Kind::Reading { table, .. } => Text::of(alloc, table),
    }
}

/// The table with the new text at this place; `Edit` if the text of the place is nowhere in it.
fn changed(alloc: Global, table: &Text, at: &str, new: &str) -> Text {
    if at == "whole" {
        return lines_of(alloc, new);
    }
    replaced(alloc, table, at, new, 1)
}

impl<'a> Case<'a> {
    /// The case of this kind and this text, which has no folds. Its faults are in the report.
    pub fn of(alloc: Global, report: &mut Report, kind: Kind<'a>, text: &'a Text) -> Case<'a> {
        let mut case = Case::new(alloc, kind, text.as_str());
        report.clear_fault();
        report.blame_with(text);
        match kind {
            Kind::Reading { at, .. } => case.put_reading(report, at),
            _ => case.put_all(report),
        }
        case.blame(report);
        case
    }

    /// A case of which no line is read but those of its table.
    fn new(alloc: Global, kind: Kind<'a>, lines: &'a str) -> Case<'a> {
        Case {
            alloc,
            kind,
            lines,
            table: table_for(alloc, kind, lines),
            after: Text::new(alloc),
            arguments: Arguments::new(alloc),
            devices: Devices::sound(AMPLE),
            trials: Trials::none(),
            expected: Expected::new(alloc),
            progress: Progress::new(alloc),
        }
    }

    /// Notes the faults of the texts of the case.
    fn blame(&self, report: &mut Report) {
        report.blame_with(&self.table);
        report.blame_with(&self.after);
        self.expected.blame(report);
    }

    /// Takes the lines of a case of a row or an example, which have to give arguments and an
    /// outcome.
    fn put_all(&mut self, report: &mut Report) {
        for line in self.lines.lines() {
            if !is_silent(line) {
                self.put(report, line);
            }
        }
        if !self.arguments.is_given() {
            report.blame(CaseFault::Arguments);
        }
        if self.expected.is_nothing() {
            report.blame(CaseFault::NoLines);
        }
    }

    /// Takes a reading, which is `FAULT: NEW` or `cuts`: the program is asked for one turn, and
    /// refuses the changed table with this fault, if that is not `none`. Of the cuts only the table
    /// without its last line feed is accepted.
    fn put_reading(&mut self, report: &mut Report, at: &str) {
        let reading = self.lines.strip_prefix("differs ").unwrap_or(self.lines);
        self.expected.differs = reading.len() < self.lines.len();
        self.devices.room = BRIEF;
        self.arguments.put_over(report, "replay", "0");
        if let Some((fault, new)) = reading.split_once(':') {
            let new = new.strip_prefix(' ').unwrap_or(new);
            self.table = changed(self.alloc, &self.table, at, new);
            self.expected.put_table_fault(fault);
        } else if reading == "cuts" {
            self.trials.cuts = Some(1);
        } else {
            report.blame(CaseFault::Reading);
        }
    }

    fn put(&mut self, report: &mut Report, line: &'a str) {
        let (field, rest) = cut_word(line);
        match field {
            "schedule" => self.arguments.put_over(report, "replay", rest),
            "differs" if rest.is_empty() => self.expected.differs = true,
            _ if !matches!(self.kind, Kind::Row) => self.put_of_example(report, field, rest, line),
            _ if is_of_table(field) => {}
            _ => self.expected.output.put_line(line),
        }
    }

    /// Takes a line of a case of an example; those about parts of the output are read later.
    fn put_of_example(&mut self, report: &mut Report, field: &str, rest: &'a str, line: &'a str) {
        match field {
            "edit" => self.edit(report, rest),
            "given" => self.after.put_line(rest),
            "return" => {
                self.after.put(rest);
                self.after.put("\r\n");
            }
            "cut" => self.after.put(rest),
            "listing" => self.arguments.put_over(report, "status", rest),
            "arguments" => self.arguments.put_all(report, rest),
            "argument" => self.arguments.put(report, rest),
            "unfetched" => self.arguments.set_unfetched(),
            "lines" | "contains" => {}
            _ => {
                if !self.devices.put(report, field, rest) && !self.trials.put(report, field, rest) {
                    self.expected.put(report, field, rest, line);
                }
            }
        }
    }

    /// Does `OLD -> NEW` at each place of the old text; `; ` is a line feed in both. `Edit` if the
    /// old text is nowhere in the table.
    fn edit(&mut self, report: &mut Report, edit: &str) {
        let Some((old, new)) = edit.split_once(" -> ") else {
            return report.blame(CaseFault::Edit);
        };
        report.blame_with(&self.table);
        self.table = replaced(self.alloc, &self.table, old, new, usize::MAX);
    }
}
