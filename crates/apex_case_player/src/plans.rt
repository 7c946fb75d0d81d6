//! What is played, one after the other: the cases of the rows and those of the examples, and the
//! readings of the tables.
use crate::faults::CaseFault;
use crate::folders::{CaseFile, text_in};
use crate::reports::Report;
use crate::rows::{cases_of, cut_line, cut_word, has_clause, is_silent};
use std::alloc::Global;

/// What a case is of.
#[derive(Clone, Copy)]
pub enum Kind<'a> {
    /// A row, so the case has its table in short.
    Row,
    /// An example with this table.
    Example(&'a str),
    /// A reading of a table that is changed at a text, or at `whole`.
    Reading { table: &'a str, at: &'a str },
}

/// A case as it is written.
#[derive(Clone, Copy)]
pub struct Written<'a> {
    pub kind: Kind<'a>,
    /// The name of its row or its example.
    pub group: &'a str,
    /// Its own name; of a reading its line.
    pub name: &'a str,
    pub lines: &'a str,
}

/// What comes next.
#[derive(Clone, Copy)]
pub enum Entry<'a> {
    Case(Written<'a>),
    /// All examples were played.
    Examples,
    /// All readings of this example's table were tried.
    Readings(&'a str),
}

/// What is played, one after the other.
#[derive(Drop)]
pub struct Plan<'a> {
    entries: Vec<Entry<'a>>,
    is_short: bool,
}

impl<'a> Plan<'a> {
    /// The rows, the cases and the readings of these files. Complains of what is no case, and of
    /// what has none.
    pub fn of(alloc: Global, report: &mut Report, files: &'a [CaseFile]) -> Plan<'a> {
        let mut plan = Plan {
            entries: Vec::new(alloc),
            is_short: false,
        };
        plan.put_services(report, files);
        plan.put_examples(report, files);
        plan.put_readings(report, files);
        plan
    }

    /// The entries; `Memory` if there was no room for one.
    pub fn entries(&self) -> Result<&[Entry<'a>], CaseFault> {
        if self.is_short {
            return Err(CaseFault::Memory);
        }
        Ok(self.entries.as_slice())
    }

    fn put(&mut self, entry: Entry<'a>) {
        if self.entries.push(entry).is_err() {
            self.is_short = true;
        }
    }

    fn put_case(&mut self, kind: Kind<'a>, group: &'a str, name: &'a str, lines: &'a str) {
        self.put(Entry::Case(Written {
            kind,
            group,
            name,
            lines,
        }));
    }

    /// Takes the rows of each file `NAME.rows` of a folder.
    fn put_services(&mut self, report: &mut Report, files: &'a [CaseFile]) {
        for file in files {
            if let (name, "rows") = file.split_name() {
                self.put_rows(report, name, file.text());
            }
        }
        report.total();
    }

    /// Takes the cases of all rows of the file of this name.
    fn put_rows(&mut self, report: &mut Report, name: &str, text: &'a str) {
        let mut rows = text.split("\nrow ");
        report.complain_of_lines(name, rows.next().unwrap_or(""), "no row");
        for row in rows {
            self.put_row(report, row);
        }
    }

    /// Takes the cases of the row of this text, which begins with its name.
    fn put_row(&mut self, report: &mut Report, text: &'a str) {
        let mut cases = text.split("\ncase ");
        let (row, head) = cut_line(cases.next().unwrap_or(""));
        check_head(report, row, text, head);
        let mut count: u64 = 0;
        for case in cases {
            let (name, lines) = cut_line(case);
            if !has_clause(head, name) {
                report.complain(row, name, "no guard and no effect of the row");
            }
            self.put_case(Kind::Row, row, name, lines);
            count = count.saturating_add(1);
        }
        report.count(row, count);
    }

    /// Takes the cases of each table of a folder. A file `NAME.toml` is a table, and `NAME.cases`
    /// has its cases; neither may be there without the other one.
    fn put_examples(&mut self, report: &mut Report, files: &'a [CaseFile]) {
        for file in files {
            let (example, ending) = file.split_name();
            match ending {
                "toml" => match text_in(files, example, "cases") {
                    Some(cases) => self.put_example(report, example, file.text(), cases),
                    None => report.complain(example, "cases", "there is no such file"),
                },
                "cases" if text_in(files, example, "toml").is_none() => {
                    report.complain(example, "table", "there is no such file")
                }
                _ => {}
            }
        }
        self.put(Entry::Examples);
    }

    /// Takes the cases of an example with this table.
    fn put_example(
        &mut self,
        report: &mut Report,
        example: &'a str,
        table: &'a str,
        cases: &'a str,
    ) {
        let mut parts = cases.split("\ncase ");
        report.complain_of_lines(example, parts.next().unwrap_or(""), "no case");
        let kind = Kind::Example(table);
        let mut count: u64 = 0;
        for case in parts {
            let (name, lines) = cut_line(case);
            self.put_case(kind, example, name, lines);
            count = count.saturating_add(1);
        }
        report.count_example(count);
        if count == 0 {
            report.complain(example, "cases", "there is none");
        }
    }

    /// Takes the readings of each file `NAME.readings` of a folder, over the table `NAME.toml`.
    fn put_readings(&mut self, report: &mut Report, files: &'a [CaseFile]) {
        for file in files {
            if let (example, "readings") = file.split_name() {
                match text_in(files, example, "toml") {
                    Some(table) => self.put_places(example, table, file.text()),
                    None => report.complain(example, "table", "there is no such file"),
                }
            }
        }
    }

    /// Takes the readings of a table, place by place.
    fn put_places(&mut self, group: &'a str, table: &'a str, readings: &'a str) {
        let mut places = readings.split("\nat ");
        self.put_place(group, table, "", places.next().unwrap_or(""));
        for place in places {
            let (at, lines) = cut_line(place);
            self.put_place(group, table, at, lines);
        }
        self.put(Entry::Readings(group));
    }

    /// Takes the readings at a place of a table.
    fn put_place(&mut self, group: &'a str, table: &'a str, at: &'a str, readings: &'a str) {
        let kind = Kind::Reading { table, at };
        for line in readings.lines() {
            if !is_silent(line) {
                self.put_case(kind, group, line, line);
            }
        }
    }
}

/// Counts a guard or an effect of a row, and complains if it has no case of its own, or several.
fn check_line(report: &mut Report, row: &str, text: &str, line: &str) {
    let (word, name) = cut_word(line);
    let counts = &mut report.counts;
    match word {
        "guard" => counts.guards = counts.guards.saturating_add(1),
        "effect" => counts.effects = counts.effects.saturating_add(1),
        _ => return report.complain(row, line, "no guard and no effect"),
    }
    match cases_of(text, name) {
        0 => report.complain(row, name, "no case"),
        1 => {}
        _ => report.complain(row, name, "several cases"),
    }
}

/// Complains of a row's guards and effects, which are in these lines of its text, and counts them.
fn check_head(report: &mut Report, row: &str, text: &str, lines: &str) {
    let before = report.counts.effects;
    for line in lines.lines() {
        if !is_silent(line) {
            check_line(report, row, text, line);
        }
    }
    if report.counts.effects == before {
        report.complain(row, "effect", "the row has none");
    }
}
