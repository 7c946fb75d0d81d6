//! The arguments of the program in a case.
use crate::faults::CaseFault;
use crate::reports::Report;
use std::alloc::Global;

/// The arguments, without the program's name.
#[derive(Drop)]
pub(crate) struct Arguments<'a> {
    words: Vec<&'a str>,
    /// Whether the case gives them.
    is_given: bool,
    /// Whether the program had no memory to fetch them.
    is_unfetched: bool,
}

impl<'a> Arguments<'a> {
    pub(crate) fn new(alloc: Global) -> Arguments<'a> {
        Arguments {
            words: Vec::new(alloc),
            is_given: false,
            is_unfetched: false,
        }
    }

    /// Takes the arguments between spaces; `Arguments` if there were some before.
    pub(crate) fn put_all(&mut self, report: &mut Report, words: &'a str) {
        if self.is_given {
            report.blame(CaseFault::Arguments);
        }
        self.is_given = true;
        for word in words.split(' ') {
            if !word.is_empty() {
                self.put(report, word);
            }
        }
    }

    /// Takes the arguments that ask for this command over a schedule.
    pub(crate) fn put_over(&mut self, report: &mut Report, command: &'a str, schedule: &'a str) {
        self.put_all(report, command);
        self.put(report, "--schedule");
        self.put(report, schedule);
    }

    /// Takes one more argument.
    pub(crate) fn put(&mut self, report: &mut Report, word: &'a str) {
        self.is_given = true;
        if self.words.push(word).is_err() {
            report.blame(CaseFault::Memory);
        }
    }

    /// Notes that the program has no memory to fetch them.
    pub(crate) fn set_unfetched(&mut self) {
        self.is_unfetched = true;
        self.is_given = true;
    }

    /// Whether the case gives them.
    pub(crate) fn is_given(&self) -> bool {
        self.is_given
    }

    /// Whether they ask for this command.
    pub(crate) fn is_for(&self, command: &str) -> bool {
        matches!(self.words.first(), Some(first) if *first == command)
    }

    /// Those that the program is given; none if it had no memory to fetch them.
    pub(crate) fn fetched(&self) -> Option<&[&'a str]> {
        if self.is_unfetched {
            return None;
        }
        Some(self.words.as_slice())
    }
}
