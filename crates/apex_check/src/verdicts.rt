//! The verdict on a text, and why a text has none.
ghost use Rattle.std.specs.Prelude.{◌≡◌, Some};
ghost use Rattle.apex_check.specs.Faults.{fault_text};
ghost use Rattle.apex_check.specs.Steps.{IsTellable};
ghost use Rattle.apex_check.specs.TableFaults.{fault_of_leading};
ghost use Rattle.apex_check.specs.Verdicts.{verdict_text};
ghost use Rattle.apex_check.specs.declared.verdicts.CheckFault.TheVariants.{Memory};

use crate::tables::LeadingFault;
use apex_configs::Table;
use apex_history::{Lines, NextSteps, put_line};
use apex_texts::{put, put_number};
use apex_types::Entry;
use apex_words::TableFault;
use std::alloc::AllocError;
use std::error::Error;
use std::fmt;

/// The verdict on a text's history.
#[derive(Drop)]
pub enum Verdict {
    /// It has n lines, and each is the machine's.
    Legal(u32),
    /// The line of this number, counted from 1, is the first that is not the machine's. The
    /// machine's entry is this one, or there is none because the history is full.
    DepartsAt(u32, Option<Entry>),
}

/// The reason why a text has no verdict, or why its verdict was not written whole.
///
/// A line is given by its number, counted from 1 behind the separator.
///
/// Its text is the line of the program without the program's name.
#[derive(Clone, Copy, PartialEq, Eq)]
pub enum CheckFault {
    /// A growth was refused.
    Memory,
    /// The text before the separator is no table. The fault is never `TableFault::Memory`.
    Table(TableFault),
    /// No line is exactly `%%`.
    NoSeparator,
    /// The line names no event, or a core that the table lacks, or it has no line feed.
    BadLine(u32),
    /// The line has more than 4,096 bytes.
    TooLong(u32),
    /// A read of the text failed.
    Read,
    /// A write of the verdict failed.
    Write,
}

impl fmt::Display for CheckFault {
    ghost output = { λ fault. Some (fault_text fault) };

    fn fmt<W: fmt::Write>(&self, f: &mut fmt::Formatter<W>) -> fmt::Result {
        match self {
            CheckFault::Memory => f.write_str("out of memory"),
            CheckFault::Table(fault) => write!(f, "table refused: {fault}"),
            CheckFault::NoSeparator => f.write_str("no separator"),
            CheckFault::BadLine(line) => write!(f, "history refused: BadLine at line {line}"),
            CheckFault::TooLong(line) => write!(f, "history refused: TooLong at line {line}"),
            CheckFault::Read => f.write_str("read failed"),
            CheckFault::Write => f.write_str("write failed"),
        }
    }
}

/// A programmer reads the fault's text, too.
impl fmt::Debug for CheckFault {
    fn fmt<W: fmt::Write>(&self, f: &mut fmt::Formatter<W>) -> fmt::Result {
        fmt::Display::fmt(self, f)
    }
}

impl Error for CheckFault {}

impl From<AllocError> for CheckFault {
    ghost from_gives = { λ _ fault. fault ≡ Memory };

    fn from(_error: AllocError) -> CheckFault {
        CheckFault::Memory
    }
}

impl From<LeadingFault> for CheckFault {
    ghost from_gives = { λ error fault. fault ≡ fault_of_leading error };

    fn from(error: LeadingFault) -> CheckFault {
        match error {
            LeadingFault::Memory => CheckFault::Memory,
            LeadingFault::Table(fault) => CheckFault::Table(fault),
            LeadingFault::NoSeparator => CheckFault::NoSeparator,
            LeadingFault::Read => CheckFault::Read,
        }
    }
}

/// The text of the verdict on a history of the table.
#[tactic(auto, using(std::proofs::Common::append_assoc))]
pub fn verdict_text(table: &Table, verdict: &Verdict) -> Lines
    requires { IsTellable table.now verdict.now }
    ensures { result.items ≡ verdict_text table.now verdict.now }
{
    let mut text = Lines::new();
    match verdict {
        Verdict::Legal(count) => {
            put(&mut text, "legal ");
            put_number(&mut text, *count);
            put(&mut text, "\n");
        }
        Verdict::DepartsAt(line, expected) => {
            put(&mut text, "departs at ");
            put_number(&mut text, *line);
            put(&mut text, "\nexpected: ");
            match expected {
                Some(entry) => put_line(&mut text, table, &mut NextSteps::new(), &entry.lent()),
                None => put(&mut text, "nothing\n"),
            }
        }
    }
    text
}
