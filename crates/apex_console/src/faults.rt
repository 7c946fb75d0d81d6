//! The faults with which a program ends, their lines and their statuses.
ghost use Rattle.std.specs.Prelude.{◌≡◌, ◌+◌, ◌≤◌, ◌++◌, Some};
ghost use Rattle.arrayvec.specs.ArrayString.{array_string_len};
ghost use Rattle.apex_words.specs.Fault as tables;
ghost use Rattle.apex_console.specs.Faults.{fault_of_checking, fault_of_read, fault_of_table, fault_text, fault_line, status_of_fault};
ghost use Rattle.apex_console.specs.declared.faults.CliFault.TheVariants.{Memory};
ghost use Rattle.apex_console.specs.declared.faults.TheConstants.{FAULT_ROOM};

use apex_check::CheckFault;
use apex_history::ReadFault;
use apex_texts::push_number;
use apex_words::TableFault;
use arrayvec::ArrayString;
use std::alloc::AllocError;
use std::error::Error;
use std::fmt;

const USAGE: &str =
    "apex: usage: apex replay|status --schedule S, apex run --turns N --ticks K, apex check";

/// Room for the bytes of a fault's line.
const FAULT_ROOM: usize = 128;

/// A fault's line.
pub type Line = ArrayString<FAULT_ROOM>;

/// The reason why a program did not do all that was asked.
///
/// Its text is the line that the program writes on standard error.
#[derive(Clone, Copy, PartialEq, Eq)]
pub enum CliFault {
    /// The words ask for nothing that the program does, or the schedule is ill-formed or names a
    /// core that the table lacks.
    Usage,
    /// The text is no table. The fault is never `TableFault::Memory`.
    Table(TableFault),
    /// No line is the separator `%%` between a table and a history.
    NoSeparator,
    /// The line of the history of this number, counted from 1, names no event of the partition.
    BadLine(u32),
    /// The line of the history of this number has more than 4,096 bytes.
    TooLong(u32),
    /// The history is full after n entries, and the schedule or the plan has more.
    HistoryFull(u32),
    /// A growth was refused.
    Memory,
    /// A thread was refused.
    NoThread,
    /// A read of the program's input failed.
    Read,
    /// A write of the program's output failed.
    Write,
}

impl CliFault {
    /// The program's exit status.
    pub fn status(self) -> u8
        ensures { result ≡ status_of_fault self }
    {
        match self {
            CliFault::Usage => 2,
            CliFault::Table(_)
            | CliFault::NoSeparator
            | CliFault::BadLine(_)
            | CliFault::TooLong(_) => 3,
            CliFault::HistoryFull(_) => 4,
            CliFault::Memory | CliFault::NoThread => 5,
            CliFault::Read | CliFault::Write => 6,
        }
    }

    fn text(self) -> Line
        ensures text { result.bytes ≡ fault_text self }
        ensures short { array_string_len result ≤ 100 }
    {
        let mut text = Line::new();
        match self {
            CliFault::Usage => text.push_str(USAGE),
            CliFault::Table(fault) => {
                text.push_str("apex: table refused: ");
                put_table_fault(&mut text, fault);
            }
            CliFault::NoSeparator => text.push_str("apex: no separator"),
            CliFault::BadLine(line) => {
                text.push_str("apex: history refused: BadLine at line ");
                push_number(&mut text, line);
            }
            CliFault::TooLong(line) => {
                text.push_str("apex: history refused: TooLong at line ");
                push_number(&mut text, line);
            }
            CliFault::HistoryFull(entries) => {
                text.push_str("apex: history full after ");
                push_number(&mut text, entries);
                text.push_str(" entries");
            }
            CliFault::Memory => text.push_str("apex: out of memory"),
            CliFault::NoThread => text.push_str("apex: no thread"),
            CliFault::Read => text.push_str("apex: read failed"),
            CliFault::Write => text.push_str("apex: write failed"),
        }
        text
    }
}

/// The line that reports the fault, with its line feed; nothing if there is no fault.
pub fn fault_line(fault: Option<CliFault>) -> Line
    ensures { result.bytes ≡ fault_line fault }
{
    let Some(fault) = fault else {
        return Line::new();
    };
    let mut line = fault.text();
    line.push('\n');
    line
}

#[tactic(auto, using(std::proofs::Common::append_assoc))]
fn put_table_fault(text: &mut Line, fault: TableFault)
    requires { array_string_len text.old ≤ 30 }
    ensures text { text.new.bytes ≡ text.old.bytes ++ tables.fault_text fault }
    ensures short { array_string_len text.new ≤ array_string_len text.old + 36 }
{
    let (word, subject) = fault.parts();
    text.push_str(word);
    if let Some(subject) = subject {
        text.push_str(" in ");
        text.push_str(subject.place.section.word());
        text.push_str(" ");
        push_number(text, subject.place.number);
    }
}

impl fmt::Display for CliFault {
    ghost output = { λ fault. Some (fault_text fault) };

    fn fmt<W: fmt::Write>(&self, f: &mut fmt::Formatter<W>) -> fmt::Result {
        let text = self.text();
        f.write_str(text.as_str())
    }
}

/// A programmer reads the fault's text, too.
impl fmt::Debug for CliFault {
    fn fmt<W: fmt::Write>(&self, f: &mut fmt::Formatter<W>) -> fmt::Result {
        fmt::Display::fmt(self, f)
    }
}

impl Error for CliFault {}

impl From<AllocError> for CliFault {
    ghost from_gives = { λ _ fault. fault ≡ Memory };

    fn from(_error: AllocError) -> CliFault {
        CliFault::Memory
    }
}

impl From<ReadFault> for CliFault {
    ghost from_gives = { λ error fault. fault ≡ fault_of_read error };

    fn from(error: ReadFault) -> CliFault {
        match error {
            ReadFault::Memory => CliFault::Memory,
            ReadFault::Read => CliFault::Read,
        }
    }
}

impl From<TableFault> for CliFault {
    ghost from_gives = { λ error fault. fault ≡ fault_of_table error };

    fn from(error: TableFault) -> CliFault {
        match error {
            TableFault::Memory => CliFault::Memory,
            fault => CliFault::Table(fault),
        }
    }
}

impl From<CheckFault> for CliFault {
    ghost from_gives = { λ error fault. fault ≡ fault_of_checking error };

    fn from(error: CheckFault) -> CliFault {
        match error {
            CheckFault::Memory => CliFault::Memory,
            CheckFault::Table(fault) => CliFault::Table(fault),
            CheckFault::NoSeparator => CliFault::NoSeparator,
            CheckFault::BadLine(line) => CliFault::BadLine(line),
            CheckFault::TooLong(line) => CliFault::TooLong(line),
            CheckFault::Read => CliFault::Read,
            CheckFault::Write => CliFault::Write,
        }
    }
}
