//! The table of a text: the part before the first line that is exactly `%%`.
ghost use Rattle.std.specs.Prelude.{◌≡◌, ◌≢◌, ◌≤◌, ◌++◌, ℕ, List, length, take, drop, IfOk, IfErr, OnOk, Ok, true, false};
ghost use Rattle.std.specs.Io.KnownBytes.{Consumes, prepend_known};
ghost use Rattle.apex_table.specs.Reading.{table_of};
ghost use Rattle.apex_history.specs.Counted.{inner_of, failures_of};
ghost use Rattle.apex_check.specs.Leading.{CountsLeading, IsLeadingFaultOf};
ghost use Rattle.apex_check.specs.TableFaults.{fault_of_table};
ghost use Rattle.apex_check.specs.Texts.{IsTableText, separator};
ghost use Rattle.apex_check.specs.declared.tables.LeadingFault.TheVariants.{Memory};
ghost use Rattle.apex_incoming.specs.Lines.{ended};

use apex_configs::Table;
use apex_history::{Counted, Source};
use apex_incoming::{Next, Pending};
use apex_table::read_table;
use apex_words::TableFault;
use std::alloc::{AllocError, Global};

/// The reason why a text does not begin with a table, or why this was not read.
#[derive(Clone, Copy, Debug, PartialEq, Eq)]
pub enum LeadingFault {
    /// A growth was refused.
    Memory,
    /// The text before the separator is no table. The fault is never `TableFault::Memory`.
    Table(TableFault),
    /// No line is exactly `%%`.
    NoSeparator,
    Read,
}

impl From<AllocError> for LeadingFault {
    ghost from_gives = { λ _ fault. fault ≡ Memory };

    fn from(_error: AllocError) -> LeadingFault {
        LeadingFault::Memory
    }
}

impl From<TableFault> for LeadingFault {
    ghost from_gives = { λ error fault. fault ≡ fault_of_table error };

    fn from(error: TableFault) -> LeadingFault {
        match error {
            TableFault::Memory => LeadingFault::Memory,
            fault => LeadingFault::Table(fault),
        }
    }
}

/// Whether a line, with its line feed, is the separator.
fn is_separator(line: &[u8]) -> bool
    ensures yes { result ≡ true → line.now ≡ ended separator }
    ensures no { result ≡ false → line.now ≢ ended separator }
{
    line == b"%%\n".as_slice()
}

/// Takes `count` bytes into the text.
fn gather(text: &mut Vec<u8>, pending: &mut Pending, count: usize) -> Result<(), AllocError>
    requires { count ≤ length pending.old }
    ensures text { OnOk result (text.new.items ≡ text.old.items ++ take count pending.old) }
    ensures pending { OnOk result (pending.new ≡ drop count pending.old) }
{
    text.extend_from_slice(&pending.bytes()[..count])?;
    pending.take(count);
    Ok(())
}

/// The bytes up to the separator, which is taken too.
fn table_text<R: Source>(
    alloc: Global,
    pending: &mut Pending,
    reader: &mut Counted<R>,
) -> Result<Vec<u8>, LeadingFault>
    ensures lines { IfOk result (λ text. IsTableText text.items) }
    ensures taken { IfOk result
        (λ text. Consumes (prepend_known pending.old (R.remaining (inner_of reader.old)))
        (prepend_known pending.new (R.remaining (inner_of reader.new)))
        (text.items ++ ended separator)) }
    ensures err { IfErr result
        (IsLeadingFaultOf (prepend_known pending.old (R.remaining (inner_of reader.old)))) }
    ensures counted { CountsLeading result (failures_of reader.old) (failures_of reader.new) }
{
    let mut text = Vec::new(alloc);
    // The place at which the next line begins.
    let mut start = 0;
    loop {
        let Ok(next) = pending.next(reader) else {
            return Err(LeadingFault::Read);
        };
        let held = pending.bytes().len();
        match next {
            Next::Line(end) => {
                gather(&mut text, pending, end + 1)?;
                if is_separator(&text.as_slice()[start..]) {
                    text.truncate(start);
                    return Ok(text);
                }
                start = text.len();
            }
            Next::Part => gather(&mut text, pending, held)?,
            Next::Rest | Next::End => return Err(LeadingFault::NoSeparator),
        }
    }
}

/// The table with which the text begins. The separator is taken too.
///
/// The errors in the order of the checks: `Read`, `NoSeparator`, `Table`; `Memory` at any point.
pub fn leading_table<R: Source>(
    alloc: Global,
    pending: &mut Pending,
    reader: &mut Counted<R>,
) -> Result<Table, LeadingFault>
    ensures ok { IfOk result (λ table. (front : List ℕ) × IsTableText front
        × (table_of front ≡ Ok table)
        × Consumes (prepend_known pending.old (R.remaining (inner_of reader.old)))
        (prepend_known pending.new (R.remaining (inner_of reader.new)))
        (front ++ ended separator)) }
    ensures err { IfErr result
        (IsLeadingFaultOf (prepend_known pending.old (R.remaining (inner_of reader.old)))) }
    ensures counted { CountsLeading result (failures_of reader.old) (failures_of reader.new) }
{
    let text = table_text(alloc, pending, reader)?;
    match read_table(alloc, text.as_slice()) {
        Ok(table) => Ok(table),
        Err(fault) => Err(LeadingFault::from(fault)),
    }
}
