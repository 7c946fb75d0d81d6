//! The lines of an entry and of a history, written to a writer.
ghost use Rattle.std.specs.Prelude.{◌≡◌, ◌+◌, ◌≤◌, [], ◌++◌, All, IfErr, OnOk, OnErr};
ghost use Rattle.apex_history.specs.declared.puts.TheConstants.{LINES_ROOM};
ghost use Rattle.arrayvec.specs.ArrayVec.{array_vec_len};
ghost use Rattle.std.specs.Io.KnownBytes.{Appends};
ghost use Rattle.apex_types.specs.declared.limits.TheConstants.{MOST_LINE};
ghost use Rattle.apex_calls.specs.Lines.{line_of, lines_of, IsPrintable};
ghost use Rattle.apex_history.specs.Counted.{inner_of, failures_of, CountsFailure, AppendsBeginning, IsOfWrite};
ghost use Rattle.apex_history.specs.Page.{Passes};

use crate::counting::Counted;
use crate::lent::Entries;
use crate::pages::Page;
use crate::puts::{LINES_ROOM, Lines, put_line, put_parts};
use crate::sources::Sink;
use crate::steps::NextSteps;
use apex_configs::Table;
use apex_types::{LentEntry, MOST_LINE};
use std::io::{Result, Write};

/// Writes the line of the entry, with its line feed. Takes no memory.
///
/// If a write failed, a prefix of the line was written.
pub fn print_entry<W: Sink>(
    table: &Table,
    entry: &LentEntry<'_>,
    writer: &mut Counted<W>,
) -> Result<()>
    requires { IsPrintable table.now entry.now }
    ensures ok { OnOk result
        (Appends (W.contents (inner_of writer.old)) (W.contents (inner_of writer.new))
        (line_of table.now entry.entry.now)) }
    ensures err { OnErr result
        (AppendsBeginning (W.contents (inner_of writer.old)) (W.contents (inner_of writer.new))
        (line_of table.now entry.entry.now)) }
    ensures counted { CountsFailure result (failures_of writer.old) (failures_of writer.new) }
    ensures failed { IfErr result (IsOfWrite W.accepts (inner_of writer.new)) }
{
    let mut line = Lines::new();
    put_line(&mut line, table, &mut NextSteps::new(), entry);
    writer.write_all(line.as_slice())
}

/// Moves the lines into the page, whose text goes out first if they may not fit behind it.
pub(crate) fn pass_on<W: Sink>(
    lines: &mut Lines,
    page: &mut Page,
    writer: &mut Counted<W>,
) -> Result<()>
    ensures ok { OnOk result
        (Passes (W.contents (inner_of writer.old)) (W.contents (inner_of writer.new))
        (page.old ++ lines.old.items) page.new) }
    ensures none { OnOk result (lines.new.items ≡ []) }
    ensures empty { OnErr result (page.new ≡ []) }
    ensures err { OnErr result
        (AppendsBeginning (W.contents (inner_of writer.old)) (W.contents (inner_of writer.new))
        (page.old ++ lines.old.items)) }
    ensures counted { CountsFailure result (failures_of writer.old) (failures_of writer.new) }
    ensures failed { IfErr result (IsOfWrite W.accepts (inner_of writer.new)) }
{
    page.make_room(LINES_ROOM, writer)?;
    page.put(lines.as_slice());
    lines.clear();
    Ok(())
}

/// Writes out the text of the page, and then the lines.
fn hand_on<W: Sink>(lines: &mut Lines, page: &mut Page, writer: &mut Counted<W>) -> Result<()>
    ensures ok { OnOk result
        (Appends (W.contents (inner_of writer.old)) (W.contents (inner_of writer.new))
        (page.old ++ lines.old.items)) }
    ensures empty { page.new ≡ [] }
    ensures err { OnErr result
        (AppendsBeginning (W.contents (inner_of writer.old)) (W.contents (inner_of writer.new))
        (page.old ++ lines.old.items)) }
    ensures counted { CountsFailure result (failures_of writer.old) (failures_of writer.new) }
    ensures failed { IfErr result (IsOfWrite W.accepts (inner_of writer.new)) }
{
    pass_on(lines, page, writer)?;
    page.hand_on(writer)
}

/// Writes the lines of the entries, many of them with one write. Takes no memory: the lines are
/// gathered in the page.
///
/// If a write failed, a prefix of the lines was written. The text that the page held before is
/// forgotten.
pub fn print_history<W: Sink>(
    table: &Table,
    entries: Entries<'_>,
    page: &mut Page,
    writer: &mut Counted<W>,
) -> Result<()>
    requires { All (IsPrintable table.now) entries }
    ensures ok { OnOk result
        (Appends (W.contents (inner_of writer.old)) (W.contents (inner_of writer.new))
        (lines_of table.now entries.entry)) }
    ensures err { OnErr result
        (AppendsBeginning (W.contents (inner_of writer.old)) (W.contents (inner_of writer.new))
        (lines_of table.now entries.entry)) }
    ensures empty { page.new ≡ [] }
    ensures counted { CountsFailure result (failures_of writer.old) (failures_of writer.new) }
    ensures failed { IfErr result (IsOfWrite W.accepts (inner_of writer.new)) }
{
    let mut lines = Lines::new();
    let mut steps = NextSteps::new();
    page.clear();
    for entry in entries.by_parts() {
        put_parts(&mut lines, table, &mut steps, &entry);
        if lines.len() + MOST_LINE > LINES_ROOM {
            pass_on(&mut lines, page, writer)?;
        }
    }
    hand_on(&mut lines, page, writer)
}
