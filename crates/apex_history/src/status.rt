//! The lines of the status listing: their values, and how they are printed.
ghost use Rattle.std.specs.Prelude.{◌≡◌, ◌++◌, [], IfErr, OnOk, OnErr};
ghost use Rattle.std.specs.Io.KnownBytes.{Appends};
ghost use Rattle.apex_history.specs.Counted.{inner_of, failures_of, CountsFailure, AppendsBeginning, IsOfWrite};
ghost use Rattle.apex_history.specs.Page.{Passes};
ghost use Rattle.apex_history.specs.StatusRows.{row_text, IsPrintableRow};

use crate::counting::Counted;
use crate::pages::Page;
use crate::printing::pass_on;
use crate::puts::{Lines, put_row};
use crate::sources::Sink;
use crate::status_rows::StatusRow;
use apex_configs::Table;
use std::io::{Result, Write};

/// Writes one line of the status listing, with its line feed. Takes no memory.
///
/// If a write failed, a prefix of the line was written.
pub fn print_row<W: Sink>(table: &Table, row: &StatusRow<'_>, writer: &mut Counted<W>) -> Result<()>
    requires { IsPrintableRow table.now row.now }
    ensures ok { OnOk result
        (Appends (W.contents (inner_of writer.old)) (W.contents (inner_of writer.new))
        (row_text table.now row.now)) }
    ensures err { OnErr result
        (AppendsBeginning (W.contents (inner_of writer.old)) (W.contents (inner_of writer.new))
        (row_text table.now row.now)) }
    ensures counted { CountsFailure result (failures_of writer.old) (failures_of writer.new) }
    ensures failed { IfErr result (IsOfWrite W.accepts (inner_of writer.new)) }
{
    let mut line = Lines::new();
    put_row(&mut line, table, row);
    writer.write_all(line.as_slice())
}

/// Puts one line of the status listing into the page, whose text goes out first if the line may not
/// fit behind it. Takes no memory.
///
/// If a write failed, a prefix of the text that the page held was written, and the page is empty.
pub fn gather_row<W: Sink>(
    table: &Table,
    row: &StatusRow<'_>,
    page: &mut Page,
    writer: &mut Counted<W>,
) -> Result<()>
    requires { IsPrintableRow table.now row.now }
    ensures ok { OnOk result
        (Passes (W.contents (inner_of writer.old)) (W.contents (inner_of writer.new))
        (page.old ++ row_text table.now row.now) page.new) }
    ensures empty { OnErr result (page.new ≡ []) }
    ensures err { OnErr result
        (AppendsBeginning (W.contents (inner_of writer.old)) (W.contents (inner_of writer.new))
        (page.old ++ row_text table.now row.now)) }
    ensures counted { CountsFailure result (failures_of writer.old) (failures_of writer.new) }
    ensures failed { IfErr result (IsOfWrite W.accepts (inner_of writer.new)) }
{
    let mut line = Lines::new();
    put_row(&mut line, table, row);
    pass_on(&mut line, page, writer)
}
