//! The lines of a report, written to a writer.
ghost use Rattle.std.specs.Prelude.{◌≡◌, ◌≤◌, ◌++◌, List, flat_map, length, IfErr, OnOk, OnErr};
ghost use Rattle.std.specs.Io.KnownBytes.{Appends};
ghost use Rattle.apex_types.specs.declared.entries.Entry.{Entry};
ghost use Rattle.apex_history.specs.Counted.{inner_of, failures_of, CountsFailure, AppendsBeginning, IsOfWrite};
ghost use Rattle.apex_machine.specs.text.Status.{history_line};
ghost use Rattle.apex_report.specs.Rows.{behind_text};
ghost use Rattle.apex_report.specs.Texts.{lines_of, report_text, IsOfTable, IsReportOf};
ghost use Rattle.apex_report.specs.declared.rows.TheConstants.{FRONT};

use crate::lines::Line;
use crate::reports::Report;
use crate::rows::Figures;
use apex_configs::Table;
use apex_history::{Counted, Sink};
use apex_json::{Form, pick};
use apex_texts::{put, put_number};
use std::io::{Result, Write};

/// The number of entries, which comes first.
#[tactic(auto, using(std::proofs::Common::append_assoc))]
fn history_line(entries: u32) -> Line
    ensures { result.items ≡ history_line entries }
{
    let mut line = Line::new();
    put(&mut line, "history ");
    put_number(&mut line, entries);
    put(&mut line, "\n");
    line
}

/// The row of figures, behind a front.
pub(crate) fn row_line<F: Figures>(table: &Table, figures: &F, form: Form, front: &str) -> Line
    requires { length front.now ≤ FRONT }
    ensures { result.items ≡ front.now ++ F.text form table.now figures.now }
{
    let mut line = Line::new();
    put(&mut line, front);
    figures.put_row(&mut line, form, table);
    line
}

/// Writes the rows of figures behind others.
pub(crate) fn print_rows<W: Sink, F: Figures>(
    table: &Table,
    rows: &[F],
    form: Form,
    writer: &mut Counted<W>,
) -> Result<()>
    ensures ok { OnOk result
        (Appends (W.contents (inner_of writer.old)) (W.contents (inner_of writer.new))
        (flat_map (behind_text form (F.text form table.now)) rows.now)) }
    ensures err { OnErr result
        (AppendsBeginning (W.contents (inner_of writer.old)) (W.contents (inner_of writer.new))
        (flat_map (behind_text form (F.text form table.now)) rows.now)) }
    ensures counted { CountsFailure result (failures_of writer.old) (failures_of writer.new) }
    ensures failed { IfErr result (IsOfWrite W.accepts (inner_of writer.new)) }
{
    let front = pick(form, "", ",\n");
    for figures in rows {
        writer.write_all(row_line(table, figures, form, front).as_slice())?;
    }
    Ok(())
}

/// Writes the lines of the report: the number of entries, each core, each process, each object, and each
/// service that refused a call.
fn print_lines<W: Sink>(table: &Table, report: &Report, writer: &mut Counted<W>) -> Result<()>
    ensures ok { OnOk result
        (Appends (W.contents (inner_of writer.old)) (W.contents (inner_of writer.new))
        (lines_of table.now report.now)) }
    ensures err { OnErr result
        (AppendsBeginning (W.contents (inner_of writer.old)) (W.contents (inner_of writer.new))
        (lines_of table.now report.now)) }
    ensures counted { CountsFailure result (failures_of writer.old) (failures_of writer.new) }
    ensures failed { IfErr result (IsOfWrite W.accepts (inner_of writer.new)) }
{
    writer.write_all(history_line(report.entries()).as_slice())?;
    print_rows(table, report.cores(), Form::Text, writer)?;
    print_rows(table, report.processes(), Form::Text, writer)?;
    print_rows(table, report.objects(), Form::Text, writer)?;
    print_rows(table, report.services(), Form::Text, writer)
}

/// Writes the report of a history of the table's partition: the lines of the number of entries, of
/// each core, of each process, of each object, and of each service that refused a call. Takes no memory.
///
/// If a write failed, a prefix of the lines was written.
pub fn print_report<W: Sink>(table: &Table, report: &Report, writer: &mut Counted<W>) -> Result<()>
    requires { IsOfTable table.now report.now }
    ensures ok { (history : List Entry) → IsReportOf table.now history report.now → OnOk result
        (Appends (W.contents (inner_of writer.old)) (W.contents (inner_of writer.new))
        (report_text table.now history)) }
    ensures err { (history : List Entry) → IsReportOf table.now history report.now → OnErr result
        (AppendsBeginning (W.contents (inner_of writer.old)) (W.contents (inner_of writer.new))
        (report_text table.now history)) }
    ensures written { OnOk result
        (Appends (W.contents (inner_of writer.old)) (W.contents (inner_of writer.new))
        (lines_of table.now report.now)) }
    ensures begun { OnErr result
        (AppendsBeginning (W.contents (inner_of writer.old)) (W.contents (inner_of writer.new))
        (lines_of table.now report.now)) }
    ensures counted { CountsFailure result (failures_of writer.old) (failures_of writer.new) }
    ensures failed { IfErr result (IsOfWrite W.accepts (inner_of writer.new)) }
{
    print_lines(table, report, writer)
}
