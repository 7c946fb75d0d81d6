//! The report as JSON, written to a writer.
ghost use Rattle.std.specs.Prelude.{◌≡◌, ◌++◌, List, codes, decimal, flat_map, IfErr, OnOk, OnErr};
ghost use Rattle.std.specs.Io.KnownBytes.{Appends};
ghost use Rattle.apex_json.specs.declared.Form.TheVariants.{Json};
ghost use Rattle.apex_types.specs.declared.entries.Entry.{Entry};
ghost use Rattle.apex_history.specs.Counted.{inner_of, failures_of, CountsFailure, AppendsBeginning, IsOfWrite};
ghost use Rattle.apex_report.specs.Json.{array_text, arrays_text, elements_text, json_of, report_json};
ghost use Rattle.apex_report.specs.Rows.{behind_text};
ghost use Rattle.apex_report.specs.Texts.{IsReportOf};

use crate::lines::Line;
use crate::printing::{print_rows, row_line};
use crate::reports::Report;
use crate::rows::Figures;
use apex_configs::Table;
use apex_history::{Counted, Sink};
use apex_json::Form;
use apex_texts::{put, put_number};
use std::io::{Result, Write};

/// Writes the objects of figures, of which there is a first.
fn print_from<W: Sink, F: Figures>(
    table: &Table,
    first: &F,
    others: &[F],
    writer: &mut Counted<W>,
) -> Result<()>
    ensures ok { OnOk result
        (Appends (W.contents (inner_of writer.old)) (W.contents (inner_of writer.new))
        ((codes "\n" ++ F.text Json table.now first.now)
        ++ flat_map (behind_text Json (F.text Json table.now)) others.now)) }
    ensures err { OnErr result
        (AppendsBeginning (W.contents (inner_of writer.old)) (W.contents (inner_of writer.new))
        ((codes "\n" ++ F.text Json table.now first.now)
        ++ flat_map (behind_text Json (F.text Json table.now)) others.now)) }
    ensures counted { CountsFailure result (failures_of writer.old) (failures_of writer.new) }
    ensures failed { IfErr result (IsOfWrite W.accepts (inner_of writer.new)) }
{
    writer.write_all(row_line(table, first, Form::Json, "\n").as_slice())?;
    print_rows(table, others, Form::Json, writer)
}

/// Writes the objects of figures, each on a line of its own.
fn print_elements<W: Sink, F: Figures>(
    table: &Table,
    list: &[F],
    writer: &mut Counted<W>,
) -> Result<()>
    ensures ok { OnOk result
        (Appends (W.contents (inner_of writer.old)) (W.contents (inner_of writer.new))
        (elements_text (F.text Json table.now) list.now)) }
    ensures err { OnErr result
        (AppendsBeginning (W.contents (inner_of writer.old)) (W.contents (inner_of writer.new))
        (elements_text (F.text Json table.now) list.now)) }
    ensures counted { CountsFailure result (failures_of writer.old) (failures_of writer.new) }
    ensures failed { IfErr result (IsOfWrite W.accepts (inner_of writer.new)) }
{
    match list.split_first() {
        Some((first, others)) => print_from(table, first, others, writer),
        None => print_text("", writer),
    }
}

/// Writes a text.
fn print_text<W: Sink>(text: &str, writer: &mut Counted<W>) -> Result<()>
    ensures ok { OnOk result
        (Appends (W.contents (inner_of writer.old)) (W.contents (inner_of writer.new))
        text.now) }
    ensures err { OnErr result
        (AppendsBeginning (W.contents (inner_of writer.old)) (W.contents (inner_of writer.new))
        text.now) }
    ensures counted { CountsFailure result (failures_of writer.old) (failures_of writer.new) }
    ensures failed { IfErr result (IsOfWrite W.accepts (inner_of writer.new)) }
{
    writer.write_all(text.as_bytes())
}

/// Writes the array of figures, behind a front.
fn print_array<W: Sink, F: Figures>(
    front: &str,
    table: &Table,
    list: &[F],
    writer: &mut Counted<W>,
) -> Result<()>
    ensures ok { OnOk result
        (Appends (W.contents (inner_of writer.old)) (W.contents (inner_of writer.new))
        (array_text front.now (F.text Json table.now) list.now)) }
    ensures err { OnErr result
        (AppendsBeginning (W.contents (inner_of writer.old)) (W.contents (inner_of writer.new))
        (array_text front.now (F.text Json table.now) list.now)) }
    ensures counted { CountsFailure result (failures_of writer.old) (failures_of writer.new) }
    ensures failed { IfErr result (IsOfWrite W.accepts (inner_of writer.new)) }
{
    print_text(front, writer)?;
    print_elements(table, list, writer)?;
    print_text("]", writer)
}

/// Writes the arrays of a report.
fn print_arrays<W: Sink>(table: &Table, report: &Report, writer: &mut Counted<W>) -> Result<()>
    ensures ok { OnOk result
        (Appends (W.contents (inner_of writer.old)) (W.contents (inner_of writer.new))
        (arrays_text table.now report.now)) }
    ensures err { OnErr result
        (AppendsBeginning (W.contents (inner_of writer.old)) (W.contents (inner_of writer.new))
        (arrays_text table.now report.now)) }
    ensures counted { CountsFailure result (failures_of writer.old) (failures_of writer.new) }
    ensures failed { IfErr result (IsOfWrite W.accepts (inner_of writer.new)) }
{
    print_array(",\"cores\":[", table, report.cores(), writer)?;
    print_array(",\"processes\":[", table, report.processes(), writer)?;
    print_array(",\"objects\":[", table, report.objects(), writer)?;
    print_array(",\"services\":[", table, report.services(), writer)
}

/// The number of entries, which comes first.
fn entries_line(entries: u32) -> Line
    ensures { result.items ≡ codes "{\"entries\":" ++ decimal entries }
{
    let mut line = Line::new();
    put(&mut line, "{\"entries\":");
    put_number(&mut line, entries);
    line
}

/// Writes the report as JSON.
fn print_json<W: Sink>(table: &Table, report: &Report, writer: &mut Counted<W>) -> Result<()>
    ensures ok { OnOk result
        (Appends (W.contents (inner_of writer.old)) (W.contents (inner_of writer.new))
        (json_of table.now report.now)) }
    ensures err { OnErr result
        (AppendsBeginning (W.contents (inner_of writer.old)) (W.contents (inner_of writer.new))
        (json_of table.now report.now)) }
    ensures counted { CountsFailure result (failures_of writer.old) (failures_of writer.new) }
    ensures failed { IfErr result (IsOfWrite W.accepts (inner_of writer.new)) }
{
    writer.write_all(entries_line(report.entries()).as_slice())?;
    print_arrays(table, report, writer)?;
    print_text("}\n", writer)
}

/// Writes the report of a history of the table's partition as one JSON object, with the figures of
/// [`print_report`](crate::print_report) under their keys; `null` stands for `-`, and each service has
/// its figures. Takes no memory.
///
/// If a write failed, a prefix of the text was written.
pub fn print_report_json<W: Sink>(
    table: &Table,
    report: &Report,
    writer: &mut Counted<W>,
) -> Result<()>
    ensures ok { (history : List Entry) → IsReportOf table.now history report.now → OnOk result
        (Appends (W.contents (inner_of writer.old)) (W.contents (inner_of writer.new))
        (report_json table.now history)) }
    ensures err { (history : List Entry) → IsReportOf table.now history report.now → OnErr result
        (AppendsBeginning (W.contents (inner_of writer.old)) (W.contents (inner_of writer.new))
        (report_json table.now history)) }
    ensures written { OnOk result
        (Appends (W.contents (inner_of writer.old)) (W.contents (inner_of writer.new))
        (json_of table.now report.now)) }
    ensures begun { OnErr result
        (AppendsBeginning (W.contents (inner_of writer.old)) (W.contents (inner_of writer.new))
        (json_of table.now report.now)) }
    ensures counted { CountsFailure result (failures_of writer.old) (failures_of writer.new) }
    ensures failed { IfErr result (IsOfWrite W.accepts (inner_of writer.new)) }
{
    print_json(table, report, writer)
}
