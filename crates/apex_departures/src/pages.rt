//! The page that explains a verdict: lines of text, or an object of JSON.
ghost use Rattle.std.specs.Prelude.{◌≡◌, ◌++◌, OnOk, IfSome, Some};
ghost use Rattle.apex_calls.specs.Lines.{IsPrintable};
ghost use Rattle.apex_objects.specs.Parts.{string_text};
ghost use Rattle.apex_departures.specs.Pages.{column_in, compared_in, departure_in, expected_in};
ghost use Rattle.apex_departures.specs.Pages.{head_in, legal_in, line_in, nothing_in, reason_in};
ghost use Rattle.apex_departures.specs.Pages.{unended};
ghost use Rattle.apex_departures.specs.Shown.{shown};

use crate::lines::GivenLine;
use crate::putting::{column, put, put_between, put_number_between, put_shown};
use apex_configs::Table;
use apex_history::{Lines, NextSteps, put_line};
use apex_json::{Form, pick, put_json};
use apex_types::Entry;
use std::alloc::{AllocError, Global};

/// Puts bytes as a string of JSON.
fn put_string(page: &mut Vec<u8>, bytes: &[u8]) -> Result<(), AllocError>
    ensures { OnOk result (page.new.items ≡ page.old.items ++ string_text bytes.now) }
{
    put(page, "\"")?;
    put_json(page, bytes)?;
    put(page, "\"")
}

/// Puts a line as it is shown, as a string of JSON.
fn put_line_string(alloc: Global, page: &mut Vec<u8>, line: &[u8]) -> Result<(), AllocError>
    ensures { OnOk result (page.new.items ≡ page.old.items ++ string_text (shown line.now)) }
{
    let mut text = Vec::new(alloc);
    put_shown(&mut text, line)?;
    put_string(page, text.as_slice())
}

/// Puts a line as it is shown, in JSON as a string.
fn put_line_in(alloc: Global, form: Form, page: &mut Vec<u8>, line: &[u8]) -> Result<(), AllocError>
    ensures { OnOk result (page.new.items ≡ page.old.items ++ line_in form line.now) }
{
    match form {
        Form::Text => put_shown(page, line),
        Form::Json => put_line_string(alloc, page, line),
    }
}

/// Puts the verdict on a history whose lines are all the machine's.
pub(crate) fn put_legal(form: Form, page: &mut Vec<u8>, count: u32) -> Result<(), AllocError>
    ensures { OnOk result (page.new.items ≡ page.old.items ++ legal_in form count) }
{
    match form {
        Form::Text => put_number_between(page, "legal ", count as usize, "\n"),
        Form::Json => put_number_between(page, "{\"legal\":", count as usize, "}\n"),
    }
}

/// Puts the number of the line that departs.
fn put_head(form: Form, page: &mut Vec<u8>, number: u32) -> Result<(), AllocError>
    ensures { OnOk result (page.new.items ≡ page.old.items ++ head_in form number) }
{
    let number = number as usize;
    match form {
        Form::Text => put_number_between(page, "departs at ", number, "\ngiven: "),
        Form::Json => put_number_between(page, "{\"departs\":", number, ",\"given\":"),
    }
}

/// Puts the column in which the lines differ.
fn put_column(form: Form, page: &mut Vec<u8>, given: &[u8], line: &[u8]) -> Result<(), AllocError>
    ensures { OnOk result (page.new.items ≡ page.old.items ++ column_in form given.now line.now) }
{
    let column = column(given, line);
    match form {
        Form::Text => put_number_between(page, "\ncolumn: ", column, "\n"),
        Form::Json => put_number_between(page, ",\"column\":", column, ",\"reason\":"),
    }
}

/// A line without its line feed.
pub(crate) fn unended(line: &[u8]) -> &[u8]
    ensures { result.now ≡ unended line.now }
{
    &line[..line.len().saturating_sub(1)]
}

/// Puts the line that the machine expects, and the column.
fn put_expected(
    alloc: Global,
    form: Form,
    page: &mut Vec<u8>,
    given: &[u8],
    line: &[u8],
) -> Result<(), AllocError>
    ensures { OnOk result (page.new.items ≡ page.old.items ++ expected_in form given.now line.now) }
{
    put(page, pick(form, "\nexpected: ", ",\"expected\":"))?;
    put_line_in(alloc, form, page, line)?;
    put_column(form, page, given, line)
}

/// Puts the line of the entry that the machine expects, and the column.
fn put_entry(
    alloc: Global,
    form: Form,
    page: &mut Vec<u8>,
    table: &Table,
    given: &[u8],
    entry: &Entry,
) -> Result<(), AllocError>
    requires { IsPrintable table.now entry.now }
    ensures { OnOk result (page.new.items
        ≡ page.old.items ++ compared_in form table.now given.now (Some entry.entry.now)) }
{
    let mut lines = Lines::new();
    put_line(&mut lines, table, &mut NextSteps::new(), &entry.lent());
    put_expected(alloc, form, page, given, unended(lines.as_slice()))
}

/// Puts that the machine expects no line.
fn put_nothing(form: Form, page: &mut Vec<u8>, given: &[u8]) -> Result<(), AllocError>
    ensures { OnOk result (page.new.items ≡ page.old.items ++ nothing_in form given.now) }
{
    let column = column(given, &[]);
    match form {
        Form::Text => put_number_between(page, "\nexpected: nothing\ncolumn: ", column, "\n"),
        Form::Json => put_number_between(
            page,
            ",\"expected\":null,\"column\":",
            column,
            ",\"reason\":null}\n",
        ),
    }
}

/// Puts the line that the machine expects, if it expects one, and the column.
fn put_compared(
    alloc: Global,
    form: Form,
    page: &mut Vec<u8>,
    table: &Table,
    given: &[u8],
    expected: &Option<Entry>,
) -> Result<(), AllocError>
    requires { IfSome expected.now (IsPrintable table.now) }
    ensures { OnOk result (page.new.items
        ≡ page.old.items ++ compared_in form table.now given.now expected.now) }
{
    match expected {
        Some(entry) => put_entry(alloc, form, page, table, given, entry),
        None => put_nothing(form, page, given),
    }
}

/// Puts a departure up to the reason of the machine's entry.
#[tactic(auto, using(std::proofs::Common::append_assoc))]
pub(crate) fn put_departure(
    alloc: Global,
    form: Form,
    page: &mut Vec<u8>,
    table: &Table,
    line: &GivenLine<'_>,
    expected: &Option<Entry>,
) -> Result<(), AllocError>
    requires { IfSome expected.now (IsPrintable table.now) }
    ensures { OnOk result (page.new.items ≡ page.old.items
        ++ departure_in form table.now line.now.number line.now.bytes.now expected.now) }
{
    put_head(form, page, line.number)?;
    put_line_in(alloc, form, page, line.bytes)?;
    put_compared(alloc, form, page, table, line.bytes, expected)
}

/// Puts the reason, and in JSON the end of the object.
pub(crate) fn put_reason(form: Form, page: &mut Vec<u8>, reason: &[u8]) -> Result<(), AllocError>
    ensures { OnOk result (page.new.items ≡ page.old.items ++ reason_in form reason.now) }
{
    match form {
        Form::Text => put_between(page, "reason: ", reason, "\n"),
        Form::Json => {
            put_string(page, reason)?;
            put(page, "}\n")
        }
    }
}
