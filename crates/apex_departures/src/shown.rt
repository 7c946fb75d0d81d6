//! The two lines of a departure, as they are shown.
ghost use Rattle.std.specs.Prelude.{◌≡◌, ◌-◌, ◌++◌, false, IfOk, IfSome, OnOk, Some};
ghost use Rattle.apex_calls.specs.Lines.{IsPrintable};
ghost use Rattle.apex_departures.specs.Lines.{given_parts, part_given};
ghost use Rattle.apex_departures.specs.Pages.{expected_text};
ghost use Rattle.apex_departures.specs.Shown.{shown};

use crate::lines::{given_line, history_in};
use crate::pages::unended;
use crate::putting::{put, put_shown};
use apex_configs::Table;
use apex_history::{Lines, NextSteps, put_line};
use apex_types::Entry;
use std::alloc::{AllocError, Global};

/// The line that departs and the line that the machine expects, as they are shown.
#[derive(Drop)]
pub struct ShownLines {
    /// The line that was given.
    pub given: Vec<u8>,
    /// The line that the machine expects, or `nothing`.
    pub expected: Vec<u8>,
}

/// Puts the line of an entry, as it is shown.
fn put_entry(text: &mut Vec<u8>, table: &Table, entry: &Entry) -> Result<(), AllocError>
    requires { IsPrintable table.now entry.now }
    ensures { OnOk result (text.new.items
        ≡ text.old.items ++ expected_text table.now (Some entry.entry.now)) }
{
    let mut lines = Lines::new();
    put_line(&mut lines, table, &mut NextSteps::new(), &entry.lent());
    put_shown(text, unended(lines.as_slice()))
}

/// Puts the line that the machine expects, as it is shown.
fn put_expected(
    text: &mut Vec<u8>,
    table: &Table,
    expected: &Option<Entry>,
) -> Result<(), AllocError>
    requires { IfSome expected.now (IsPrintable table.now) }
    ensures { OnOk result (text.new.items
        ≡ text.old.items ++ expected_text table.now expected.now) }
{
    match expected {
        Some(entry) => put_entry(text, table, entry),
        None => put(text, "nothing"),
    }
}

/// The line of this number in a text, counted from 1 behind its separator, and the line that the
/// machine expects there, as they are shown. It fails only for want of memory.
pub fn shown_lines(
    alloc: Global,
    table: &Table,
    text: &[u8],
    number: u32,
    expected: &Option<Entry>,
) -> Result<ShownLines, AllocError>
    requires { IfSome expected.now (IsPrintable table.now) }
    ensures given { IfOk result (λ lines. lines.given.items
        ≡ shown (part_given false (given_parts text.now) (number - 1))) }
    ensures expected { IfOk result (λ lines. lines.expected.items
        ≡ expected_text table.now expected.now) }
{
    let mut given = Vec::new(alloc);
    put_shown(
        &mut given,
        given_line(false, history_in(text), number).bytes,
    )?;
    let mut line = Vec::new(alloc);
    put_expected(&mut line, table, expected)?;
    Ok(ShownLines {
        given,
        expected: line,
    })
}
