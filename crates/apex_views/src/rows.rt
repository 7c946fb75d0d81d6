//! The rows of a picture, by the names of processes.
ghost use Rattle.std.specs.Prelude.{◌≡◌, IfOk, option_map};
ghost use Rattle.apex_views.specs.Rows.{places_named, rows_for, rows_said, some_of};

use apex_configs::Table;
use apex_names::process_of;
use apex_types::{Name, ProcessId};
use std::alloc::{AllocError, Global};

/// The processes that have a row in a picture.
#[derive(Drop)]
pub(crate) enum RowsAsked {
    /// All processes.
    All,
    /// These processes.
    These(Vec<ProcessId>),
    /// The table lacks a process of this name or number.
    Lacking(Name),
}

/// The processes of these names or numbers.
fn processes_named(alloc: Global, table: &Table, names: &[Name]) -> Result<RowsAsked, AllocError>
    ensures { IfOk result (λ asked. rows_said asked
        ≡ some_of (places_named table.now names.now)) }
{
    let mut processes = Vec::new(alloc);
    for name in names {
        let Some(process) = process_of(table, name) else {
            return Ok(RowsAsked::Lacking(*name));
        };
        processes.push(process)?;
    }
    Ok(RowsAsked::These(processes))
}

/// The processes that have a row, if these names or numbers are asked for, or none.
pub(crate) fn rows_for(
    alloc: Global,
    table: &Table,
    names: &Option<Vec<Name>>,
) -> Result<RowsAsked, AllocError>
    ensures { IfOk result (λ asked. rows_said asked
        ≡ rows_for table.now (option_map (λ list. list.items) names.now)) }
{
    match names {
        Some(names) => processes_named(alloc, table, names.as_slice()),
        None => Ok(RowsAsked::All),
    }
}
