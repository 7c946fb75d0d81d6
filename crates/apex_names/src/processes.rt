//! The processes that texts name.
ghost use Rattle.std.specs.Prelude.{◌≡◌};
ghost use Rattle.apex_names.specs.Processes.{place_of, place_of_name, place_of_number};

use apex_configs::Table;
use apex_types::{Name, ProcessId, number_at_most};

/// The process of this name.
fn process_named(table: &Table, name: &Name) -> Option<ProcessId>
    ensures { result ≡ place_of_name table.now name.now }
{
    for place in 0..table.process_count() {
        let process = ProcessId::at(place as u8);
        if table.process(process).name() == name {
            return Some(process);
        }
    }
    None
}

/// The process of the number that this text writes.
fn process_numbered(table: &Table, text: &[u8]) -> Option<ProcessId>
    ensures { result ≡ place_of_number table.now text.now }
{
    match number_at_most(text, table.process_count() as u32) {
        Some(number) if 1 <= number => Some(ProcessId::at((number - 1) as u8)),
        _ => None,
    }
}

/// The process that a name names, or else numbers: processes are counted from 1. None if the table
/// has none of this name or number.
pub fn process_of(table: &Table, name: &Name) -> Option<ProcessId>
    ensures { result ≡ place_of table.now name.now }
{
    match process_named(table, name) {
        Some(process) => Some(process),
        None => process_numbered(table, name.as_bytes()),
    }
}
