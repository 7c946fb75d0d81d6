//! The objects of what a session answers besides entries and rows.
ghost use Rattle.std.specs.Prelude.{◌≡◌, ◌+◌, ◌≤◌, ◌++◌, decimal, length};
ghost use Rattle.arrayvec.specs.ArrayVec.{array_vec_len};
ghost use Rattle.apex_types.specs.declared.limits.TheConstants.{MOST_CORES};
ghost use Rattle.apex_objects.specs.Answers.{count_object, fault_object, front_object, next_object};
ghost use Rattle.apex_objects.specs.Parts.{or_null, process_object};
ghost use Rattle.apex_objects.specs.declared.answers.TheConstants.{MOST_FAULT};
ghost use Rattle.apex_objects.specs.declared.lines.TheConstants.{MOST_OBJECT, OBJECTS_ROOM};

use crate::elements::{Element, put_array};
use crate::lines::{MOST_OBJECT, OBJECTS_ROOM, ObjectLines, put_instant, put_string};
use apex_configs::Table;
use apex_texts::{put, put_long_number, put_number};
use apex_types::ProcessId;

impl Element for u8 {
    ghost text = { λ table number. decimal number };

    fn put_element(&self, line: &mut ObjectLines, _table: &Table) {
        put_number(line, u32::from(*self));
    }
}

impl Element for Option<ProcessId> {
    ghost text = { λ table process. or_null (process_object table) process };

    fn put_element(&self, line: &mut ObjectLines, table: &Table) {
        match self {
            Some(process) => process.put_element(line, table),
            None => put(line, "null"),
        }
    }
}

/// Puts a number, such as that of the entries, behind a key of at most 16 bytes.
#[tactic(auto, using(std::proofs::Common::append_assoc))]
pub fn put_count(line: &mut ObjectLines, key: &str, count: u64)
    requires key { length key.now ≤ 16 }
    requires room { array_vec_len line.old + MOST_OBJECT ≤ OBJECTS_ROOM }
    ensures { line.new.items ≡ line.old.items ++ count_object key.now count }
{
    put(line, "{\"");
    put(line, key);
    put(line, "\":");
    put_long_number(line, count);
    put(line, "}\n");
}

/// The most bytes of the reason why a command is not carried out.
pub const MOST_FAULT: usize = 64;

/// Puts the reason, of at most [`MOST_FAULT`] bytes, why a command is not carried out.
#[tactic(auto, using(std::proofs::Common::append_assoc))]
pub fn put_fault(line: &mut ObjectLines, reason: &str)
    requires short { length reason.now ≤ MOST_FAULT }
    requires room { array_vec_len line.old + MOST_OBJECT ≤ OBJECTS_ROOM }
    ensures { line.new.items ≡ line.old.items ++ fault_object reason.now }
{
    put(line, "{\"fault\":");
    put_string(line, reason.as_bytes());
    put(line, "}\n");
}

/// Puts an instant in ticks, if there is one, and the numbers of cores.
#[tactic(auto, using(std::proofs::Common::append_assoc))]
pub fn put_next(line: &mut ObjectLines, table: &Table, instant: Option<u64>, cores: &[u8])
    requires few { length cores.now ≤ MOST_CORES }
    requires room { array_vec_len line.old + MOST_OBJECT ≤ OBJECTS_ROOM }
    ensures { line.new.items ≡ line.old.items ++ next_object instant cores.now }
{
    put(line, "{\"next\":");
    put_instant(line, &instant);
    put(line, ",\"cores\":");
    put_array(line, table, cores);
    put(line, "}\n");
}

/// Puts the number of entries, the time in ticks, and the process of each core.
#[tactic(auto, using(std::proofs::Common::append_assoc))]
pub fn put_front(
    line: &mut ObjectLines,
    table: &Table,
    entries: u64,
    now: u64,
    running: &[Option<ProcessId>],
)
    requires few { length running.now ≤ MOST_CORES }
    requires room { array_vec_len line.old + MOST_OBJECT ≤ OBJECTS_ROOM }
    ensures { line.new.items ≡ line.old.items ++ front_object table.now entries now running.now }
{
    put(line, "{\"front\":");
    put_long_number(line, entries);
    put(line, ",\"now\":");
    put_long_number(line, now);
    put(line, ",\"running\":");
    put_array(line, table, running);
    put(line, "}\n");
}
