//! The object of an entry.
ghost use Rattle.std.specs.Prelude.{◌≡◌, ◌+◌, ◌≤◌, ◌++◌};
ghost use Rattle.arrayvec.specs.ArrayVec.{array_vec_len};
ghost use Rattle.apex_calls.specs.Lines.{IsPrintable, who_text};
ghost use Rattle.apex_objects.specs.Entries.{caller_part, entry_object, front_part};
ghost use Rattle.apex_objects.specs.declared.lines.TheConstants.{MOST_OBJECT, OBJECTS_ROOM, THING_ROOM};

use crate::elements::put_array;
use crate::lines::{ObjectLines, put_process};
use crate::texts::put_texts;
use apex_configs::Table;
use apex_texts::{put, put_long_number, put_number};
use apex_types::{Caller, LentEntry, Who};

/// The maker of an event.
#[tactic(auto, using(std::proofs::Common::append_assoc))]
fn put_who(line: &mut ObjectLines, who: &Who)
    requires { array_vec_len line.old + 30 ≤ OBJECTS_ROOM }
    ensures text { line.new.items ≡ line.old.items ++ who_text who.now }
    ensures short { array_vec_len line.new ≤ array_vec_len line.old + 30 }
{
    match who {
        Who::Core(core) => {
            put(line, "core");
            put_number(line, u32::from(core.number()));
        }
        Who::Ticker => put(line, "ticker"),
    }
}

/// The caller: a process, the init list, or none.
fn put_caller(line: &mut ObjectLines, table: &Table, caller: &Caller)
    requires { array_vec_len line.old + THING_ROOM + 40 ≤ OBJECTS_ROOM }
    ensures text { line.new.items ≡ line.old.items ++ caller_part table.now caller.now }
    ensures short { array_vec_len line.new ≤ array_vec_len line.old + THING_ROOM + 40 }
{
    match caller {
        Caller::Process(process) => {
            put_process(line, table, ",\"process\":", ",\"name\":", &Some(*process));
        }
        Caller::Init => put(line, ",\"process\":\"init\",\"name\":null"),
        Caller::Nobody => put_process(line, table, ",\"process\":", ",\"name\":", &None),
    }
}

/// The number of the entry, its time, the maker of its event, and the caller.
#[tactic(auto, using(std::proofs::Common::append_assoc), unfolding(crate::specs::Entries::front_part))]
fn put_front(line: &mut ObjectLines, table: &Table, entry: &LentEntry<'_>)
    requires { array_vec_len line.old + 400 ≤ OBJECTS_ROOM }
    ensures text { line.new.items ≡ line.old.items ++ front_part table.now entry.entry.now }
    ensures short { array_vec_len line.new ≤ array_vec_len line.old + 400 }
{
    put(line, "{\"number\":");
    put_number(line, entry.number);
    put(line, ",\"now\":");
    put_long_number(line, entry.now);
    put(line, ",\"who\":\"");
    put_who(line, &entry.who);
    put(line, "\"");
    put_caller(line, table, &entry.process);
}

/// Puts the object of the entry, with its line feed, behind the others. Takes no memory.
///
/// An object has at most [`MOST_OBJECT`](crate::MOST_OBJECT) bytes: so much room there has to be.
#[tactic(auto, using(std::proofs::Common::append_assoc))]
pub fn put_entry_object(lines: &mut ObjectLines, table: &Table, entry: &LentEntry<'_>)
    requires printable { IsPrintable table.now entry.now }
    requires room { array_vec_len lines.old + MOST_OBJECT ≤ OBJECTS_ROOM }
    ensures text { lines.new.items ≡ lines.old.items ++ entry_object table.now entry.entry.now }
    ensures short { array_vec_len lines.new ≤ array_vec_len lines.old + MOST_OBJECT }
{
    put_front(lines, table, entry);
    put_texts(lines, table, entry);
    put(lines, ",\"notices\":");
    put_array(lines, table, entry.notices);
    put(lines, "}\n");
}
