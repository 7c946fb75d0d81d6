//! Lines of objects, and what is put into them.
ghost use Rattle.std.specs.Prelude.{◌≡◌, ◌+◌, ◌*◌, ◌≤◌, ◌++◌, length, codes, decimal};
ghost use Rattle.arrayvec.specs.ArrayVec.{array_vec_len};
ghost use Rattle.apex_json.specs.declared.strings.TheConstants.{MOST_ESCAPE};
ghost use Rattle.apex_types.specs.declared.limits.TheConstants.{MOST_NAME};
ghost use Rattle.apex_machine.specs.text.Texts.{id_text};
ghost use Rattle.apex_objects.specs.Parts.{or_null, process_part, string_text, thing_part};
ghost use Rattle.apex_objects.specs.declared.lines.TheConstants.{OBJECTS_ROOM, THING_ROOM};

use apex_configs::Table;
use apex_json::{MOST_ESCAPE, add_json};
use apex_names::process_name;
use apex_texts::{put, put_long_number, put_number};
use apex_types::{Id, MOST_LINE, MOST_NAME, MOST_NOTICES, ProcessId};
use arrayvec::ArrayVec;

/// The most bytes of a thing's id and of its name as a string.
pub(crate) const THING_ROOM: usize = 20 + MOST_ESCAPE * MOST_NAME + 2;

/// The most bytes of the keys of an element of an array, and of the comma before it.
const KEYS_ROOM: usize = 64;

/// The most bytes of an element of an array, with the comma before it.
pub(crate) const ELEMENT_ROOM: usize = THING_ROOM + KEYS_ROOM;

/// The most bytes of the object of an entry or of a row, with its line feed: those of the two texts
/// of a line, each byte escaped, those of the notices, and 512 more.
pub const MOST_OBJECT: usize = MOST_ESCAPE * MOST_LINE + ELEMENT_ROOM * MOST_NOTICES + 512;

/// The most bytes of the objects that are put together before they are written.
pub const OBJECTS_ROOM: usize = 65_536;

/// Objects, a line each, one behind the other: a buffer of at most [`OBJECTS_ROOM`] bytes, of which
/// an object takes at most [`MOST_OBJECT`].
pub type ObjectLines = ArrayVec<u8, OBJECTS_ROOM>;

/// Puts an instant in ticks, or `null`.
pub(crate) fn put_instant(line: &mut ObjectLines, instant: &Option<u64>)
    requires { array_vec_len line.old + 20 ≤ OBJECTS_ROOM }
    ensures text { line.new.items ≡ line.old.items ++ or_null decimal instant.now }
    ensures short { array_vec_len line.new ≤ array_vec_len line.old + 20 }
{
    match instant {
        Some(instant) => put_long_number(line, *instant),
        None => put(line, "null"),
    }
}

fn put_id<K: Copy>(line: &mut ObjectLines, id: Id<K>)
    requires { array_vec_len line.old + 20 ≤ OBJECTS_ROOM }
    ensures text { line.new.items ≡ line.old.items ++ id_text id }
    ensures short { array_vec_len line.new ≤ array_vec_len line.old + 20 }
{
    put_number(line, id.number());
}

/// Puts bytes as a string.
#[tactic(auto, using(std::proofs::Common::append_assoc), unfolding(crate::specs::Parts::string_text))]
pub(crate) fn put_string(line: &mut ObjectLines, bytes: &[u8])
    requires { array_vec_len line.old + MOST_ESCAPE * length bytes.now + 2 ≤ OBJECTS_ROOM }
    ensures text { line.new.items ≡ line.old.items ++ string_text bytes.now }
    ensures short { array_vec_len line.new
        ≤ array_vec_len line.old + MOST_ESCAPE * length bytes.now + 2 }
{
    put(line, "\"");
    add_json(line, bytes);
    put(line, "\"");
}

/// Puts a thing of the table: behind the one key its id, and behind the other one its name.
#[tactic(auto, using(std::proofs::Common::append_assoc), unfolding(crate::specs::Parts::thing_part))]
pub(crate) fn put_thing<K: Copy>(
    line: &mut ObjectLines,
    key: &str,
    id: Id<K>,
    name_key: &str,
    name: &[u8],
)
    requires short { length name.now ≤ MOST_NAME }
    requires room { array_vec_len line.old + length key.now + length name_key.now + THING_ROOM
        ≤ OBJECTS_ROOM }
    ensures text { line.new.items
        ≡ line.old.items ++ thing_part key.now id name_key.now name.now }
    ensures short { array_vec_len line.new
        ≤ array_vec_len line.old + length key.now + length name_key.now + THING_ROOM }
{
    put(line, key);
    put_id(line, id);
    put(line, name_key);
    put_string(line, name);
}

/// Puts `null` behind each of two keys.
#[tactic(auto, using(std::proofs::Common::append_assoc))]
fn put_nulls(line: &mut ObjectLines, key: &str, name_key: &str)
    requires { array_vec_len line.old + length key.now + length name_key.now + 8 ≤ OBJECTS_ROOM }
    ensures text { line.new.items
        ≡ line.old.items ++ (key.now ++ codes "null" ++ name_key.now ++ codes "null") }
    ensures len { array_vec_len line.new
        ≡ array_vec_len line.old + length key.now + length name_key.now + 8 }
{
    put(line, key);
    put(line, "null");
    put(line, name_key);
    put(line, "null");
}

/// Puts a process behind these keys, or `null` twice.
pub(crate) fn put_process(
    line: &mut ObjectLines,
    table: &Table,
    key: &str,
    name_key: &str,
    process: &Option<ProcessId>,
)
    requires { array_vec_len line.old + length key.now + length name_key.now + THING_ROOM
        ≤ OBJECTS_ROOM }
    ensures text { line.new.items
        ≡ line.old.items ++ process_part table.now key.now name_key.now process.now }
    ensures short { array_vec_len line.new
        ≤ array_vec_len line.old + length key.now + length name_key.now + THING_ROOM }
{
    match process {
        Some(process) => put_thing(line, key, *process, name_key, process_name(table, *process)),
        None => put_nulls(line, key, name_key),
    }
}
