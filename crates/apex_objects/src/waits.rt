//! The waits of processes.
ghost use Rattle.std.specs.Prelude.{◌≡◌, ◌+◌, ◌≤◌, ◌++◌, length};
ghost use Rattle.arrayvec.specs.ArrayVec.{array_vec_len};
ghost use Rattle.apex_types.specs.declared.limits.TheConstants.{MOST_NAME};
ghost use Rattle.apex_objects.specs.Rows.{object_wait, optional_wait_part, plain_wait, wait_part};
ghost use Rattle.apex_objects.specs.declared.lines.TheConstants.{OBJECTS_ROOM, THING_ROOM};
ghost use Rattle.apex_objects.specs.declared.waits.TheConstants.{WAIT_ROOM};

use crate::lines::{ObjectLines, THING_ROOM, put_thing};
use apex_configs::Table;
use apex_machine::Wait;
use apex_names::{blackboard_name, buffer_name, event_flag_name, mutex_name, semaphore_name};
use apex_texts::put;
use apex_types::Id;

/// The most bytes of a wait.
pub(crate) const WAIT_ROOM: usize = THING_ROOM + 50;

/// A wait for no object.
#[tactic(auto, using(std::proofs::Common::append_assoc), unfolding(crate::specs::Rows::plain_wait))]
fn put_plain_wait(line: &mut ObjectLines, word: &str)
    requires short { length word.now ≤ 10 }
    requires room { array_vec_len line.old + WAIT_ROOM ≤ OBJECTS_ROOM }
    ensures text { line.new.items ≡ line.old.items ++ plain_wait word.now }
    ensures short { array_vec_len line.new ≤ array_vec_len line.old + WAIT_ROOM }
{
    put(line, ",\"wait\":");
    put(line, word);
    put(line, ",\"object\":null,\"of\":null");
}

/// A wait for an object of this kind.
#[tactic(auto, using(std::proofs::Common::append_assoc), unfolding(crate::specs::Rows::object_wait))]
fn put_object_wait<K: Copy>(line: &mut ObjectLines, kind: &str, id: Id<K>, name: &[u8])
    requires short { length kind.now ≤ 10 }
    requires name { length name.now ≤ MOST_NAME }
    requires room { array_vec_len line.old + WAIT_ROOM ≤ OBJECTS_ROOM }
    ensures text { line.new.items ≡ line.old.items ++ object_wait kind.now id name.now }
    ensures short { array_vec_len line.new ≤ array_vec_len line.old + WAIT_ROOM }
{
    put(line, ",\"wait\":\"");
    put(line, kind);
    put_thing(line, "\",\"object\":", id, ",\"of\":", name);
}

fn put_wait(line: &mut ObjectLines, table: &Table, wait: &Wait)
    requires { array_vec_len line.old + WAIT_ROOM ≤ OBJECTS_ROOM }
    ensures text { line.new.items ≡ line.old.items ++ wait_part table.now wait.now }
    ensures short { array_vec_len line.new ≤ array_vec_len line.old + WAIT_ROOM }
{
    match wait {
        Wait::Normal(_) => put_plain_wait(line, "\"normal\""),
        Wait::Start => put_plain_wait(line, "\"start\""),
        Wait::Time => put_plain_wait(line, "\"time\""),
        Wait::Period => put_plain_wait(line, "\"period\""),
        Wait::Semaphore(id) => {
            put_object_wait(line, "semaphore", *id, semaphore_name(table, *id));
        }
        Wait::Receive(id) | Wait::Send(id, _) => {
            put_object_wait(line, "buffer", *id, buffer_name(table, *id));
        }
        Wait::Blackboard(id) => {
            put_object_wait(line, "blackboard", *id, blackboard_name(table, *id));
        }
        Wait::EventFlag(id) => {
            put_object_wait(line, "event", *id, event_flag_name(table, *id));
        }
        Wait::Mutex(id) => {
            put_object_wait(line, "mutex", *id, mutex_name(table, *id));
        }
    }
}

/// Puts a wait, or `null` three times.
pub(crate) fn put_optional_wait(line: &mut ObjectLines, table: &Table, wait: &Option<Wait>)
    requires { array_vec_len line.old + WAIT_ROOM ≤ OBJECTS_ROOM }
    ensures text { line.new.items ≡ line.old.items ++ optional_wait_part table.now wait.now }
    ensures short { array_vec_len line.new ≤ array_vec_len line.old + WAIT_ROOM }
{
    match wait {
        Some(wait) => put_wait(line, table, wait),
        None => put_plain_wait(line, "null"),
    }
}
