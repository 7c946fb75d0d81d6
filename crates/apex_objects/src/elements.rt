//! Arrays, and what their elements have in common.
ghost use Rattle.std.specs.Prelude.{◌≡◌, ◌+◌, ◌*◌, ◌≤◌, ◌++◌, ℕ, List, flat_map, length};
ghost use Rattle.arrayvec.specs.ArrayVec.{array_vec_len};
ghost use Rattle.apex_machine.specs.table.Table as tables;
ghost use Rattle.apex_machine.specs.text.Status.{behind_text};
ghost use Rattle.apex_objects.specs.Entries.{notice_object, noticed_part};
ghost use Rattle.apex_objects.specs.Parts.{array_text, elements_text, holding_object, message_string, process_object};
ghost use Rattle.apex_objects.specs.declared.lines.TheConstants.{ELEMENT_ROOM, OBJECTS_ROOM, THING_ROOM};

use crate::lines::{ELEMENT_ROOM, ObjectLines, put_process, put_thing};
use crate::messages::put_message_string;
use apex_configs::Table;
use apex_history::{code_word, deadline_word};
use apex_machine::Holding;
use apex_names::{mutex_name, process_name};
use apex_texts::put;
use apex_types::{Message, Notice, ProcessId};

/// An element of an array.
pub(crate) trait Element {
    // Its text.
    ghost text: { tables.Table → Self → List ℕ };

    /// Puts the element into the line.
    fn put_element(&self, line: &mut ObjectLines, table: &Table)
        requires { array_vec_len line.old + ELEMENT_ROOM ≤ OBJECTS_ROOM }
        ensures text { line.new.items ≡ line.old.items ++ text table.now self.now }
        ensures short { array_vec_len line.new + 1 ≤ array_vec_len line.old + ELEMENT_ROOM };
}

/// Puts an element behind others.
#[tactic(auto, using(std::proofs::Common::append_assoc))]
fn put_behind<E: Element>(line: &mut ObjectLines, table: &Table, element: &E)
    requires { array_vec_len line.old + ELEMENT_ROOM + 1 ≤ OBJECTS_ROOM }
    ensures text { line.new.items ≡ line.old.items ++ behind_text (E.text table.now) element.now }
    ensures short { array_vec_len line.new ≤ array_vec_len line.old + ELEMENT_ROOM }
{
    put(line, ",");
    element.put_element(line, table);
}

/// Puts elements behind others.
fn put_others<E: Element>(line: &mut ObjectLines, table: &Table, elements: &[E])
    requires { array_vec_len line.old + ELEMENT_ROOM * length elements.now + 1 ≤ OBJECTS_ROOM }
    ensures text { line.new.items
        ≡ line.old.items ++ flat_map (behind_text (E.text table.now)) elements.now }
    ensures short { array_vec_len line.new
        ≤ array_vec_len line.old + ELEMENT_ROOM * length elements.now }
{
    for element in elements {
        put_behind(line, table, element);
    }
}

fn put_elements<E: Element>(line: &mut ObjectLines, table: &Table, elements: &[E])
    requires { array_vec_len line.old + ELEMENT_ROOM * length elements.now + 1 ≤ OBJECTS_ROOM }
    ensures text { line.new.items
        ≡ line.old.items ++ elements_text (E.text table.now) elements.now }
    ensures short { array_vec_len line.new
        ≤ array_vec_len line.old + ELEMENT_ROOM * length elements.now }
{
    if let Some((first, others)) = elements.split_first() {
        first.put_element(line, table);
        put_others(line, table, others);
    }
}

/// Puts an array of these elements.
#[tactic(auto, using(std::proofs::Common::append_assoc), unfolding(crate::specs::Parts::array_text))]
pub(crate) fn put_array<E: Element>(line: &mut ObjectLines, table: &Table, elements: &[E])
    requires { array_vec_len line.old + ELEMENT_ROOM * length elements.now + 2 ≤ OBJECTS_ROOM }
    ensures text { line.new.items ≡ line.old.items ++ array_text (E.text table.now) elements.now }
    ensures short { array_vec_len line.new
        ≤ array_vec_len line.old + ELEMENT_ROOM * length elements.now + 2 }
{
    put(line, "[");
    put_elements(line, table, elements);
    put(line, "]");
}

impl Element for ProcessId {
    ghost text = { process_object };

    #[tactic(auto, using(std::proofs::Common::append_assoc))]
    fn put_element(&self, line: &mut ObjectLines, table: &Table) {
        let name = process_name(table, *self);
        put_thing(line, "{\"process\":", *self, ",\"name\":", name);
        put(line, "}");
    }
}

impl Element for Holding {
    ghost text = { holding_object };

    #[tactic(auto, using(std::proofs::Common::append_assoc))]
    fn put_element(&self, line: &mut ObjectLines, table: &Table) {
        let name = mutex_name(table, self.mutex);
        put_thing(line, "{\"mutex\":", self.mutex, ",\"name\":", name);
        put(line, "}");
    }
}

impl Element for Message {
    ghost text = { message_string };

    fn put_element(&self, line: &mut ObjectLines, table: &Table) {
        put_message_string(line, table, self);
    }
}

/// The process of a notice.
fn put_noticed(line: &mut ObjectLines, table: &Table, process: ProcessId)
    requires { array_vec_len line.old + THING_ROOM + 19 ≤ OBJECTS_ROOM }
    ensures text { line.new.items ≡ line.old.items ++ noticed_part table.now process }
    ensures short { array_vec_len line.new ≤ array_vec_len line.old + THING_ROOM + 19 }
{
    put_process(line, table, ",\"process\":", ",\"name\":", &Some(process));
}

impl Element for Notice {
    ghost text = { notice_object };

    #[tactic(auto, using(std::proofs::Common::append_assoc))]
    fn put_element(&self, line: &mut ObjectLines, table: &Table) {
        match self {
            Notice::Woken(process, code) => {
                put(line, "{\"notice\":\"woken\"");
                put_noticed(line, table, *process);
                put(line, ",\"code\":\"");
                put(line, code_word(*code));
                put(line, "\"}");
            }
            Notice::Released(process) => {
                put(line, "{\"notice\":\"released\"");
                put_noticed(line, table, *process);
                put(line, "}");
            }
            Notice::Missed(process, deadline) => {
                put(line, "{\"notice\":\"missed\"");
                put_noticed(line, table, *process);
                put(line, ",\"deadline\":\"");
                put(line, deadline_word(*deadline));
                put(line, "\"}");
            }
        }
    }
}
