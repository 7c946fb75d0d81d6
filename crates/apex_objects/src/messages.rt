//! Messages as strings: two digits for each byte.
ghost use Rattle.std.specs.Prelude.{◌≡◌, ◌+◌, ◌*◌, ◌≤◌, ◌++◌};
ghost use Rattle.arrayvec.specs.ArrayVec.{array_vec_len};
ghost use Rattle.apex_types.specs.declared.limits.TheConstants.{MOST_LITERAL};
ghost use Rattle.apex_objects.specs.Parts.{message_string, or_null};
ghost use Rattle.apex_objects.specs.declared.lines.TheConstants.{OBJECTS_ROOM};

use crate::lines::ObjectLines;
use apex_configs::Table;
use apex_history::put_message;
use apex_texts::put;
use apex_types::Message;

/// Puts a message, whose bytes the table keeps, as a string.
#[tactic(auto, using(std::proofs::Common::append_assoc, crate::proofs::Digits::plain_bytes), unfolding(crate::specs::Parts::string_text))]
pub(crate) fn put_message_string(line: &mut ObjectLines, table: &Table, message: &Message)
    requires { array_vec_len line.old + 2 * MOST_LITERAL + 2 ≤ OBJECTS_ROOM }
    ensures text { line.new.items ≡ line.old.items ++ message_string table.now message.now }
    ensures short { array_vec_len line.new ≤ array_vec_len line.old + 2 * MOST_LITERAL + 2 }
{
    put(line, "\"");
    put_message(line, table, message);
    put(line, "\"");
}

/// Puts a message, or `null`.
pub(crate) fn put_optional_message(line: &mut ObjectLines, table: &Table, message: &Option<Message>)
    requires { array_vec_len line.old + 2 * MOST_LITERAL + 2 ≤ OBJECTS_ROOM }
    ensures text { line.new.items
        ≡ line.old.items ++ or_null (message_string table.now) message.now }
    ensures short { array_vec_len line.new ≤ array_vec_len line.old + 2 * MOST_LITERAL + 2 }
{
    match message {
        Some(message) => put_message_string(line, table, message),
        None => put(line, "null"),
    }
}
