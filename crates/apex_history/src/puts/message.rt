//! The bytes of a message in a line.
ghost use Rattle.std.specs.Prelude.{◌≡◌, ◌+◌, ◌*◌, ◌≤◌, ◌++◌, length, flat_map};
ghost use Rattle.arrayvec.specs.ArrayVec.{array_vec_len};
ghost use Rattle.apex_types.specs.declared.limits.TheConstants.{MOST_LITERAL};
ghost use Rattle.apex_machine.specs.text.Texts.{byte_text, bytes_text, message_text};

use apex_configs::Table;
use apex_texts::{hex_digit, put, put_bytes};
use apex_types::Message;
use arrayvec::ArrayVec;

fn put_byte<const ROOM: usize>(line: &mut ArrayVec<u8, ROOM>, byte: u8)
    requires { array_vec_len line.old + 2 ≤ ROOM }
    ensures text { line.new.items ≡ line.old.items ++ byte_text byte }
    ensures len { array_vec_len line.new ≡ array_vec_len line.old + 2 }
{
    put_bytes(line, &[hex_digit(byte / 16), hex_digit(byte % 16)]);
}

/// Two digits for each byte.
fn put_digits_of<const ROOM: usize>(line: &mut ArrayVec<u8, ROOM>, bytes: &[u8])
    requires few_bytes { length bytes.now ≤ MOST_LITERAL }
    requires room { array_vec_len line.old + 2 * MOST_LITERAL ≤ ROOM }
    ensures text { line.new.items ≡ line.old.items ++ flat_map byte_text bytes.now }
    ensures short { array_vec_len line.new ≤ array_vec_len line.old + 2 * MOST_LITERAL }
{
    for byte in bytes {
        put_byte(line, *byte);
    }
}

fn put_message_bytes<const ROOM: usize>(line: &mut ArrayVec<u8, ROOM>, bytes: &[u8])
    requires few_bytes { length bytes.now ≤ MOST_LITERAL }
    requires room { array_vec_len line.old + 2 * MOST_LITERAL ≤ ROOM }
    ensures text { line.new.items ≡ line.old.items ++ bytes_text bytes.now }
    ensures short { array_vec_len line.new ≤ array_vec_len line.old + 2 * MOST_LITERAL }
{
    if bytes.is_empty() {
        put(line, "-");
    } else {
        put_digits_of(line, bytes);
    }
}

/// Puts a message, whose bytes the table keeps, as two digits for each byte. The empty one is `-`.
pub fn put_message<const ROOM: usize>(
    line: &mut ArrayVec<u8, ROOM>,
    table: &Table,
    message: &Message,
)
    requires { array_vec_len line.old + 2 * MOST_LITERAL ≤ ROOM }
    ensures text { line.new.items ≡ line.old.items ++ message_text table.now message.now }
    ensures short { array_vec_len line.new ≤ array_vec_len line.old + 2 * MOST_LITERAL }
{
    put_message_bytes(line, table.literal(message.origin));
}
