//! Numbers, put behind a string.
ghost use Rattle.std.specs.Prelude.{◌≡◌, ◌+◌, ◌≤◌, ◌++◌, decimal};
ghost use Rattle.arrayvec.specs.ArrayString.{array_string_len};

use arrayvec::ArrayString;
use itoa::Buffer;

/// Puts the number behind the text, in at most 10 decimal digits.
pub fn push_number<const ROOM: usize>(text: &mut ArrayString<ROOM>, number: u32)
    requires { array_string_len text.old + 10 ≤ ROOM }
    ensures text { text.new.bytes ≡ text.old.bytes ++ decimal number }
    ensures short { array_string_len text.new ≤ array_string_len text.old + 10 }
{
    let mut buffer = Buffer::new();
    text.push_str(buffer.format(number));
}

/// Puts the number behind the text, in at most 20 decimal digits.
pub fn push_long_number<const ROOM: usize>(text: &mut ArrayString<ROOM>, number: u64)
    requires { array_string_len text.old + 20 ≤ ROOM }
    ensures text { text.new.bytes ≡ text.old.bytes ++ decimal number }
    ensures short { array_string_len text.new ≤ array_string_len text.old + 20 }
{
    let mut buffer = Buffer::new();
    text.push_str(buffer.format(number));
}
