//! Bytes, words and numbers, put behind the bytes of a line.
ghost use Rattle.std.specs.Prelude.{◌≡◌, ◌+◌, ◌≤◌, ◌++◌, decimal, length};
ghost use Rattle.arrayvec.specs.ArrayVec.{array_vec_len};

use arrayvec::ArrayVec;
use itoa::Buffer;

/// Puts the bytes behind the line.
#[inline(always)]
pub fn put_bytes<const ROOM: usize>(line: &mut ArrayVec<u8, ROOM>, bytes: &[u8])
    requires { array_vec_len line.old + length bytes.now ≤ ROOM }
    ensures text { line.new.items ≡ line.old.items ++ bytes.now }
    ensures len { array_vec_len line.new ≡ array_vec_len line.old + length bytes.now }
{
    let taken = line.try_extend_from_slice(bytes);
    let fits = taken.is_ok();
    prove!(fits);
}

/// Puts the text behind the line.
#[inline(always)]
pub fn put<const ROOM: usize>(line: &mut ArrayVec<u8, ROOM>, text: &str)
    requires { array_vec_len line.old + length text.now ≤ ROOM }
    ensures text { line.new.items ≡ line.old.items ++ text.now }
    ensures len { array_vec_len line.new ≡ array_vec_len line.old + length text.now }
{
    put_bytes(line, text.as_bytes());
}

/// Puts the number behind the line, in at most 10 decimal digits.
// Not inlined, since the code that makes digits is long.
#[inline(never)]
pub fn put_number<const ROOM: usize>(line: &mut ArrayVec<u8, ROOM>, number: u32)
    requires { array_vec_len line.old + 10 ≤ ROOM }
    ensures text { line.new.items ≡ line.old.items ++ decimal number }
    ensures short { array_vec_len line.new ≤ array_vec_len line.old + 10 }
{
    let mut buffer = Buffer::new();
    put(line, buffer.format(number));
}

/// Puts the number behind the line, in at most 20 decimal digits.
// Not inlined, since the code that makes digits is long.
#[inline(never)]
pub fn put_long_number<const ROOM: usize>(line: &mut ArrayVec<u8, ROOM>, number: u64)
    requires { array_vec_len line.old + 20 ≤ ROOM }
    ensures text { line.new.items ≡ line.old.items ++ decimal number }
    ensures short { array_vec_len line.new ≤ array_vec_len line.old + 20 }
{
    let mut buffer = Buffer::new();
    put(line, buffer.format(number));
}
