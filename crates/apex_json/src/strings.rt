//! Bytes in a string of JSON, between its quotes.
ghost use Rattle.std.specs.Prelude.{◌≡◌, ◌+◌, ◌*◌, ◌≤◌, [], ◌∷◌, ◌++◌, ℕ, IsTrue, OnErr, OnOk, length, take};
ghost use Rattle.arrayvec.specs.ArrayVec.{array_vec_len};
ghost use Rattle.apex_json.specs.Strings.{json_byte, json_text};
ghost use Rattle.apex_json.specs.declared.strings.TheConstants.{MOST_ESCAPE};

use apex_texts::{hex_digit, put_bytes};
use arrayvec::ArrayVec;
use std::alloc::AllocError;

/// The most bytes that stand for one.
pub const MOST_ESCAPE: usize = 6;

#[inline(always)]
fn add_json_byte<const N: usize>(line: &mut ArrayVec<u8, N>, byte: u8)
    requires { array_vec_len line.old + MOST_ESCAPE ≤ N }
    ensures text { line.new.items ≡ line.old.items ++ json_byte byte }
    ensures short { array_vec_len line.new ≤ array_vec_len line.old + MOST_ESCAPE }
{
    if byte == b'"' || byte == b'\\' {
        put_bytes(line, &[b'\\', byte]);
    } else if byte < b' ' {
        let (high, low) = (hex_digit(byte / 16), hex_digit(byte % 16));
        put_bytes(line, &[b'\\', b'u', b'0', b'0', high, low]);
    } else {
        line.push(byte);
    }
}

/// Adds the bytes so that JSON reads them back as they are, between the quotes of a string.
#[inline(always)]
pub fn add_json<const N: usize>(line: &mut ArrayVec<u8, N>, bytes: &[u8])
    requires { array_vec_len line.old + MOST_ESCAPE * length bytes.now ≤ N }
    ensures text { line.new.items ≡ line.old.items ++ json_text bytes.now }
    ensures short { array_vec_len line.new
        ≤ array_vec_len line.old + MOST_ESCAPE * length bytes.now }
{
    for byte in bytes {
        add_json_byte(line, *byte);
    }
}

// In a function of its own, as few names have such a byte.
#[inline(never)]
fn put_escape(text: &mut Vec<u8>, byte: u8) -> Result<(), AllocError>
    ensures ok { OnOk result (text.new.items ≡ text.old.items ++ json_byte byte) }
    ensures err { OnErr result (text.new.items ≡ text.old.items) }
{
    let mut escape: ArrayVec<u8, MOST_ESCAPE> = ArrayVec::new();
    add_json_byte(&mut escape, byte);
    text.extend_from_slice(escape.as_slice())
}

/// The byte is its own text in a string.
fn is_plain(byte: u8) -> bool
    ensures { IsTrue result → json_byte byte ≡ byte ∷ [] }
{
    byte >= b' ' && byte != b'"' && byte != b'\\'
}

fn put_json_byte(text: &mut Vec<u8>, byte: u8) -> Result<(), AllocError>
    ensures ok { OnOk result (text.new.items ≡ text.old.items ++ json_byte byte) }
    ensures err { OnErr result (text.new.items ≡ text.old.items) }
{
    if !is_plain(byte) {
        return put_escape(text, byte);
    }
    text.push(byte)?;
    Ok(())
}

/// Puts the bytes behind the text so that JSON reads them back as they are, between the quotes of a
/// string. It fails only for want of memory; then the first of the bytes are behind the text.
pub fn put_json(text: &mut Vec<u8>, bytes: &[u8]) -> Result<(), AllocError>
    ensures ok { OnOk result (text.new.items ≡ text.old.items ++ json_text bytes.now) }
    ensures err { OnErr result ((n : ℕ)
        × (text.new.items ≡ text.old.items ++ json_text (take n bytes.now))) }
{
    for byte in bytes {
        put_json_byte(text, *byte)?;
    }
    Ok(())
}
