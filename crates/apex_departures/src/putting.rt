//! The bytes of a line, put so that each can be seen.
ghost use Rattle.std.specs.Prelude.{◌≡◌, ◌==◌, ◌≤◌, ◌++◌, decimal, length, OnOk};
ghost use Rattle.std.specs.List.{common_prefix_len};
ghost use Rattle.apex_departures.specs.Shown.{are_spaces, column, escaped, is_plain, shown, shown_byte};
ghost use Rattle.apex_departures.specs.declared.putting.TheConstants.{FIRST_PLAIN, LAST_PLAIN};

use apex_texts::hex_digit;
use itoa::Buffer;
use std::alloc::AllocError;

/// Puts words as they are.
pub(crate) fn put(text: &mut Vec<u8>, words: &str) -> Result<(), AllocError>
    ensures { OnOk result (text.new.items ≡ text.old.items ++ words.now) }
{
    text.extend_from_slice(words.as_bytes())
}

/// Puts bytes between words.
#[tactic(auto, using(std::proofs::Common::append_assoc))]
pub(crate) fn put_between(
    text: &mut Vec<u8>,
    before: &str,
    bytes: &[u8],
    behind: &str,
) -> Result<(), AllocError>
    ensures { OnOk result (text.new.items
        ≡ text.old.items ++ (before.now ++ (bytes.now ++ behind.now))) }
{
    put(text, before)?;
    text.extend_from_slice(bytes)?;
    put(text, behind)
}

/// Puts a number, by its digits, between words.
pub(crate) fn put_number_between(
    text: &mut Vec<u8>,
    before: &str,
    number: usize,
    behind: &str,
) -> Result<(), AllocError>
    ensures { OnOk result (text.new.items
        ≡ text.old.items ++ (before.now ++ (decimal number ++ behind.now))) }
{
    let mut buffer = Buffer::new();
    put_between(text, before, buffer.format(number).as_bytes(), behind)
}

/// Puts `\x` and the two digits of a byte.
fn put_escaped(text: &mut Vec<u8>, byte: u8) -> Result<(), AllocError>
    ensures { OnOk result (text.new.items ≡ text.old.items ++ escaped byte) }
{
    text.extend_from_slice(&[b'\\', b'x', hex_digit(byte / 16), hex_digit(byte % 16)])
}

/// The first byte, in their order, that is seen as it is.
const FIRST_PLAIN: u8 = 0x20;

/// The last byte, in their order, that is seen as it is.
const LAST_PLAIN: u8 = 0x7E;

/// The plain bytes are those of ASCII from a blank to `~`.
pub fn plain_bytes_are_those_of_ascii()
    ensures first { FIRST_PLAIN ≡ 32 }
    ensures last { LAST_PLAIN ≡ 126 }
{}

/// Whether the byte is seen as it is.
fn is_plain(byte: u8) -> bool
    ensures { result ≡ is_plain byte }
{
    FIRST_PLAIN <= byte && byte <= LAST_PLAIN
}

/// Whether all bytes are spaces.
fn are_spaces(bytes: &[u8]) -> bool
    ensures { result ≡ are_spaces bytes.now }
{
    bytes.iter().all(|byte| *byte == b' ')
}

/// Puts a byte of a line, escaped if it is not seen as it is or is a space at the line's end.
fn put_byte(text: &mut Vec<u8>, ends: bool, byte: u8) -> Result<(), AllocError>
    ensures { OnOk result (text.new.items ≡ text.old.items ++ shown_byte ends byte) }
{
    if ends || !is_plain(byte) {
        return put_escaped(text, byte);
    }
    text.push(byte)?;
    Ok(())
}

/// Puts a line as it is shown.
pub(crate) fn put_shown(text: &mut Vec<u8>, line: &[u8]) -> Result<(), AllocError>
    ensures { OnOk result (text.new.items ≡ text.old.items ++ shown line.now) }
{
    let mut left = line;
    while let Some((byte, rest)) = left.split_first() {
        put_byte(text, are_spaces(left), *byte)?;
        left = rest;
    }
    Ok(())
}

/// The number of bytes, from the front on, in which two lines are the same.
#[tactic(auto, using(crate::proofs::Columns::ends_one, crate::proofs::Columns::ends_other, crate::proofs::Columns::differs, crate::proofs::Columns::one_more))]
fn same_bytes(one: &[u8], other: &[u8]) -> usize
    ensures same { result ≡ common_prefix_len ◌==◌ one.now other.now }
    ensures within { result ≤ length one.now }
{
    let mut at = 0;
    while at < one.len() && at < other.len() && one[at] == other[at] {
        at += 1;
    }
    at
}

/// The column, counted from 1, of the first byte in which two lines differ.
pub(crate) fn column(one: &[u8], other: &[u8]) -> usize
    ensures { result ≡ column one.now other.now }
{
    same_bytes(one, other) + 1
}
