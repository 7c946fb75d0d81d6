//! Texts in strings of JSON. Few of them have a byte that is escaped, so they are looked at several
//! bytes at a time.
ghost use Rattle.std.specs.Prelude.{◌≡◌, ◌+◌, ◌*◌, ◌≤◌, [], ◌∷◌, ◌++◌, IsTrue, length};
ghost use Rattle.apex_json.specs.Strings.{json_byte, json_text};
ghost use Rattle.apex_json.specs.declared.strings.TheConstants.{MOST_ESCAPE};
ghost use Rattle.apex_traces.specs.Escapes.{ArePlain};
ghost use Rattle.apex_traces.specs.declared.escapes.TheConstants.{HALF_LOAD, LOAD};
ghost use Rattle.arrayvec.specs.ArrayVec.{array_vec_len};

use crate::bytes::Bytes;
use crate::pieces::add_bytes;
use apex_json::{MOST_ESCAPE, add_json};
use arrayvec::ArrayVec;
use std::simd::prelude::*;

/// The bytes of one load.
const LOAD: usize = 16;

/// The bytes of a short load.
const HALF_LOAD: usize = 8;

/// The bytes of a load from this place on are their own text.
#[inline(always)]
fn is_plain_at(bytes: &[u8], place: usize) -> bool
    requires { place + LOAD ≤ length bytes.now }
    ensures { IsTrue result → ArePlain bytes.now place LOAD }
{
    let load = u8x16::from_slice(&bytes[place..]);
    let marks = load.simd_eq(u8x16::splat(b'"')) | load.simd_eq(u8x16::splat(b'\\'));
    let odd = load.simd_lt(u8x16::splat(b' ')) | marks;
    odd.to_bitmask() == 0
}

/// The bytes of a short load from this place on are their own text.
#[inline(always)]
fn is_half_plain_at(bytes: &[u8], place: usize) -> bool
    requires { place + HALF_LOAD ≤ length bytes.now }
    ensures { IsTrue result → ArePlain bytes.now place HALF_LOAD }
{
    let load = u8x8::from_slice(&bytes[place..]);
    let marks = load.simd_eq(u8x8::splat(b'"')) | load.simd_eq(u8x8::splat(b'\\'));
    let odd = load.simd_lt(u8x8::splat(b' ')) | marks;
    odd.to_bitmask() == 0
}

/// The byte is its own text.
#[inline(always)]
fn is_plain_byte(byte: u8) -> bool
    ensures { IsTrue result → json_byte byte ≡ byte ∷ [] }
{
    byte >= b' ' && byte != b'"' && byte != b'\\'
}

/// The bytes, which are few, are their own text.
#[inline(always)]
fn are_few_plain(bytes: &[u8]) -> bool
    ensures { IsTrue result → json_text bytes.now ≡ bytes.now }
{
    let mut plain = true;
    for byte in bytes {
        plain &= is_plain_byte(*byte);
    }
    plain
}

/// The bytes, at least as many as one load has, are their own text. The last load overlaps the one
/// before it.
#[inline(always)]
fn are_many_plain(bytes: &[u8]) -> bool
    requires { LOAD ≤ length bytes.now }
    ensures { IsTrue result → json_text bytes.now ≡ bytes.now }
{
    let mut plain = is_plain_at(bytes, bytes.len() - LOAD);
    for round in 0..bytes.len() / LOAD {
        plain &= is_plain_at(bytes, LOAD * round);
    }
    plain
}

/// The bytes are their own text in a string of JSON.
#[inline(always)]
fn are_plain(bytes: &[u8]) -> bool
    ensures { IsTrue result → json_text bytes.now ≡ bytes.now }
{
    if bytes.len() >= LOAD {
        return are_many_plain(bytes);
    }
    if bytes.len() >= HALF_LOAD {
        // Both are looked at, so that there is one test.
        let first = is_half_plain_at(bytes, 0);
        return first & is_half_plain_at(bytes, bytes.len() - HALF_LOAD);
    }
    are_few_plain(bytes)
}

/// Adds the text of a byte.
fn add_escaped_byte<const ROOM: usize>(piece: &mut Bytes<ROOM>, byte: u8)
    requires { array_vec_len piece.old + MOST_ESCAPE ≤ ROOM }
    ensures text { piece.new.items ≡ piece.old.items ++ json_byte byte }
    ensures short { array_vec_len piece.new ≤ array_vec_len piece.old + MOST_ESCAPE }
{
    let mut escape: ArrayVec<u8, MOST_ESCAPE> = ArrayVec::new();
    add_json(&mut escape, &[byte]);
    add_bytes(piece, escape.as_slice());
}

/// Adds the text of bytes of which some are escaped.
// Not inlined, as few names have such a byte.
#[inline(never)]
fn add_odd<const ROOM: usize>(piece: &mut Bytes<ROOM>, bytes: &[u8])
    requires { array_vec_len piece.old + MOST_ESCAPE * length bytes.now ≤ ROOM }
    ensures text { piece.new.items ≡ piece.old.items ++ json_text bytes.now }
    ensures short { array_vec_len piece.new
        ≤ array_vec_len piece.old + MOST_ESCAPE * length bytes.now }
{
    for byte in bytes {
        add_escaped_byte(piece, *byte);
    }
}

/// Adds the bytes of a string of JSON, between its quotes.
#[inline(always)]
pub(crate) fn add_escaped<const ROOM: usize>(piece: &mut Bytes<ROOM>, bytes: &[u8])
    requires { array_vec_len piece.old + MOST_ESCAPE * length bytes.now ≤ ROOM }
    ensures text { piece.new.items ≡ piece.old.items ++ json_text bytes.now }
    ensures short { array_vec_len piece.new
        ≤ array_vec_len piece.old + MOST_ESCAPE * length bytes.now }
{
    if are_plain(bytes) {
        add_bytes(piece, bytes);
    } else {
        add_odd(piece, bytes);
    }
}
