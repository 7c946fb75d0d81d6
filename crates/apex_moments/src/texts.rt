//! The parts of a picture's text, and the bytes that are escaped in it.
ghost use Rattle.std.specs.Prelude.{◌≡◌, ◌<◌, ◌≤◌, [], ◌∷◌, ◌++◌, flat_map, decimal, OnOk};
ghost use Rattle.apex_moments.specs.Texts.{part_text, xml_byte, xml_text};

use apex_json::put_json;
use itoa::Buffer;
use std::alloc::AllocError;

/// A part of a text.
#[derive(Clone, Copy)]
pub enum Part<'a> {
    /// This text as it is.
    Plain(&'a str),
    /// A number in decimal digits.
    Number(u64),
    /// Bytes that XML reads back as they are.
    Xml(&'a [u8]),
    /// Bytes that JSON reads back as they are, between the quotes of a string.
    Json(&'a [u8]),
}

/// Puts the text behind the others. Fails only for want of memory.
pub fn put(text: &mut Vec<u8>, more: &str) -> Result<(), AllocError>
    ensures { OnOk result (text.new.items ≡ text.old.items ++ more.now) }
{
    text.extend_from_slice(more.as_bytes())
}

fn put_byte(text: &mut Vec<u8>, byte: u8) -> Result<(), AllocError>
    ensures { OnOk result (text.new.items ≡ text.old.items ++ byte ∷ []) }
{
    text.push(byte)?;
    Ok(())
}

// A number of one digit, as most tracks have.
#[tactic(auto, using(std::proofs::lemmas::Fmt::decimal_digit))]
fn put_digit(text: &mut Vec<u8>, digit: u8) -> Result<(), AllocError>
    requires { digit < 10 }
    ensures { OnOk result (text.new.items ≡ text.old.items ++ decimal digit) }
{
    put_byte(text, b'0' + digit)
}

// A number of two digits, as the other tracks have.
#[tactic(auto, using(itoa::proofs::Decimal::decimal_two))]
fn put_two_digits(text: &mut Vec<u8>, number: u8) -> Result<(), AllocError>
    requires { (10 ≤ number) × (number < 100) }
    ensures { OnOk result (text.new.items ≡ text.old.items ++ decimal number) }
{
    text.extend_from_slice(&[b'0' + number / 10, b'0' + number % 10])
}

/// Puts the number in decimal digits. Fails only for want of memory.
pub fn put_number(text: &mut Vec<u8>, number: u64) -> Result<(), AllocError>
    ensures { OnOk result (text.new.items ≡ text.old.items ++ decimal number) }
{
    if number < 10 {
        return put_digit(text, number as u8);
    }
    if number < 100 {
        return put_two_digits(text, number as u8);
    }
    let mut buffer = Buffer::new();
    put(text, buffer.format(number))
}

fn put_xml_byte(text: &mut Vec<u8>, byte: u8) -> Result<(), AllocError>
    ensures { OnOk result (text.new.items ≡ text.old.items ++ xml_byte byte) }
{
    match byte {
        b'&' => put(text, "&amp;"),
        b'<' => put(text, "&lt;"),
        b'>' => put(text, "&gt;"),
        b'"' => put(text, "&quot;"),
        _ => put_byte(text, byte),
    }
}

/// Puts the bytes so that XML reads them back as they are. Fails only for want of memory.
pub fn put_xml(text: &mut Vec<u8>, bytes: &[u8]) -> Result<(), AllocError>
    ensures { OnOk result (text.new.items ≡ text.old.items ++ xml_text bytes.now) }
{
    for byte in bytes {
        put_xml_byte(text, *byte)?;
    }
    Ok(())
}

fn put_part(text: &mut Vec<u8>, part: &Part<'_>) -> Result<(), AllocError>
    ensures { OnOk result (text.new.items ≡ text.old.items ++ part_text part.now) }
{
    match part {
        Part::Plain(more) => put(text, more),
        Part::Number(number) => put_number(text, *number),
        Part::Xml(bytes) => put_xml(text, bytes),
        Part::Json(bytes) => put_json(text, bytes),
    }
}

/// Puts the parts behind the text, in order. Fails only for want of memory.
pub fn put_all(text: &mut Vec<u8>, parts: &[Part<'_>]) -> Result<(), AllocError>
    ensures { OnOk result (text.new.items ≡ text.old.items ++ flat_map part_text parts.now) }
{
    for part in parts {
        put_part(text, part)?;
    }
    Ok(())
}
