//! The words of a step, and the forms that they may have.
ghost use Rattle.std.specs.Prelude.{ℕ, ◌≡◌, ◌<◌, ◌≤◌, ◌/◌, ◌%◌, ◌==◌, ◌&&◌, true, map, length, IfOk, IfSome};
ghost use Rattle.apex_types.specs.declared.limits.TheConstants.{MOST_MESSAGE, MOST_PROCESSES};
ghost use Rattle.std.specs.Char.{digit_value};
ghost use Rattle.std.specs.List.{list_all, position_from};
ghost use Rattle.std.specs.Str.{bytes_eq};
ghost use Rattle.apex_words.specs.Words.{words, is_number, is_timeout, is_digit, pairs_value, is_message, message_bytes, number, timeout, requested_mode, entry_of};

use crate::fault::TableFault;
use crate::subject::Subject;
use apex_machine::Literal;
use apex_types::{
    MOST_LITERAL, MOST_MESSAGE, MOST_SPAN, Name, RequestedMode, Timeout, number_at_most,
};
use arrayvec::ArrayVec;
use std::alloc::{AllocError, Global};

/// The parts between single spaces, which may be empty. Fails only for want of memory.
pub fn words(alloc: Global, text: &str) -> Result<Vec<&str>, AllocError>
    ensures { IfOk result (λ v. map (λ w. w.now) v.items ≡ words text.now) }
{
    text.split(' ').collect(alloc)
}

/// Whether a word has the form of a number, which may be of any size.
pub fn is_number(word: &str) -> bool
    ensures { result ≡ is_number word.now }
{
    apex_types::number(word.as_bytes()).is_some()
}

/// Whether a word has the form of a timeout.
pub fn is_timeout(word: &str) -> bool
    ensures { result ≡ is_timeout word.now }
{
    word == "infinite" || is_number(word)
}

/// The number that a word writes, from `low` to `high`. `OutOfRange` if it writes no such number.
pub fn number(subject: Subject, low: u32, high: u32, word: &str) -> Result<u32, TableFault>
    ensures { result ≡ number subject low high word.now }
{
    match number_at_most(word.as_bytes(), high) {
        Some(number) if low <= number => Ok(number),
        _ => Err(TableFault::OutOfRange(subject)),
    }
}

/// The timeout that a word writes. `OutOfRange` if it writes none.
pub fn timeout(subject: Subject, word: &str) -> Result<Timeout, TableFault>
    ensures { result ≡ timeout subject word.now }
{
    match word {
        "0" => Ok(Timeout::Poll),
        "infinite" => Ok(Timeout::Infinite),
        _ => Ok(Timeout::Ticks(number(subject, 1, MOST_SPAN, word)?)),
    }
}

/// The mode that a word asks for.
pub fn requested_mode(word: &str) -> Option<RequestedMode>
    ensures { result ≡ requested_mode word.now }
{
    match word {
        "NORMAL" => Some(RequestedMode::Normal),
        "IDLE" => Some(RequestedMode::Idle),
        _ => None,
    }
}

fn is_digit(byte: u8) -> bool
    ensures { result ≡ is_digit byte }
{
    byte.is_ascii_digit() || (b'a'..=b'f').contains(&byte)
}

fn all_digits(word: &[u8]) -> bool
    ensures { result ≡ list_all is_digit word.now }
{
    word.iter().all(|byte| is_digit(*byte))
}

/// Whether a word is pairs of digits.
fn is_pairs(word: &[u8]) -> bool
    ensures { result ≡ (length word.now % 2 == 0 && list_all is_digit word.now) }
{
    word.len() % 2 == 0 && all_digits(word)
}

/// Whether a word has the form of a message, which may be of any length.
pub fn is_message(word: &str) -> bool
    ensures { result ≡ is_message word.now }
{
    word == "-" || is_pairs(word.as_bytes())
}

fn value_of(digit: u8) -> u8
    requires { is_digit digit ≡ true }
    ensures value { result ≡ digit_value digit }
    ensures range { result < 16 }
{
    if digit.is_ascii_digit() {
        digit - b'0'
    } else {
        digit - b'a' + 10
    }
}

/// The bytes that pairs of digits write. Takes no memory.
fn decoded(digits: &[u8]) -> Literal
    requires digits { list_all is_digit digits.now ≡ true }
    requires few_digits { length digits.now / 2 ≤ MOST_MESSAGE }
    ensures { result ≡ pairs_value digits.now }
{
    let mut bytes = ArrayVec::<u8, MOST_LITERAL>::new();
    let mut rest = digits;
    while let [high, low, others @ ..] = rest {
        bytes.push(value_of(*high) * 16 + value_of(*low));
        rest = others;
    }
    Literal::of(bytes.as_slice())
}

/// The bytes of the message that a word writes, 64 at the most. `OutOfRange` if it writes no such
/// message.
#[tactic(auto, using(crate::proofs::Messages::count_of_pairs))]
pub fn message_bytes(subject: Subject, word: &str) -> Result<Literal, TableFault>
    ensures { result ≡ message_bytes subject word.now }
{
    if word == "-" {
        return Ok(Literal::new());
    }
    let digits = word.as_bytes();
    if !is_pairs(digits) {
        return Err(TableFault::OutOfRange(subject));
    }
    if digits.len() / 2 > MOST_MESSAGE {
        return Err(TableFault::OutOfRange(subject));
    }
    Ok(decoded(digits))
}

/// The place, counted from 0, of the first of these names that is this one.
fn place_of(names: &[Name], name: &[u8]) -> Option<usize>
    ensures found { result ≡ position_from (bytes_eq name.now) 0 names.now }
    ensures bound { IfSome result (λ i. i < length names.now) }
{
    for (i, other) in names.iter().enumerate() {
        if name == other.as_bytes() {
            return Some(i);
        }
    }
    None
}

/// The place, counted from 0, of the entry of this name, if one has it.
pub fn place_of_name(names: &[Name], name: &[u8]) -> Option<u8>
    requires { length names.now ≤ MOST_PROCESSES }
    ensures { result ≡ position_from (bytes_eq name.now) 0 names.now }
{
    match place_of(names, name) {
        Some(place) => Some(place as u8),
        None => None,
    }
}

/// The place, counted from 0, of the entry of this name. `UnknownName` if none has it.
pub fn entry_of(subject: Subject, names: &[Name], name: &str) -> Result<u8, TableFault>
    requires { length names.now ≤ MOST_PROCESSES }
    ensures { result ≡ entry_of subject names.now name.now }
{
    match place_of_name(names, name.as_bytes()) {
        Some(place) => Ok(place),
        None => Err(TableFault::UnknownName(subject)),
    }
}
