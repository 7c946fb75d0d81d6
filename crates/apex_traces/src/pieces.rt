//! The pieces of a trace: its columns are put together in a buffer of fixed room, which is written as
//! it is.
ghost use Rattle.std.specs.Prelude.{◌≡◌, ◌+◌, ◌*◌, ◌/◌, ◌%◌, ◌<◌, ◌≤◌, [], ◌∷◌, ◌++◌, decimal, length};
ghost use Rattle.apex_json.specs.declared.strings.TheConstants.{MOST_ESCAPE};
ghost use Rattle.arrayvec.specs.ArrayVec.{array_vec_len};
ghost use Rattle.apex_traces.specs.declared.pieces.TheConstants.{DIGITS};

use crate::bytes::Bytes;
use apex_history::DIGIT_PAIRS;
use apex_json::MOST_ESCAPE;
use apex_types::{MOST_CORES, MOST_LINE, MOST_NOTICES, MOST_OBJECTS, MOST_PROCESSES};
use itoa::Buffer;

/// The most digits of a number.
pub(crate) const DIGITS: usize = 20;

/// The most bytes of the changes on a track.
pub(crate) const TRACK: usize = 416;

/// The most bytes of the change of a counter.
pub(crate) const COUNTER: usize = 320;

/// The most bytes of the slice of a call.
pub(crate) const CALL: usize = 2 * MOST_ESCAPE * MOST_LINE + 192;

/// The most bytes of the mark of a notice.
pub(crate) const MARK: usize = 160;

/// The most bytes of the beginning or the end of an arrow.
pub(crate) const ARROW: usize = 160;

/// The most bytes of a column: the slice of a call, the changes on all tracks and of all counters, and
/// the marks and arrows of all notices.
pub const COLUMN: usize = CALL
    + TRACK * (MOST_CORES as usize + MOST_PROCESSES + MOST_OBJECTS)
    + COUNTER * 4 * MOST_OBJECTS
    + (MARK + 2 * ARROW) * MOST_NOTICES;

/// The least number of bytes that are gathered before they are written.
pub const GATHERED: usize = 131_072;

/// The most bytes of a piece: those that are gathered, and one more column.
pub const PIECE_ROOM: usize = GATHERED + COLUMN;

/// The digits of each number below 100, with a space behind one digit.
static NUMBERS: [u8; 200] =
    *b"0 1 2 3 4 5 6 7 8 9 101112131415161718192021222324252627282930313233343536373839404142434445464748495051525354555657585960616263646566676869707172737475767778798081828384858687888990919293949596979899";

/// Columns of a trace that are not written yet.
pub type Piece = Bytes<PIECE_ROOM>;

/// Adds these bytes.
#[inline(always)]
pub(crate) fn add_bytes<const ROOM: usize>(piece: &mut Bytes<ROOM>, more: &[u8])
    requires { array_vec_len piece.old + length more.now ≤ ROOM }
    ensures text { piece.new.items ≡ piece.old.items ++ more.now }
    ensures len { array_vec_len piece.new ≡ array_vec_len piece.old + length more.now }
{
    piece.extend_by_few(more);
}

/// Adds this text.
#[inline(always)]
pub(crate) fn add<const ROOM: usize>(piece: &mut Bytes<ROOM>, more: &str)
    requires { array_vec_len piece.old + length more.now ≤ ROOM }
    ensures text { piece.new.items ≡ piece.old.items ++ more.now }
    ensures len { array_vec_len piece.new ≡ array_vec_len piece.old + length more.now }
{
    add_bytes(piece, more.as_bytes());
}

/// Adds a text that is known beforehand. It comes as a value, so that it is a part of the code.
#[inline(always)]
pub(crate) fn add_text<const N: usize, const ROOM: usize>(piece: &mut Bytes<ROOM>, text: [u8; N])
    requires { array_vec_len piece.old + N ≤ ROOM }
    ensures text { piece.new.items ≡ piece.old.items ++ text.entry }
    ensures len { array_vec_len piece.new ≡ array_vec_len piece.old + N }
{
    piece.extend(&text);
}

/// Adds a digit.
#[inline(always)]
#[tactic(auto, using(std::proofs::lemmas::Fmt::decimal_digit))]
pub(crate) fn add_digit<const ROOM: usize>(piece: &mut Bytes<ROOM>, digit: u8)
    requires digit { digit < 10 }
    requires room { array_vec_len piece.old + 1 ≤ ROOM }
    ensures text { piece.new.items ≡ piece.old.items ++ decimal digit }
    ensures len { array_vec_len piece.new ≡ array_vec_len piece.old + 1 }
{
    piece.push(b'0' + digit);
}

/// Adds the two digits of a number below 100, of which the first one may be a zero.
#[inline(always)]
pub(crate) fn add_pair<const ROOM: usize>(piece: &mut Bytes<ROOM>, number: u8)
    requires digits { number < 100 }
    requires room { array_vec_len piece.old + 2 ≤ ROOM }
    ensures text { piece.new.items ≡ piece.old.items
        ++ (48 + number / 10) ∷ (48 + number % 10) ∷ [] }
    ensures len { array_vec_len piece.new ≡ array_vec_len piece.old + 2 }
{
    piece.extend_by_front::<2>(&DIGIT_PAIRS[2 * usize::from(number)..], 2);
}

/// How many digits a number below 100 has.
#[inline(always)]
#[tactic(auto, using(std::proofs::lemmas::Fmt::decimal_digit, apex_history::proofs::Digits::two_digits))]
fn digit_count(number: u8) -> u32
    requires { number < 100 }
    ensures value { result ≡ length (decimal number) }
    ensures few { result ≤ 2 }
{
    if number < 10 { 1 } else { 2 }
}

// A number of at most two digits, as most tracks have: without a branch between one and two.
#[inline(always)]
fn add_below_hundred<const ROOM: usize>(piece: &mut Bytes<ROOM>, number: u8)
    requires digits { number < 100 }
    requires room { array_vec_len piece.old + 2 ≤ ROOM }
    ensures text { piece.new.items ≡ piece.old.items ++ decimal number }
    ensures short { array_vec_len piece.new ≤ array_vec_len piece.old + 2 }
{
    let digits = &NUMBERS[2 * usize::from(number)..];
    piece.extend_by_front::<2>(digits, digit_count(number));
}

// A number of three or four digits.
#[inline(always)]
#[tactic(auto, using(apex_history::proofs::Digits::pair_behind))]
fn add_hundreds<const ROOM: usize>(piece: &mut Bytes<ROOM>, number: u64)
    requires digits { (100 ≤ number) × (number < 10000) }
    requires room { array_vec_len piece.old + 4 ≤ ROOM }
    ensures text { piece.new.items ≡ piece.old.items ++ decimal number }
    ensures short { array_vec_len piece.new ≤ array_vec_len piece.old + 4 }
{
    add_below_hundred(piece, (number / 100) as u8);
    add_pair(piece, (number % 100) as u8);
}

// A number of at most four digits.
#[inline(always)]
fn add_below_ten_thousand<const ROOM: usize>(piece: &mut Bytes<ROOM>, number: u64)
    requires digits { number < 10000 }
    requires room { array_vec_len piece.old + 4 ≤ ROOM }
    ensures text { piece.new.items ≡ piece.old.items ++ decimal number }
    ensures short { array_vec_len piece.new ≤ array_vec_len piece.old + 4 }
{
    if number < 100 {
        add_below_hundred(piece, number as u8);
    } else {
        add_hundreds(piece, number);
    }
}

// A number of three to six digits, as most entries and times of a long history have.
#[inline(never)]
#[tactic(auto, using(apex_history::proofs::Digits::pair_behind))]
fn add_thousands<const ROOM: usize>(piece: &mut Bytes<ROOM>, number: u64)
    requires digits { (100 ≤ number) × (number < 1000000) }
    requires room { array_vec_len piece.old + 6 ≤ ROOM }
    ensures text { piece.new.items ≡ piece.old.items ++ decimal number }
    ensures short { array_vec_len piece.new ≤ array_vec_len piece.old + 6 }
{
    add_below_ten_thousand(piece, number / 100);
    add_pair(piece, (number % 100) as u8);
}

// A number of seven or eight digits, as most arrows of a long history have.
#[inline(never)]
#[tactic(auto, using(apex_history::proofs::Digits::pair_behind))]
fn add_millions<const ROOM: usize>(piece: &mut Bytes<ROOM>, number: u64)
    requires digits { (1000000 ≤ number) × (number < 100000000) }
    requires room { array_vec_len piece.old + 8 ≤ ROOM }
    ensures text { piece.new.items ≡ piece.old.items ++ decimal number }
    ensures short { array_vec_len piece.new ≤ array_vec_len piece.old + 8 }
{
    add_thousands(piece, number / 100);
    add_pair(piece, (number % 100) as u8);
}

// A number of any length, in a function of its own so that the shorter cases are inlined.
#[inline(never)]
fn add_digits<const ROOM: usize>(piece: &mut Bytes<ROOM>, number: u64)
    requires { array_vec_len piece.old + DIGITS ≤ ROOM }
    ensures text { piece.new.items ≡ piece.old.items ++ decimal number }
    ensures short { array_vec_len piece.new ≤ array_vec_len piece.old + DIGITS }
{
    let mut buffer = Buffer::new();
    add(piece, buffer.format(number));
}

/// Adds the number of a track, which has mostly one digit or two.
#[inline(always)]
pub(crate) fn add_track<const ROOM: usize>(piece: &mut Bytes<ROOM>, number: u32)
    requires { array_vec_len piece.old + DIGITS ≤ ROOM }
    ensures text { piece.new.items ≡ piece.old.items ++ decimal number }
    ensures short { array_vec_len piece.new ≤ array_vec_len piece.old + DIGITS }
{
    if number < 100 {
        add_below_hundred(piece, number as u8);
    } else {
        add_number(piece, u64::from(number));
    }
}

/// Adds the number in decimal digits.
#[inline(always)]
pub(crate) fn add_number<const ROOM: usize>(piece: &mut Bytes<ROOM>, number: u64)
    requires { array_vec_len piece.old + DIGITS ≤ ROOM }
    ensures text { piece.new.items ≡ piece.old.items ++ decimal number }
    ensures short { array_vec_len piece.new ≤ array_vec_len piece.old + DIGITS }
{
    if number < 100 {
        add_below_hundred(piece, number as u8);
    } else if number < 1_000_000 {
        add_thousands(piece, number);
    } else if number < 100_000_000 {
        add_millions(piece, number);
    } else {
        add_digits(piece, number);
    }
}
