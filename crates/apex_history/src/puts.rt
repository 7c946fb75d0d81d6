//! The words of a history's line, put one behind the other.
ghost use Rattle.std.specs.Prelude.{◌≡◌, ◌+◌, ◌/◌, ◌%◌, ◌<◌, ◌≤◌, [], ◌∷◌, ◌++◌, length, flat_map, codes, decimal, IfSome};
ghost use Rattle.apex_history.specs.declared.puts.TheConstants.{CALL_ROOM, LINES_ROOM, NOTICE_ROOM, NOTICES_ROOM};
ghost use Rattle.apex_types.specs.declared.limits.TheConstants.{MOST_LINE, MOST_NOTICES};
ghost use Rattle.arrayvec.specs.ArrayVec.{array_vec_len};
ghost use Rattle.apex_machine.specs.table.Table.{IsKnown};
ghost use Rattle.apex_machine.specs.text.Texts.{id_text};
ghost use Rattle.apex_calls.specs.CallText.{timeout_text};
ghost use Rattle.apex_calls.specs.Lines.{code_text, no_call_text, asked_text, who_text};
ghost use Rattle.apex_calls.specs.Lines.{caller_text, reply_text, noticed_text, line_of};
ghost use Rattle.apex_calls.specs.Lines.{IsPrintable};

mod call;
mod message;
mod status;
mod status_rows;

use crate::entry_parts::EntryParts;
use crate::steps::NextSteps;
use crate::texts::{code_word, deadline_word};
use apex_calls::{MOST_SHAPES, MOST_WORD};
use apex_configs::Table;
use apex_texts::{put, put_bytes, put_long_number as put_long_digits, put_number as put_digits};
use apex_types::{
    Caller, CoreId, Id, LentEntry, MOST_LINE, MOST_LITERAL, MOST_NOTICES, Name, Notice, ProcessId,
    Reply, ReturnCode, Timeout, Who,
};
use arrayvec::ArrayVec;
use call::put_called;
pub use message::put_message;
pub(crate) use status_rows::put_row;

/// The most bytes of the lines that are put together before they go to a page.
pub const LINES_ROOM: usize = 2 * MOST_LINE;

/// The most bytes of an argument of a call: a message has two digits for each byte.
const ARGUMENT_ROOM: usize = 2 * MOST_LITERAL;

/// The most bytes of the arguments of a call, with a space before each.
const ARGUMENTS_ROOM: usize = MOST_SHAPES * (ARGUMENT_ROOM + 1);

/// The most bytes of a call.
const CALL_ROOM: usize = MOST_WORD + ARGUMENTS_ROOM;

/// The most bytes of a notice, with the separator before it.
const NOTICE_ROOM: usize = 27;

/// The most bytes of the notices of an entry.
const NOTICES_ROOM: usize = NOTICE_ROOM * MOST_NOTICES;

/// The two digits of each number below 100, of which the first one may be a zero: those of `number`
/// are at `2 * number`.
pub static DIGIT_PAIRS: [u8; 200] =
    *b"00010203040506070809101112131415161718192021222324252627282930313233343536373839404142434445464748495051525354555657585960616263646566676869707172737475767778798081828384858687888990919293949596979899";

/// Lines of a history, one behind the other: a buffer of at most [`LINES_ROOM`] bytes, of which a
/// line takes at most [`MOST_LINE`].
pub type Lines = ArrayVec<u8, LINES_ROOM>;

/// A text that is known beforehand. It comes as a value, so that it is a part of the code.
#[inline(always)]
fn put_text<const N: usize>(line: &mut Lines, text: [u8; N])
    requires { array_vec_len line.old + N ≤ LINES_ROOM }
    ensures text { line.new.items ≡ line.old.items ++ text.entry }
    ensures len { array_vec_len line.new ≡ array_vec_len line.old + N }
{
    put_bytes(line, &text);
}

/// A single byte, for which there is no test whether it fits.
#[inline(always)]
fn put_one(line: &mut Lines, byte: u8)
    requires { array_vec_len line.old < LINES_ROOM }
    ensures text { line.new.items ≡ line.old.items ++ byte ∷ [] }
    ensures len { array_vec_len line.new ≡ array_vec_len line.old + 1 }
{
    line.push(byte);
}

/// A number of one digit, as most numbers of a line are.
#[inline(always)]
#[tactic(auto, using(std::proofs::lemmas::Fmt::decimal_digit))]
fn put_digit(line: &mut Lines, digit: u8)
    requires digit { digit < 10 }
    requires room { array_vec_len line.old + 10 ≤ LINES_ROOM }
    ensures text { line.new.items ≡ line.old.items ++ decimal digit }
    ensures short { array_vec_len line.new ≤ array_vec_len line.old + 1 }
{
    put_one(line, b'0' + digit);
}

/// The two digits of a number below 100, of which the first one may be a zero.
#[inline(always)]
#[tactic(auto, using(crate::proofs::Digits::pair_at))]
fn pair(number: u8) -> (u8, u8)
    requires { number < 100 }
    ensures { result ≡ (48 + number / 10, 48 + number % 10) }
{
    let from = usize::from(number) * 2;
    (DIGIT_PAIRS[from], DIGIT_PAIRS[from + 1])
}

/// Those two digits.
#[inline(always)]
fn put_pair(line: &mut Lines, number: u8)
    requires digits { number < 100 }
    requires room { array_vec_len line.old + 2 ≤ LINES_ROOM }
    ensures text { line.new.items ≡ line.old.items ++ (48 + number / 10) ∷ (48 + number % 10) ∷ [] }
    ensures short { array_vec_len line.new ≤ array_vec_len line.old + 2 }
{
    let (tens, ones) = pair(number);
    put_bytes(line, &[tens, ones]);
}

/// A number of at most two digits.
#[inline(always)]
#[tactic(auto, using(crate::proofs::Digits::two_digits))]
fn put_below_hundred(line: &mut Lines, number: u8)
    requires digits { number < 100 }
    requires room { array_vec_len line.old + 10 ≤ LINES_ROOM }
    ensures text { line.new.items ≡ line.old.items ++ decimal number }
    ensures short { array_vec_len line.new ≤ array_vec_len line.old + 2 }
{
    if number < 10 {
        put_digit(line, number);
    } else {
        put_pair(line, number);
    }
}

/// A number of three or four digits.
#[tactic(auto, using(crate::proofs::Digits::pair_behind))]
fn put_hundreds(line: &mut Lines, number: u32)
    requires digits { (100 ≤ number) × (number < 10000) }
    requires room { array_vec_len line.old + 10 ≤ LINES_ROOM }
    ensures text { line.new.items ≡ line.old.items ++ decimal number }
    ensures short { array_vec_len line.new ≤ array_vec_len line.old + 4 }
{
    put_below_hundred(line, (number / 100) as u8);
    put_pair(line, (number % 100) as u8);
}

/// A number of five digits, as most entries of a long history have.
#[inline(always)]
#[tactic(auto, using(crate::proofs::Digits::five_digits))]
fn put_five_digits(line: &mut Lines, number: u32)
    requires digits { (10000 ≤ number) × (number < 100000) }
    requires room { array_vec_len line.old + 10 ≤ LINES_ROOM }
    ensures text { line.new.items ≡ line.old.items ++ decimal number }
    ensures short { array_vec_len line.new ≤ array_vec_len line.old + 5 }
{
    let hundreds = number / 100;
    let first = b'0' + (hundreds / 100) as u8;
    let middle = pair((hundreds % 100) as u8);
    let last = pair((number % 100) as u8);
    put_bytes(line, &[first, middle.0, middle.1, last.0, last.1]);
}

/// A number of six digits.
#[tactic(auto, using(crate::proofs::Digits::pair_behind))]
fn put_six_digits(line: &mut Lines, number: u32)
    requires digits { (100000 ≤ number) × (number < 1000000) }
    requires room { array_vec_len line.old + 10 ≤ LINES_ROOM }
    ensures text { line.new.items ≡ line.old.items ++ decimal number }
    ensures short { array_vec_len line.new ≤ array_vec_len line.old + 6 }
{
    put_hundreds(line, number / 100);
    put_pair(line, (number % 100) as u8);
}

#[inline(always)]
fn put_number(line: &mut Lines, number: u32)
    requires { array_vec_len line.old + 10 ≤ LINES_ROOM }
    ensures text { line.new.items ≡ line.old.items ++ decimal number }
    ensures short { array_vec_len line.new ≤ array_vec_len line.old + 10 }
{
    if number < 100 {
        put_below_hundred(line, number as u8);
    } else if number < 10_000 {
        put_hundreds(line, number);
    } else if number < 100_000 {
        put_five_digits(line, number);
    } else if number < 1_000_000 {
        put_six_digits(line, number);
    } else {
        put_digits(line, number);
    }
}

#[inline(always)]
fn put_long_number(line: &mut Lines, number: u64)
    requires { array_vec_len line.old + 20 ≤ LINES_ROOM }
    ensures text { line.new.items ≡ line.old.items ++ decimal number }
    ensures short { array_vec_len line.new ≤ array_vec_len line.old + 20 }
{
    if number < 1_000_000 {
        put_number(line, number as u32);
    } else {
        put_long_digits(line, number);
    }
}

#[inline(always)]
#[tactic(auto, using(crate::proofs::LinesOf::id_put))]
fn put_id<K: Copy>(line: &mut Lines, id: Id<K>)
    requires { array_vec_len line.old + 10 ≤ LINES_ROOM }
    ensures text { line.new.items ≡ line.old.items ++ id_text id }
    ensures short { array_vec_len line.new ≤ array_vec_len line.old + 3 }
{
    prove!(id.place() < 256);
    put_number(line, id.number());
}

/// A return code, with a space before it.
#[inline(always)]
fn put_spaced_code(line: &mut Lines, code: &ReturnCode)
    requires { array_vec_len line.old + 15 ≤ LINES_ROOM }
    ensures text { line.new.items ≡ line.old.items ++ codes " " ++ code_text code.now }
    ensures short { array_vec_len line.new ≤ array_vec_len line.old + 15 }
{
    match code {
        ReturnCode::NoError => put_text(line, *b" NO_ERROR"),
        ReturnCode::NoAction => put_text(line, *b" NO_ACTION"),
        ReturnCode::NotAvailable => put_text(line, *b" NOT_AVAILABLE"),
        ReturnCode::InvalidParam => put_text(line, *b" INVALID_PARAM"),
        ReturnCode::InvalidConfig => put_text(line, *b" INVALID_CONFIG"),
        ReturnCode::InvalidMode => put_text(line, *b" INVALID_MODE"),
        ReturnCode::TimedOut => put_text(line, *b" TIMED_OUT"),
    }
}

fn put_timeout(line: &mut Lines, timeout: &Timeout)
    requires { array_vec_len line.old + 10 ≤ LINES_ROOM }
    ensures text { line.new.items ≡ line.old.items ++ timeout_text timeout.now }
    ensures short { array_vec_len line.new ≤ array_vec_len line.old + 10 }
{
    match timeout {
        Timeout::Poll => put(line, "0"),
        Timeout::Ticks(ticks) => put_number(line, *ticks),
        Timeout::Infinite => put(line, "infinite"),
    }
}

fn put_name(line: &mut Lines, name: &Name)
    requires { array_vec_len line.old + 30 ≤ LINES_ROOM }
    ensures text { line.new.items ≡ line.old.items ++ name.now }
    ensures short { array_vec_len line.new ≤ array_vec_len line.old + 30 }
{
    put_bytes(line, name.as_bytes());
}

/// The tick that was asked for.
#[inline(never)]
#[tactic(auto, using(std::proofs::Common::append_assoc))]
fn put_tick(line: &mut Lines, ticks: u32)
    requires { array_vec_len line.old + 15 ≤ LINES_ROOM }
    ensures text { line.new.items ≡ line.old.items ++ codes "tick " ++ decimal ticks }
    ensures short { array_vec_len line.new ≤ array_vec_len line.old + 15 }
{
    put(line, "tick ");
    put_number(line, ticks);
}

#[inline(always)]
fn put_no_call(line: &mut Lines, reply: &Reply)
    requires { array_vec_len line.old + 15 ≤ LINES_ROOM }
    ensures text { line.new.items ≡ line.old.items ++ no_call_text reply.now }
    ensures short { array_vec_len line.new ≤ array_vec_len line.old + 15 }
{
    match reply {
        Reply::Advanced(asked, _) => put_tick(line, *asked),
        _ => put_text(line, *b"idle"),
    }
}

#[inline(always)]
fn put_asked(line: &mut Lines, table: &Table, steps: &mut NextSteps, entry: &EntryParts<'_>)
    requires known { IfSome entry.now.call (IsKnown table.now) }
    requires room { array_vec_len line.old + CALL_ROOM ≤ LINES_ROOM }
    ensures text { line.new.items ≡ line.old.items
        ++ asked_text table.now entry.entry.now.call entry.entry.now.reply }
    ensures short { array_vec_len line.new ≤ array_vec_len line.old + CALL_ROOM }
{
    match entry.call {
        Some(call) => put_called(line, table, steps, &entry.process, call),
        None => put_no_call(line, entry.reply),
    }
}

/// The time after a turn, and its core, with a space before each.
#[inline(always)]
#[tactic(auto, using(std::proofs::Common::append_assoc, std::proofs::lemmas::Fmt::decimal_digit))]
fn put_turn(line: &mut Lines, now: u64, core: CoreId)
    requires { array_vec_len line.old + 40 ≤ LINES_ROOM }
    ensures text { line.new.items ≡ line.old.items
        ++ codes " " ++ decimal now ++ codes " " ++ codes "core" ++ decimal core }
    ensures short { array_vec_len line.new ≤ array_vec_len line.old + 30 }
{
    let core = b'0' + core.number();
    if now < 10 {
        let time = b'0' + now as u8;
        put_bytes(line, &[b' ', time, b' ', b'c', b'o', b'r', b'e', core]);
    } else {
        put_one(line, b' ');
        put_long_number(line, now);
        put_bytes(line, &[b' ', b'c', b'o', b'r', b'e', core]);
    }
}

/// The time after an event, and its maker, with a space before each.
#[inline(always)]
#[tactic(auto, using(std::proofs::Common::append_assoc))]
fn put_event(line: &mut Lines, now: u64, who: &Who)
    requires { array_vec_len line.old + 40 ≤ LINES_ROOM }
    ensures text { line.new.items ≡ line.old.items
        ++ codes " " ++ decimal now ++ codes " " ++ who_text who.now }
    ensures short { array_vec_len line.new ≤ array_vec_len line.old + 30 }
{
    match who {
        Who::Core(core) => put_turn(line, now, *core),
        Who::Ticker => {
            put_one(line, b' ');
            put_long_number(line, now);
            put(line, " ticker");
        }
    }
}

/// An id, with a space before and behind it.
#[inline(always)]
#[tactic(auto, using(std::proofs::Common::append_assoc, std::proofs::lemmas::Fmt::decimal_digit, crate::proofs::Digits::two_digits))]
fn put_spaced_id<K: Copy>(line: &mut Lines, id: Id<K>)
    requires { array_vec_len line.old + 12 ≤ LINES_ROOM }
    ensures text { line.new.items ≡ line.old.items ++ codes " " ++ id_text id ++ codes " " }
    ensures short { array_vec_len line.new ≤ array_vec_len line.old + 5 }
{
    prove!(id.place() < 256);
    let number = id.number();
    if number < 10 {
        put_bytes(line, &[b' ', b'0' + number as u8, b' ']);
    } else if number < 100 {
        let (tens, ones) = pair(number as u8);
        put_bytes(line, &[b' ', tens, ones, b' ']);
    } else {
        put_one(line, b' ');
        put_id(line, id);
        put_one(line, b' ');
    }
}

/// The caller, with a space before and behind it.
#[inline(always)]
fn put_caller(line: &mut Lines, caller: &Caller)
    requires { array_vec_len line.old + 12 ≤ LINES_ROOM }
    ensures text { line.new.items ≡ line.old.items
        ++ codes " " ++ caller_text caller.now ++ codes " " }
    ensures short { array_vec_len line.new ≤ array_vec_len line.old + 6 }
{
    match caller {
        Caller::Process(process) => put_spaced_id(line, *process),
        Caller::Init => put_text(line, *b" init "),
        Caller::Nobody => put_text(line, *b" - "),
    }
}

/// A return code as a reply, with an arrow before it.
#[tactic(auto, using(std::proofs::Common::append_assoc))]
fn put_code_reply(line: &mut Lines, code: &ReturnCode)
    requires { array_vec_len line.old + 18 ≤ LINES_ROOM }
    ensures text { line.new.items ≡ line.old.items ++ codes " -> " ++ code_text code.now }
    ensures short { array_vec_len line.new ≤ array_vec_len line.old + 18 }
{
    put(line, " -> ");
    put(line, code_word(*code));
}

/// Any reply, with an arrow before it.
#[inline(never)]
#[tactic(auto, using(std::proofs::Common::append_assoc))]
fn put_any_reply(line: &mut Lines, table: &Table, reply: &Reply)
    requires { array_vec_len line.old + 148 ≤ LINES_ROOM }
    ensures text { line.new.items ≡ line.old.items
        ++ codes " -> " ++ reply_text table.now reply.now }
    ensures short { array_vec_len line.new ≤ array_vec_len line.old + 148 }
{
    match reply {
        Reply::Code(code) => put_code_reply(line, code),
        Reply::Value(value) => {
            put(line, " -> VALUE ");
            put_long_number(line, *value);
        }
        Reply::Status(first, second) => {
            put(line, " -> STATUS ");
            put_number(line, *first);
            put_one(line, b' ');
            put_number(line, *second);
        }
        Reply::Message(message) => {
            put(line, " -> MESSAGE ");
            put_message(line, table, message);
        }
        Reply::Blocked => put(line, " -> BLOCKED"),
        Reply::Gone => put(line, " -> GONE"),
        Reply::Idle => put(line, " -> IDLE"),
        Reply::Begun => put(line, " -> BEGUN"),
        Reply::Done => put(line, " -> DONE"),
        Reply::Lost => put(line, " -> LOST"),
        Reply::Advanced(_, went) => {
            put(line, " -> ADVANCED ");
            put_number(line, *went);
        }
    }
}

/// The reply, with an arrow before it: first those that most entries have, each with a test of its
/// own.
#[inline(always)]
fn put_reply(line: &mut Lines, table: &Table, reply: &Reply)
    requires { array_vec_len line.old + 148 ≤ LINES_ROOM }
    ensures text { line.new.items ≡ line.old.items
        ++ codes " -> " ++ reply_text table.now reply.now }
    ensures short { array_vec_len line.new ≤ array_vec_len line.old + 148 }
{
    if let Reply::Code(ReturnCode::NoError) = reply {
        put_text(line, *b" -> NO_ERROR");
    } else if let Reply::Blocked = reply {
        put_text(line, *b" -> BLOCKED");
    } else if let Reply::Idle = reply {
        put_text(line, *b" -> IDLE");
    } else {
        put_any_reply(line, table, reply);
    }
}

/// The word of a process that was woken, and its id.
#[inline(always)]
#[tactic(auto, using(std::proofs::Common::append_assoc, std::proofs::lemmas::Fmt::decimal_digit, crate::proofs::Digits::two_digits))]
fn put_woken(line: &mut Lines, process: ProcessId)
    requires { array_vec_len line.old + 20 ≤ LINES_ROOM }
    ensures text { line.new.items ≡ line.old.items ++ codes " | woken " ++ id_text process }
    ensures short { array_vec_len line.new ≤ array_vec_len line.old + 12 }
{
    prove!(process.place() < 256);
    let number = process.number();
    if number < 10 {
        let digit = b'0' + number as u8;
        put_bytes(
            line,
            &[b' ', b'|', b' ', b'w', b'o', b'k', b'e', b'n', b' ', digit],
        );
    } else if number < 100 {
        let (tens, ones) = pair(number as u8);
        put_bytes(
            line,
            &[
                b' ', b'|', b' ', b'w', b'o', b'k', b'e', b'n', b' ', tens, ones,
            ],
        );
    } else {
        put_text(line, *b" | woken ");
        put_id(line, process);
    }
}

#[inline(always)]
#[tactic(auto, using(std::proofs::Common::append_assoc))]
fn put_noticed(line: &mut Lines, notice: &Notice)
    requires { array_vec_len line.old + 40 ≤ LINES_ROOM }
    ensures text { line.new.items ≡ line.old.items ++ noticed_text notice.now }
    ensures short { array_vec_len line.new ≤ array_vec_len line.old + NOTICE_ROOM }
{
    match notice {
        Notice::Woken(process, code) => {
            put_woken(line, *process);
            put_spaced_code(line, code);
        }
        Notice::Released(process) => {
            put_text(line, *b" | released ");
            put_id(line, *process);
        }
        Notice::Missed(process, deadline) => {
            put_text(line, *b" | missed ");
            put_id(line, *process);
            put_one(line, b' ');
            put(line, deadline_word(*deadline));
        }
    }
}

#[inline(always)]
fn put_notices(line: &mut Lines, notices: &[Notice])
    requires few_notices { length notices.now ≤ MOST_NOTICES }
    requires room { array_vec_len line.old + NOTICES_ROOM + 13 ≤ LINES_ROOM }
    ensures text { line.new.items ≡ line.old.items ++ flat_map noticed_text notices.now }
    ensures short { array_vec_len line.new ≤ array_vec_len line.old + NOTICES_ROOM }
{
    for notice in notices {
        put_noticed(line, notice);
    }
}

/// Puts the line of the entry, as [`put_line`] does.
#[inline(always)]
#[tactic(auto, using(std::proofs::Common::append_assoc))]
pub(crate) fn put_parts(
    lines: &mut Lines,
    table: &Table,
    steps: &mut NextSteps,
    entry: &EntryParts<'_>,
)
    requires printable { IsPrintable table.now entry.now }
    requires room { array_vec_len lines.old + MOST_LINE ≤ LINES_ROOM }
    ensures text { lines.new.items ≡ lines.old.items ++ line_of table.now entry.entry.now }
    ensures room { array_vec_len lines.new ≤ array_vec_len lines.old + MOST_LINE }
{
    put_number(lines, entry.number);
    put_event(lines, entry.now, entry.who);
    put_caller(lines, &entry.process);
    put_asked(lines, table, steps, entry);
    put_reply(lines, table, entry.reply);
    put_notices(lines, entry.notices);
    put_one(lines, b'\n');
}

/// Puts the line of the entry, with its line feed, behind the others. Takes no memory.
///
/// A line has at most [`MOST_LINE`] bytes: so much room there has to be. A call that is the next
/// one of its caller by `steps` is put fastest.
#[inline(always)]
#[tactic(auto, using(crate::proofs::LinesOf::length_put))]
pub fn put_line(lines: &mut Lines, table: &Table, steps: &mut NextSteps, entry: &LentEntry<'_>)
    requires printable { IsPrintable table.now entry.now }
    requires room { array_vec_len lines.old + MOST_LINE ≤ LINES_ROOM }
    ensures text { lines.new.items ≡ lines.old.items ++ line_of table.now entry.entry.now }
    ensures short { length (line_of table.now entry.entry.now) ≤ MOST_LINE }
{
    put_parts(lines, table, steps, &EntryParts::of(entry));
}

/// Puts what the entry's caller asked for, as the entry's line has it: the step of a call, a tick or an
/// idle turn. Takes no memory. A call that is the next one of its caller by `steps` is put fastest.
#[inline(always)]
pub fn put_call_of(lines: &mut Lines, table: &Table, steps: &mut NextSteps, entry: &LentEntry<'_>)
    requires printable { IsPrintable table.now entry.now }
    requires room { array_vec_len lines.old + MOST_LINE ≤ LINES_ROOM }
    ensures text { lines.new.items ≡ lines.old.items
        ++ asked_text table.now entry.entry.now.call entry.entry.now.reply }
    ensures short { array_vec_len lines.new ≤ array_vec_len lines.old + MOST_LINE }
{
    put_asked(lines, table, steps, &EntryParts::of(entry));
}

/// Puts the entry's reply, with an arrow before it, as the entry's line has it. Takes no memory.
#[inline(always)]
pub fn put_reply_of(lines: &mut Lines, table: &Table, entry: &LentEntry<'_>)
    requires room { array_vec_len lines.old + MOST_LINE ≤ LINES_ROOM }
    ensures text { lines.new.items ≡ lines.old.items
        ++ codes " -> " ++ reply_text table.now entry.entry.now.reply }
    ensures short { array_vec_len lines.new ≤ array_vec_len lines.old + MOST_LINE }
{
    put_reply(lines, table, &entry.reply);
}
