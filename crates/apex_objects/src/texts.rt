//! The texts of calls and of replies, as the lines of a history have them.
ghost use Rattle.std.specs.Prelude.{◌≡◌, ◌+◌, ◌-◌, ◌≤◌, ◌++◌, [], drop, length, take, IfSome};
ghost use Rattle.arrayvec.specs.ArrayVec.{array_vec_len};
ghost use Rattle.apex_calls.specs.Lines.{IsPrintable, asked_text, no_call_text, reply_text};
ghost use Rattle.apex_machine.specs.table.Table.{IsKnown, Table};
ghost use Rattle.apex_objects.specs.Entries.{texts_part};
ghost use Rattle.apex_objects.specs.Words.{words_line};
ghost use Rattle.apex_objects.specs.declared.lines.TheConstants.{OBJECTS_ROOM};
ghost use Rattle.apex_objects.specs.declared.texts.TheConstants.{ARROW, FRONT, TEXTS_ROOM};
ghost use Rattle.apex_types.specs.declared.limits.TheConstants.{MOST_LINE};

use crate::lines::{ObjectLines, put_string};
use apex_configs::Table;
use apex_history::{Lines, NextSteps, put_line};
use apex_json::MOST_ESCAPE;
use apex_texts::put;
use apex_types::{Call, Caller, LentEntry, MOST_LINE, Reply, Who};

/// The most bytes of the texts of a call and of a reply as two members.
pub(crate) const TEXTS_ROOM: usize = MOST_ESCAPE * MOST_LINE + 30;

/// The number of bytes before the call in a line of the ticker: `0 0 ticker - `.
const FRONT: usize = 13;

/// The number of bytes between the call and the reply.
const ARROW: usize = 4;

/// The line of the ticker at time 0 with this call and this reply, so that no other word varies.
fn put_words(words: &mut Lines, table: &Table, call: Option<Call>, reply: Reply)
    requires known { IfSome call (IsKnown table.now) }
    requires empty { words.old.items ≡ [] }
    ensures text { words.new.items ≡ words_line table.now call reply }
    ensures short { array_vec_len words.new ≤ MOST_LINE }
{
    let entry = LentEntry {
        number: 0,
        now: 0,
        who: Who::Ticker,
        process: Caller::Nobody,
        call,
        reply,
        notices: &[],
    };
    put_line(words, table, &mut NextSteps::new(), &entry);
}

/// A reply that leaves the text of the call as it is, and the number of bytes from the end of that
/// text to the end of the line.
fn plain_reply(reply: Reply) -> (Reply, usize)
    ensures call { no_call_text result.0 ≡ no_call_text reply }
    ensures rest { (table : Table) → result.1
        ≡ ARROW + length (reply_text table result.0) + 1 }
{
    match reply {
        Reply::Advanced(asked, _) => (Reply::Advanced(asked, 0), " -> ADVANCED 0\n".len()),
        _ => (Reply::Idle, " -> IDLE\n".len()),
    }
}

/// The number of bytes in the text of the call.
#[tactic(auto, using(crate::proofs::Words::words_length, crate::proofs::Words::call_stays))]
fn call_length(table: &Table, call: Option<Call>, reply: Reply) -> usize
    requires { IfSome call (IsKnown table.now) }
    ensures { result ≡ length (asked_text table.now call reply) }
{
    let (plain, rest) = plain_reply(reply);
    let mut words = Lines::new();
    put_words(&mut words, table, call, plain);
    words.len() - FRONT - rest
}

/// The texts of the call, which has `many` bytes, and of the reply in such a line.
fn texts_in(words: &[u8], many: usize) -> (&[u8], &[u8])
    requires { FRONT + many + ARROW + 1 ≤ length words.now }
    ensures call { result.0.now ≡ take many (drop FRONT words.now) }
    ensures reply { result.1.now ≡ take (length words.now - (FRONT + many + ARROW + 1))
        (drop (FRONT + many + ARROW) words.now) }
{
    let call_end = FRONT + many;
    (
        &words[FRONT..call_end],
        &words[call_end + ARROW..words.len() - 1],
    )
}

/// Puts the texts of the call and of the reply.
pub(crate) fn put_texts(line: &mut ObjectLines, table: &Table, entry: &LentEntry<'_>)
    requires printable { IsPrintable table.now entry.now }
    requires room { array_vec_len line.old + TEXTS_ROOM ≤ OBJECTS_ROOM }
    ensures text { line.new.items ≡ line.old.items ++ texts_part table.now entry.entry.now }
    ensures short { array_vec_len line.new ≤ array_vec_len line.old + TEXTS_ROOM }
{
    let many = call_length(table, entry.call, entry.reply);
    let mut words = Lines::new();
    put_words(&mut words, table, entry.call, entry.reply);
    let (call, reply) = texts_in(words.as_slice(), many);
    put(line, ",\"call\":");
    put_string(line, call);
    put(line, ",\"reply\":");
    put_string(line, reply);
}
