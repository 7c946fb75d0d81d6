//! The parts of the lines of the status listing.
ghost use Rattle.std.specs.Prelude.{◌≡◌, ◌+◌, ◌*◌, ◌≤◌, ◌++◌, length, flat_map};
ghost use Rattle.apex_history.specs.declared.puts.TheConstants.{ARGUMENT_ROOM, LINES_ROOM};
ghost use Rattle.arrayvec.specs.ArrayVec.{array_vec_len};
ghost use Rattle.apex_types.specs.declared.limits.TheConstants.{MOST_MESSAGES, MOST_OWNED, MOST_PROCESSES};
ghost use Rattle.apex_machine.specs.text.Texts.{id_text, message_text};
ghost use Rattle.apex_machine.specs.text.Status as status;

use super::message::put_message;
use super::{Lines, put_id, put_long_number, put_name};
use apex_configs::Table;
use apex_machine::{Holding, Holdings, Suspender, Wait};
use apex_texts::put;
use apex_types::{Id, Message, Name, ProcessId};

pub(super) fn suspended_word(suspended: &Option<Suspender>) -> &'static str
    ensures value { result.now ≡ status.suspended_text suspended.now }
    ensures short { length result.now ≤ 5 }
{
    match suspended {
        Some(Suspender::Itself) => "self",
        Some(Suspender::Other) => "other",
        None => "-",
    }
}

pub(super) fn put_optional_id(line: &mut Lines, id: &Option<ProcessId>)
    requires { array_vec_len line.old + 10 ≤ LINES_ROOM }
    ensures text { line.new.items ≡ line.old.items ++ status.optional_id_text id.now }
    ensures short { array_vec_len line.new ≤ array_vec_len line.old + 10 }
{
    match id {
        Some(id) => put_id(line, *id),
        None => put(line, "-"),
    }
}

pub(super) fn put_instant(line: &mut Lines, instant: &Option<u64>)
    requires { array_vec_len line.old + 20 ≤ LINES_ROOM }
    ensures text { line.new.items ≡ line.old.items ++ status.instant_text instant.now }
    ensures short { array_vec_len line.new ≤ array_vec_len line.old + 20 }
{
    match instant {
        Some(instant) => put_long_number(line, *instant),
        None => put(line, "-"),
    }
}

#[tactic(auto, using(std::proofs::Common::append_assoc))]
fn put_mutex_behind(line: &mut Lines, holding: &Holding)
    requires { array_vec_len line.old + 11 ≤ LINES_ROOM }
    ensures text { line.new.items ≡ line.old.items
        ++ status.behind_text status.held_text holding.now }
    ensures short { array_vec_len line.new ≤ array_vec_len line.old + 11 }
{
    put(line, ",");
    put_id(line, holding.mutex);
}

fn put_mutexes_behind(line: &mut Lines, held: &[Holding])
    requires few_owned { length held.now ≤ MOST_OWNED }
    requires room { array_vec_len line.old + 11 * MOST_OWNED ≤ LINES_ROOM }
    ensures text { line.new.items ≡ line.old.items
        ++ flat_map (status.behind_text status.held_text) held.now }
    ensures short { array_vec_len line.new ≤ array_vec_len line.old + 11 * MOST_OWNED }
{
    for holding in held {
        put_mutex_behind(line, holding);
    }
}

/// The mutexes that a process owns, in order of their numbers, with `,` between.
#[tactic(auto, using(std::proofs::Common::append_assoc))]
pub(super) fn put_owned(line: &mut Lines, owned: &Holdings)
    requires { array_vec_len line.old + 10 + 11 * MOST_OWNED ≤ LINES_ROOM }
    ensures text { line.new.items ≡ line.old.items ++ status.owns_text owned.now }
    ensures short { array_vec_len line.new ≤ array_vec_len line.old + 10 + 11 * MOST_OWNED }
{
    let held = owned.in_order();
    match held.as_slice().split_first() {
        Some((first, others)) => {
            put_id(line, first.mutex);
            put_mutexes_behind(line, others);
        }
        None => put(line, "-"),
    }
}

pub(super) fn put_optional_message(line: &mut Lines, table: &Table, message: &Option<Message>)
    requires { array_vec_len line.old + ARGUMENT_ROOM ≤ LINES_ROOM }
    ensures text { line.new.items ≡ line.old.items
        ++ status.optional_message_text table.now message.now }
    ensures short { array_vec_len line.new ≤ array_vec_len line.old + ARGUMENT_ROOM }
{
    match message {
        Some(message) => put_message(line, table, message),
        None => put(line, "-"),
    }
}

/// A kind, with the colon behind it, and an id.
#[tactic(auto, using(std::proofs::Common::append_assoc))]
fn put_kind_and_id<K: Copy>(line: &mut Lines, kind: &str, id: Id<K>)
    requires { array_vec_len line.old + length kind.now + 10 ≤ LINES_ROOM }
    ensures text { line.new.items ≡ line.old.items ++ (kind.now ++ id_text id) }
    ensures short { array_vec_len line.new ≤ array_vec_len line.old + length kind.now + 10 }
{
    put(line, kind);
    put_id(line, id);
}

fn put_wait(line: &mut Lines, wait: &Wait)
    requires { array_vec_len line.old + 21 ≤ LINES_ROOM }
    ensures text { line.new.items ≡ line.old.items ++ status.wait_text wait.now }
    ensures short { array_vec_len line.new ≤ array_vec_len line.old + 21 }
{
    match wait {
        Wait::Normal(_) => put(line, "normal"),
        Wait::Start => put(line, "start"),
        Wait::Time => put(line, "time"),
        Wait::Period => put(line, "period"),
        Wait::Semaphore(semaphore) => put_kind_and_id(line, "semaphore:", *semaphore),
        Wait::Receive(buffer) => put_kind_and_id(line, "buffer:", *buffer),
        Wait::Send(buffer, _) => put_kind_and_id(line, "buffer:", *buffer),
        Wait::Blackboard(blackboard) => put_kind_and_id(line, "blackboard:", *blackboard),
        Wait::EventFlag(event_flag) => put_kind_and_id(line, "event:", *event_flag),
        Wait::Mutex(mutex) => put_kind_and_id(line, "mutex:", *mutex),
    }
}

pub(super) fn put_optional_wait(line: &mut Lines, wait: &Option<Wait>)
    requires { array_vec_len line.old + 21 ≤ LINES_ROOM }
    ensures text { line.new.items ≡ line.old.items ++ status.optional_wait_text wait.now }
    ensures short { array_vec_len line.new ≤ array_vec_len line.old + 21 }
{
    match wait {
        Some(wait) => put_wait(line, wait),
        None => put(line, "-"),
    }
}

#[tactic(auto, using(std::proofs::Common::append_assoc))]
fn put_id_behind(line: &mut Lines, id: ProcessId)
    requires { array_vec_len line.old + 11 ≤ LINES_ROOM }
    ensures text { line.new.items ≡ line.old.items ++ status.behind_text id_text id }
    ensures short { array_vec_len line.new ≤ array_vec_len line.old + 11 }
{
    put(line, ",");
    put_id(line, id);
}

fn put_ids_behind(line: &mut Lines, ids: &[ProcessId])
    requires few_ids { length ids.now ≤ MOST_PROCESSES }
    requires room { array_vec_len line.old + 11 * MOST_PROCESSES ≤ LINES_ROOM }
    ensures text { line.new.items ≡ line.old.items
        ++ flat_map (status.behind_text id_text) ids.now }
    ensures short { array_vec_len line.new ≤ array_vec_len line.old + 11 * MOST_PROCESSES }
{
    for id in ids {
        put_id_behind(line, *id);
    }
}

/// The ids of waiters, with `,` between.
#[tactic(auto, using(std::proofs::Common::append_assoc))]
fn put_ids(line: &mut Lines, ids: &[ProcessId])
    requires few_ids { length ids.now ≤ MOST_PROCESSES }
    requires room { array_vec_len line.old + 10 + 11 * MOST_PROCESSES ≤ LINES_ROOM }
    ensures text { line.new.items ≡ line.old.items ++ status.ids_text ids.now }
    ensures short { array_vec_len line.new ≤ array_vec_len line.old + 10 + 11 * MOST_PROCESSES }
{
    match ids.split_first() {
        Some((first, others)) => {
            put_id(line, *first);
            put_ids_behind(line, others);
        }
        None => put(line, "-"),
    }
}

#[tactic(auto, using(std::proofs::Common::append_assoc))]
fn put_message_behind(line: &mut Lines, table: &Table, message: &Message)
    requires { array_vec_len line.old + ARGUMENT_ROOM + 1 ≤ LINES_ROOM }
    ensures text { line.new.items ≡ line.old.items
        ++ status.behind_text (message_text table.now) message.now }
    ensures short { array_vec_len line.new ≤ array_vec_len line.old + ARGUMENT_ROOM + 1 }
{
    put(line, ",");
    put_message(line, table, message);
}

fn put_messages_behind(line: &mut Lines, table: &Table, messages: &[Message])
    requires few_messages { length messages.now ≤ MOST_MESSAGES }
    requires room { array_vec_len line.old + (ARGUMENT_ROOM + 1) * MOST_MESSAGES ≤ LINES_ROOM }
    ensures text { line.new.items ≡ line.old.items
        ++ flat_map (status.behind_text (message_text table.now)) messages.now }
    ensures short { array_vec_len line.new
        ≤ array_vec_len line.old + (ARGUMENT_ROOM + 1) * MOST_MESSAGES }
{
    for message in messages {
        put_message_behind(line, table, message);
    }
}

/// A buffer's messages, with `,` between.
#[tactic(auto, using(std::proofs::Common::append_assoc))]
pub(super) fn put_messages(line: &mut Lines, table: &Table, messages: &[Message])
    requires few_messages { length messages.now ≤ MOST_MESSAGES }
    requires room { array_vec_len line.old + ARGUMENT_ROOM + (ARGUMENT_ROOM + 1) * MOST_MESSAGES
        ≤ LINES_ROOM }
    ensures text { line.new.items ≡ line.old.items ++ status.messages_text table.now messages.now }
    ensures short { array_vec_len line.new
        ≤ array_vec_len line.old + ARGUMENT_ROOM + (ARGUMENT_ROOM + 1) * MOST_MESSAGES }
{
    match messages.split_first() {
        Some((first, others)) => {
            put_message(line, table, first);
            put_messages_behind(line, table, others);
        }
        None => put(line, "-"),
    }
}

/// The head of the line of a process or an object.
#[tactic(auto, using(std::proofs::Common::append_assoc))]
pub(super) fn put_head<K: Copy>(line: &mut Lines, kind: &str, id: Id<K>, name: &Name)
    requires word { length kind.now ≤ 10 }
    requires room { array_vec_len line.old + 57 ≤ LINES_ROOM }
    ensures text { line.new.items ≡ line.old.items ++ status.head_text kind.now id name.now }
    ensures short { array_vec_len line.new ≤ array_vec_len line.old + 57 }
{
    put(line, kind);
    put(line, " ");
    put_id(line, id);
    put(line, " name ");
    put_name(line, name);
}

/// The end of the line of an object.
#[tactic(auto, using(std::proofs::Common::append_assoc))]
pub(super) fn put_waiting(line: &mut Lines, waiting: &[ProcessId])
    requires few_waiters { length waiting.now ≤ MOST_PROCESSES }
    requires room { array_vec_len line.old + 20 + 11 * MOST_PROCESSES ≤ LINES_ROOM }
    ensures text { line.new.items ≡ line.old.items ++ status.waiting_text waiting.now }
    ensures short { array_vec_len line.new ≤ array_vec_len line.old + 20 + 11 * MOST_PROCESSES }
{
    put(line, " waiting ");
    put_ids(line, waiting);
    put(line, "\n");
}
