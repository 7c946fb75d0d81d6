//! The objects of the rows of the status listing, each from its parts.
ghost use Rattle.std.specs.Prelude.{◌≡◌, ◌+◌, ◌≤◌, ◌++◌, length};
ghost use Rattle.arrayvec.specs.ArrayVec.{array_vec_len};
ghost use Rattle.apex_types.specs.declared.limits.TheConstants.{MOST_MESSAGES, MOST_PROCESSES};
ghost use Rattle.apex_objects.specs.Parts.{or_null};
ghost use Rattle.apex_objects.specs.Rows as rows;
ghost use Rattle.apex_objects.specs.declared.lines.TheConstants.{MOST_OBJECT, OBJECTS_ROOM};
ghost use Rattle.apex_objects.specs.declared.rows.TheConstants.{QUEUE_ROOM};

use crate::elements::put_array;
use crate::lines::{ELEMENT_ROOM, ObjectLines, put_instant, put_process, put_thing};
use crate::messages::put_optional_message;
use crate::waits::put_optional_wait;
use apex_configs::Table;
use apex_history::{mode_word, state_word, up_word};
use apex_machine::{Record, Suspender};
use apex_names::{
    blackboard_name, buffer_name, event_flag_name, mutex_name, process_name, semaphore_name,
};
use apex_texts::{put, put_long_number, put_number};
use apex_types::{
    BlackboardId, BufferId, CoreId, EventId, MOST_PROCESSES, Message, Mode, MutexId, ProcessId,
    SemaphoreId, State,
};

/// The most bytes of the end of an object's row.
const QUEUE_ROOM: usize = ELEMENT_ROOM * MOST_PROCESSES + 20;

#[tactic(auto, using(std::proofs::Common::append_assoc))]
pub(crate) fn put_time(line: &mut ObjectLines, now: u64)
    requires { array_vec_len line.old + 40 ≤ OBJECTS_ROOM }
    ensures text { line.new.items ≡ line.old.items ++ rows.time_object now }
    ensures short { array_vec_len line.new ≤ array_vec_len line.old + 40 }
{
    put(line, "{\"time\":");
    put_long_number(line, now);
    put(line, "}\n");
}

#[tactic(auto, using(std::proofs::Common::append_assoc))]
pub(crate) fn put_mode(line: &mut ObjectLines, mode: &Mode)
    requires { array_vec_len line.old + 40 ≤ OBJECTS_ROOM }
    ensures text { line.new.items ≡ line.old.items ++ rows.mode_object mode.now }
    ensures short { array_vec_len line.new ≤ array_vec_len line.old + 40 }
{
    put(line, "{\"mode\":\"");
    put(line, mode_word(*mode));
    put(line, "\"}\n");
}

#[tactic(auto, using(std::proofs::Common::append_assoc))]
pub(crate) fn put_history(line: &mut ObjectLines, entries: u32)
    requires { array_vec_len line.old + 40 ≤ OBJECTS_ROOM }
    ensures text { line.new.items ≡ line.old.items ++ rows.history_object entries }
    ensures short { array_vec_len line.new ≤ array_vec_len line.old + 40 }
{
    put(line, "{\"history\":");
    put_number(line, entries);
    put(line, "}\n");
}

#[tactic(auto, using(std::proofs::Common::append_assoc))]
pub(crate) fn put_core(
    line: &mut ObjectLines,
    table: &Table,
    core: CoreId,
    running: &Option<ProcessId>,
)
    requires { array_vec_len line.old + MOST_OBJECT ≤ OBJECTS_ROOM }
    ensures { line.new.items ≡ line.old.items ++ rows.core_object table.now core running.now }
{
    put(line, "{\"core\":");
    put_number(line, u32::from(core.number()));
    put_process(line, table, ",\"running\":", ",\"name\":", running);
    put(line, "}\n");
}

/// A process's state, priorities and core.
#[tactic(auto, using(std::proofs::Common::append_assoc), unfolding(crate::specs::Rows::state_part))]
fn put_state(line: &mut ObjectLines, state: &State, fields: &Record)
    requires { array_vec_len line.old + 120 ≤ OBJECTS_ROOM }
    ensures text { line.new.items ≡ line.old.items ++ rows.state_part state.now fields.now }
    ensures short { array_vec_len line.new ≤ array_vec_len line.old + 120 }
{
    put(line, ",\"state\":\"");
    put(line, state_word(*state));
    put(line, "\",\"base\":");
    put_number(line, u32::from(fields.base));
    put(line, ",\"current\":");
    put_number(line, u32::from(fields.current_priority()));
    put(line, ",\"core\":");
    put_number(line, u32::from(fields.core.number()));
}

/// The instants at which a process's wait ends, and its deadline passes.
#[tactic(auto, using(std::proofs::Common::append_assoc), unfolding(crate::specs::Rows::instants_part))]
fn put_instants(line: &mut ObjectLines, fields: &Record)
    requires { array_vec_len line.old + 60 ≤ OBJECTS_ROOM }
    ensures text { line.new.items ≡ line.old.items ++ rows.instants_part fields.now }
    ensures short { array_vec_len line.new ≤ array_vec_len line.old + 60 }
{
    put(line, ",\"due\":");
    put_instant(line, &fields.due);
    put(line, ",\"deadline\":");
    put_instant(line, &fields.deadline);
}

fn suspender_string(suspended: &Option<Suspender>) -> &'static str
    ensures value { result.now ≡ or_null rows.suspender_string suspended.now }
    ensures short { length result.now ≤ 7 }
{
    match suspended {
        Some(Suspender::Itself) => "\"self\"",
        Some(Suspender::Other) => "\"other\"",
        None => "null",
    }
}

/// Who suspended a process, its mutexes, and the last message that it received.
#[tactic(auto, using(std::proofs::Common::append_assoc), unfolding(crate::specs::Rows::held_part))]
fn put_held(line: &mut ObjectLines, table: &Table, fields: &Record)
    requires { array_vec_len line.old + 2000 ≤ OBJECTS_ROOM }
    ensures text { line.new.items ≡ line.old.items ++ rows.held_part table.now fields.now }
    ensures short { array_vec_len line.new ≤ array_vec_len line.old + 2000 }
{
    put(line, ",\"suspended\":");
    put(line, suspender_string(&fields.suspended));
    put(line, ",\"owns\":");
    put_array(line, table, fields.owned.in_order().as_slice());
    put(line, ",\"inbox\":");
    put_optional_message(line, table, &fields.inbox);
}

#[tactic(auto, using(std::proofs::Common::append_assoc))]
pub(crate) fn put_process_row(
    line: &mut ObjectLines,
    table: &Table,
    process: ProcessId,
    state: &State,
    fields: &Record,
)
    requires { array_vec_len line.old + MOST_OBJECT ≤ OBJECTS_ROOM }
    ensures { line.new.items
        ≡ line.old.items ++ rows.process_row table.now process state.now fields.now }
{
    let name = process_name(table, process);
    put_thing(line, "{\"process\":", process, ",\"name\":", name);
    put_state(line, state, fields);
    put_optional_wait(line, table, &fields.wait);
    put_instants(line, fields);
    put_held(line, table, fields);
    put(line, "}\n");
}

/// The end of the row of an object.
#[tactic(auto, using(std::proofs::Common::append_assoc), unfolding(crate::specs::Rows::waiting_part))]
fn put_waiting(line: &mut ObjectLines, table: &Table, waiting: &[ProcessId])
    requires few_waiters { length waiting.now ≤ MOST_PROCESSES }
    requires room { array_vec_len line.old + QUEUE_ROOM ≤ OBJECTS_ROOM }
    ensures text { line.new.items ≡ line.old.items ++ rows.waiting_part table.now waiting.now }
    ensures short { array_vec_len line.new ≤ array_vec_len line.old + QUEUE_ROOM }
{
    put(line, ",\"waiting\":");
    put_array(line, table, waiting);
    put(line, "}\n");
}

#[tactic(auto, using(std::proofs::Common::append_assoc))]
pub(crate) fn put_semaphore(
    line: &mut ObjectLines,
    table: &Table,
    semaphore: SemaphoreId,
    value: u16,
    waiting: &[ProcessId],
)
    requires few_waiters { length waiting.now ≤ MOST_PROCESSES }
    requires room { array_vec_len line.old + MOST_OBJECT ≤ OBJECTS_ROOM }
    ensures { line.new.items
        ≡ line.old.items ++ rows.semaphore_row table.now semaphore value waiting.now }
{
    let name = semaphore_name(table, semaphore);
    put_thing(line, "{\"semaphore\":", semaphore, ",\"name\":", name);
    put(line, ",\"value\":");
    put_number(line, u32::from(value));
    put_waiting(line, table, waiting);
}

#[tactic(auto, using(std::proofs::Common::append_assoc))]
pub(crate) fn put_buffer(
    line: &mut ObjectLines,
    table: &Table,
    buffer: BufferId,
    messages: &[Message],
    waiting: &[ProcessId],
)
    requires held { length messages.now ≤ MOST_MESSAGES }
    requires few_waiters { length waiting.now ≤ MOST_PROCESSES }
    requires room { array_vec_len line.old + MOST_OBJECT ≤ OBJECTS_ROOM }
    ensures { line.new.items
        ≡ line.old.items ++ rows.buffer_row table.now buffer messages.now waiting.now }
{
    let name = buffer_name(table, buffer);
    put_thing(line, "{\"buffer\":", buffer, ",\"name\":", name);
    put(line, ",\"messages\":");
    put_array(line, table, messages);
    put_waiting(line, table, waiting);
}

#[tactic(auto, using(std::proofs::Common::append_assoc))]
pub(crate) fn put_blackboard(
    line: &mut ObjectLines,
    table: &Table,
    blackboard: BlackboardId,
    message: &Option<Message>,
    waiting: &[ProcessId],
)
    requires few_waiters { length waiting.now ≤ MOST_PROCESSES }
    requires room { array_vec_len line.old + MOST_OBJECT ≤ OBJECTS_ROOM }
    ensures { line.new.items
        ≡ line.old.items ++ rows.blackboard_row table.now blackboard message.now waiting.now }
{
    let name = blackboard_name(table, blackboard);
    put_thing(line, "{\"blackboard\":", blackboard, ",\"name\":", name);
    put(line, ",\"message\":");
    put_optional_message(line, table, message);
    put_waiting(line, table, waiting);
}

#[tactic(auto, using(std::proofs::Common::append_assoc))]
pub(crate) fn put_event_flag(
    line: &mut ObjectLines,
    table: &Table,
    event_flag: EventId,
    up: bool,
    waiting: &[ProcessId],
)
    requires few_waiters { length waiting.now ≤ MOST_PROCESSES }
    requires room { array_vec_len line.old + MOST_OBJECT ≤ OBJECTS_ROOM }
    ensures { line.new.items
        ≡ line.old.items ++ rows.event_flag_row table.now event_flag up waiting.now }
{
    let name = event_flag_name(table, event_flag);
    put_thing(line, "{\"event\":", event_flag, ",\"name\":", name);
    put(line, ",\"state\":\"");
    put(line, up_word(up));
    put(line, "\"");
    put_waiting(line, table, waiting);
}

#[tactic(auto, using(std::proofs::Common::append_assoc))]
pub(crate) fn put_mutex(
    line: &mut ObjectLines,
    table: &Table,
    mutex: MutexId,
    owner: &Option<ProcessId>,
    depth: u8,
    waiting: &[ProcessId],
)
    requires few_waiters { length waiting.now ≤ MOST_PROCESSES }
    requires room { array_vec_len line.old + MOST_OBJECT ≤ OBJECTS_ROOM }
    ensures { line.new.items
        ≡ line.old.items ++ rows.mutex_row table.now mutex owner.now depth waiting.now }
{
    let name = mutex_name(table, mutex);
    put_thing(line, "{\"mutex\":", mutex, ",\"name\":", name);
    put_process(line, table, ",\"owner\":", ",\"of\":", owner);
    put(line, ",\"depth\":");
    put_number(line, u32::from(depth));
    put_waiting(line, table, waiting);
}
