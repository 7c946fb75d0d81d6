//! The lines of the status listing, each from its parts.
ghost use Rattle.std.specs.Prelude.{◌≡◌, ◌+◌, ◌<◌, ◌≤◌, ◌++◌, length};
ghost use Rattle.apex_history.specs.declared.puts.TheConstants.{LINES_ROOM};
ghost use Rattle.arrayvec.specs.ArrayVec.{array_vec_len};
ghost use Rattle.apex_types.specs.declared.limits.TheConstants.{MOST_LINE, MOST_MESSAGES, MOST_PROCESSES};
ghost use Rattle.apex_machine.specs.text.Status as status;
ghost use Rattle.apex_history.specs.StatusRows.{row_text, IsPrintableRow};

use super::status::{
    put_head, put_instant, put_messages, put_optional_id, put_optional_message, put_optional_wait,
    put_owned, put_waiting, suspended_word,
};
use super::{Lines, put_long_number, put_number};
use crate::status_rows::StatusRow;
use crate::texts::{mode_word, state_word, up_word};
use apex_configs::Table;
use apex_machine::Record;
use apex_texts::put;
use apex_types::{
    BlackboardId, BufferId, CoreId, EventId, Message, Mode, MutexId, ProcessId, SemaphoreId, State,
};

#[tactic(auto, using(std::proofs::Common::append_assoc))]
fn put_time(line: &mut Lines, now: u64)
    requires { array_vec_len line.old + 26 ≤ LINES_ROOM }
    ensures text { line.new.items ≡ line.old.items ++ status.time_line now }
{
    put(line, "time ");
    put_long_number(line, now);
    put(line, "\n");
}

#[tactic(auto, using(std::proofs::Common::append_assoc))]
fn put_mode(line: &mut Lines, mode: &Mode)
    requires { array_vec_len line.old + 26 ≤ LINES_ROOM }
    ensures text { line.new.items ≡ line.old.items ++ status.mode_line mode.now }
{
    put(line, "mode ");
    put(line, mode_word(*mode));
    put(line, "\n");
}

#[tactic(auto, using(std::proofs::Common::append_assoc))]
fn put_history(line: &mut Lines, entries: u32)
    requires { array_vec_len line.old + 26 ≤ LINES_ROOM }
    ensures text { line.new.items ≡ line.old.items ++ status.history_line entries }
{
    put(line, "history ");
    put_number(line, entries);
    put(line, "\n");
}

#[tactic(auto, using(std::proofs::Common::append_assoc))]
fn put_core(line: &mut Lines, core: CoreId, running: &Option<ProcessId>)
    requires { array_vec_len line.old + 40 ≤ LINES_ROOM }
    ensures text { line.new.items ≡ line.old.items ++ status.core_line core running.now }
{
    put(line, "core ");
    put_number(line, u32::from(core.number()));
    put(line, " running ");
    put_optional_id(line, running);
    put(line, "\n");
}

/// A process's state, priorities, core and wait.
#[tactic(auto, using(std::proofs::Common::append_assoc))]
fn put_state(line: &mut Lines, state: &State, fields: &Record)
    requires { array_vec_len line.old + 100 ≤ LINES_ROOM }
    ensures text { line.new.items ≡ line.old.items ++ status.state_part state.now fields.now }
    ensures short { array_vec_len line.new ≤ array_vec_len line.old + 100 }
{
    put(line, " state ");
    put(line, state_word(*state));
    put(line, " base ");
    put_number(line, u32::from(fields.base));
    put(line, " current ");
    put_number(line, u32::from(fields.current_priority()));
    put(line, " core ");
    put_number(line, u32::from(fields.core.number()));
    put(line, " wait ");
    put_optional_wait(line, &fields.wait);
}

/// The instants at which a process's wait ends, and its deadline passes.
#[tactic(auto, using(std::proofs::Common::append_assoc))]
fn put_instants(line: &mut Lines, fields: &Record)
    requires { array_vec_len line.old + 60 ≤ LINES_ROOM }
    ensures text { line.new.items ≡ line.old.items ++ status.instants_part fields.now }
    ensures short { array_vec_len line.new ≤ array_vec_len line.old + 60 }
{
    put(line, " due ");
    put_instant(line, &fields.due);
    put(line, " deadline ");
    put_instant(line, &fields.deadline);
}

/// Who suspended a process, its mutexes, and the last message that it received.
#[tactic(auto, using(std::proofs::Common::append_assoc))]
fn put_held(line: &mut Lines, table: &Table, fields: &Record)
    requires { array_vec_len line.old + 224 ≤ LINES_ROOM }
    ensures text { line.new.items ≡ line.old.items ++ status.held_part table.now fields.now }
    ensures short { array_vec_len line.new ≤ array_vec_len line.old + 224 }
{
    put(line, " suspended ");
    put(line, suspended_word(&fields.suspended));
    put(line, " owns ");
    put_owned(line, &fields.owned);
    put(line, " inbox ");
    put_optional_message(line, table, &fields.inbox);
}

#[tactic(auto, using(std::proofs::Common::append_assoc))]
fn put_process(line: &mut Lines, table: &Table, process: ProcessId, state: &State, fields: &Record)
    requires known { process < length table.now.processes }
    requires room { array_vec_len line.old + MOST_LINE ≤ LINES_ROOM }
    ensures text { line.new.items ≡ line.old.items
        ++ status.process_line table.now process state.now fields.now }
{
    put_head(line, "process", process, table.process(process).name());
    put_state(line, state, fields);
    put_instants(line, fields);
    put_held(line, table, fields);
    put(line, "\n");
}

#[tactic(auto, using(std::proofs::Common::append_assoc))]
fn put_semaphore(
    line: &mut Lines,
    table: &Table,
    semaphore: SemaphoreId,
    value: u16,
    waiting: &[ProcessId],
)
    requires known { semaphore < length table.now.semaphores }
    requires few_waiters { length waiting.now ≤ MOST_PROCESSES }
    requires room { array_vec_len line.old + MOST_LINE ≤ LINES_ROOM }
    ensures text { line.new.items ≡ line.old.items
        ++ status.semaphore_line table.now semaphore value waiting.now }
{
    put_head(
        line,
        "semaphore",
        semaphore,
        table.semaphore(semaphore).name(),
    );
    put(line, " value ");
    put_number(line, u32::from(value));
    put_waiting(line, waiting);
}

#[tactic(auto, using(std::proofs::Common::append_assoc))]
fn put_buffer(
    line: &mut Lines,
    table: &Table,
    buffer: BufferId,
    messages: &[Message],
    waiting: &[ProcessId],
)
    requires known { buffer < length table.now.buffers }
    requires held { length messages.now ≤ MOST_MESSAGES }
    requires few_waiters { length waiting.now ≤ MOST_PROCESSES }
    requires room { array_vec_len line.old + MOST_LINE ≤ LINES_ROOM }
    ensures text { line.new.items ≡ line.old.items
        ++ status.buffer_line table.now buffer messages.now waiting.now }
{
    put_head(line, "buffer", buffer, table.buffer(buffer).name());
    put(line, " messages ");
    put_messages(line, table, messages);
    put_waiting(line, waiting);
}

#[tactic(auto, using(std::proofs::Common::append_assoc))]
fn put_blackboard(
    line: &mut Lines,
    table: &Table,
    blackboard: BlackboardId,
    message: &Option<Message>,
    waiting: &[ProcessId],
)
    requires known { blackboard < length table.now.blackboards }
    requires few_waiters { length waiting.now ≤ MOST_PROCESSES }
    requires room { array_vec_len line.old + MOST_LINE ≤ LINES_ROOM }
    ensures text { line.new.items ≡ line.old.items
        ++ status.blackboard_line table.now blackboard message.now waiting.now }
{
    put_head(
        line,
        "blackboard",
        blackboard,
        table.blackboard(blackboard).name(),
    );
    put(line, " message ");
    put_optional_message(line, table, message);
    put_waiting(line, waiting);
}

#[tactic(auto, using(std::proofs::Common::append_assoc))]
fn put_event_flag(
    line: &mut Lines,
    table: &Table,
    event_flag: EventId,
    up: bool,
    waiting: &[ProcessId],
)
    requires known { event_flag < length table.now.event_flags }
    requires few_waiters { length waiting.now ≤ MOST_PROCESSES }
    requires room { array_vec_len line.old + MOST_LINE ≤ LINES_ROOM }
    ensures text { line.new.items ≡ line.old.items
        ++ status.event_flag_line table.now event_flag up waiting.now }
{
    put_head(
        line,
        "event",
        event_flag,
        table.event_flag(event_flag).name(),
    );
    put(line, " state ");
    put(line, up_word(up));
    put_waiting(line, waiting);
}

/// The owner of a mutex, and its depth.
#[tactic(auto, using(std::proofs::Common::append_assoc))]
fn put_owner(line: &mut Lines, owner: &Option<ProcessId>, depth: u8)
    requires { array_vec_len line.old + 40 ≤ LINES_ROOM }
    ensures text { line.new.items ≡ line.old.items ++ status.owner_text owner.now depth }
    ensures short { array_vec_len line.new ≤ array_vec_len line.old + 40 }
{
    put(line, " owner ");
    put_optional_id(line, owner);
    put(line, " depth ");
    put_number(line, u32::from(depth));
}

#[tactic(auto, using(std::proofs::Common::append_assoc))]
fn put_mutex(
    line: &mut Lines,
    table: &Table,
    mutex: MutexId,
    owner: &Option<ProcessId>,
    depth: u8,
    waiting: &[ProcessId],
)
    requires known { mutex < length table.now.mutexes }
    requires few_waiters { length waiting.now ≤ MOST_PROCESSES }
    requires room { array_vec_len line.old + MOST_LINE ≤ LINES_ROOM }
    ensures text { line.new.items ≡ line.old.items
        ++ status.mutex_line table.now mutex owner.now depth waiting.now }
{
    put_head(line, "mutex", mutex, table.mutex(mutex).name());
    put_owner(line, owner, depth);
    put_waiting(line, waiting);
}

/// Puts the line of the row behind the others.
pub(crate) fn put_row(line: &mut Lines, table: &Table, row: &StatusRow<'_>)
    requires printable { IsPrintableRow table.now row.now }
    requires room { array_vec_len line.old + MOST_LINE ≤ LINES_ROOM }
    ensures { line.new.items ≡ line.old.items ++ row_text table.now row.now }
{
    match row {
        StatusRow::Time(now) => put_time(line, *now),
        StatusRow::Mode(mode) => put_mode(line, mode),
        StatusRow::History(entries) => put_history(line, *entries),
        StatusRow::Core { core, running } => put_core(line, *core, running),
        StatusRow::Process {
            process,
            state,
            record,
        } => put_process(line, table, *process, state, record),
        StatusRow::Semaphore {
            semaphore,
            value,
            waiting,
        } => put_semaphore(line, table, *semaphore, *value, waiting),
        StatusRow::Buffer {
            buffer,
            messages,
            waiting,
        } => put_buffer(line, table, *buffer, messages, waiting),
        StatusRow::Blackboard {
            blackboard,
            message,
            waiting,
        } => put_blackboard(line, table, *blackboard, message, waiting),
        StatusRow::EventFlag {
            event_flag,
            up,
            waiting,
        } => put_event_flag(line, table, *event_flag, *up, waiting),
        StatusRow::Mutex {
            mutex,
            owner,
            depth,
            waiting,
        } => put_mutex(line, table, *mutex, owner, *depth, waiting),
    }
}
