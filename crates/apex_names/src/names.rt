//! The names that a table gives.
ghost use Rattle.std.specs.Prelude.{◌≡◌, ◌≤◌, length};
ghost use Rattle.apex_types.specs.declared.limits.TheConstants.{MOST_NAME};
ghost use Rattle.apex_machine.specs.text.Texts.{
  blackboard_name,
  buffer_name,
  event_flag_name,
  mutex_name,
  object_name,
  process_name,
  semaphore_name,
};

use apex_configs::Table;
use apex_machine::Queue;
use apex_types::{BlackboardId, BufferId, EventId, MutexId, ProcessId, SemaphoreId};

/// The name of a process; no byte if there is no such process.
pub fn process_name(table: &Table, process: ProcessId) -> &[u8]
    ensures value { result.now ≡ process_name table.now process }
    ensures short { length result.now ≤ MOST_NAME }
{
    if process.place() < table.process_count() {
        table.process(process).name().as_bytes()
    } else {
        &[]
    }
}

/// The name of a semaphore; no byte if there is no such semaphore.
pub fn semaphore_name(table: &Table, semaphore: SemaphoreId) -> &[u8]
    ensures value { result.now ≡ semaphore_name table.now semaphore }
    ensures short { length result.now ≤ MOST_NAME }
{
    if semaphore.place() < table.semaphore_count() {
        table.semaphore(semaphore).name().as_bytes()
    } else {
        &[]
    }
}

/// The name of a buffer; no byte if there is no such buffer.
pub fn buffer_name(table: &Table, buffer: BufferId) -> &[u8]
    ensures value { result.now ≡ buffer_name table.now buffer }
    ensures short { length result.now ≤ MOST_NAME }
{
    if buffer.place() < table.buffer_count() {
        table.buffer(buffer).name().as_bytes()
    } else {
        &[]
    }
}

/// The name of a blackboard; no byte if there is no such blackboard.
pub fn blackboard_name(table: &Table, blackboard: BlackboardId) -> &[u8]
    ensures value { result.now ≡ blackboard_name table.now blackboard }
    ensures short { length result.now ≤ MOST_NAME }
{
    if blackboard.place() < table.blackboard_count() {
        table.blackboard(blackboard).name().as_bytes()
    } else {
        &[]
    }
}

/// The name of an event flag; no byte if there is no such event flag.
pub fn event_flag_name(table: &Table, event: EventId) -> &[u8]
    ensures value { result.now ≡ event_flag_name table.now event }
    ensures short { length result.now ≤ MOST_NAME }
{
    if event.place() < table.event_flag_count() {
        table.event_flag(event).name().as_bytes()
    } else {
        &[]
    }
}

/// The name of a mutex; no byte if there is no such mutex.
pub fn mutex_name(table: &Table, mutex: MutexId) -> &[u8]
    ensures value { result.now ≡ mutex_name table.now mutex }
    ensures short { length result.now ≤ MOST_NAME }
{
    if mutex.place() < table.mutex_count() {
        table.mutex(mutex).name().as_bytes()
    } else {
        &[]
    }
}

/// The name of the object that has this queue; no byte if there is no such object.
pub fn object_name<'a>(table: &'a Table, queue: &Queue) -> &'a [u8]
    ensures value { result.now ≡ object_name table.entry.now queue.now }
    ensures short { length result.now ≤ MOST_NAME }
{
    match queue {
        Queue::Normal => &[],
        Queue::Semaphore(id) => semaphore_name(table, *id),
        Queue::Buffer(id) => buffer_name(table, *id),
        Queue::Blackboard(id) => blackboard_name(table, *id),
        Queue::EventFlag(id) => event_flag_name(table, *id),
        Queue::Mutex(id) => mutex_name(table, *id),
    }
}
