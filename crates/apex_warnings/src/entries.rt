//! What warnings ask of the entries of a table. An entry that the table does not have is as
//! `no_process` and its like have it.
ghost use Rattle.std.specs.Prelude.{◌≡◌};
ghost use Rattle.apex_machine.specs.table.Table.{blackboard_config, buffer_config, mutex_config, process_config, semaphore_config};

use apex_configs::Table;
use apex_machine::Attributes;
use apex_types::{BlackboardId, BufferId, DeadlineType, MutexId, ProcessId, SemaphoreId};

/// The attributes of the process.
pub fn attributes(table: &Table, process: ProcessId) -> Attributes
    ensures { result ≡ (process_config table.now process).attributes }
{
    if process.place() < table.process_count() {
        table.process(process).attributes()
    } else {
        Attributes {
            priority: 0,
            period: None,
            capacity: None,
            deadline: DeadlineType::Soft,
        }
    }
}

/// The initial value of the semaphore.
pub fn initial(table: &Table, semaphore: SemaphoreId) -> u16
    ensures { result ≡ (semaphore_config table.now semaphore).initial }
{
    if semaphore.place() < table.semaphore_count() {
        table.semaphore(semaphore).initial()
    } else {
        0
    }
}

/// The most bytes of a message of the buffer.
pub fn buffer_length(table: &Table, buffer: BufferId) -> u8
    ensures { result ≡ (buffer_config table.now buffer).length }
{
    if buffer.place() < table.buffer_count() {
        table.buffer(buffer).length()
    } else {
        0
    }
}

/// The most bytes of a message of the blackboard.
pub fn blackboard_length(table: &Table, blackboard: BlackboardId) -> u8
    ensures { result ≡ (blackboard_config table.now blackboard).length }
{
    if blackboard.place() < table.blackboard_count() {
        table.blackboard(blackboard).length()
    } else {
        0
    }
}

/// The priority to which the mutex raises its owner.
pub fn ceiling(table: &Table, mutex: MutexId) -> u8
    ensures { result ≡ (mutex_config table.now mutex).ceiling }
{
    if mutex.place() < table.mutex_count() {
        table.mutex(mutex).ceiling()
    } else {
        0
    }
}
