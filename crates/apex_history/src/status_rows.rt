//! A line of the status listing, by its values.

use apex_machine::Record;
use apex_types::{
    BlackboardId, BufferId, CoreId, EventId, Message, Mode, MutexId, ProcessId, SemaphoreId, State,
};

/// One line of the status listing (this profile): each core has one, each created process and each
/// created object. Waiters are in the order of their queue, `MOST_PROCESSES` at most.
#[derive(Clone, Copy, Drop)]
pub enum StatusRow<'a> {
    /// The time in ticks.
    Time(u64),
    /// The operating mode.
    Mode(Mode),
    /// The number of entries that the history has.
    History(u32),
    Core {
        core: CoreId,
        /// The process that the core runs.
        running: Option<ProcessId>,
    },
    Process {
        process: ProcessId,
        state: State,
        record: Record,
    },
    Semaphore {
        semaphore: SemaphoreId,
        value: u16,
        waiting: &'a [ProcessId],
    },
    Buffer {
        buffer: BufferId,
        /// From the first on, `MOST_MESSAGES` at most.
        messages: &'a [Message],
        waiting: &'a [ProcessId],
    },
    Blackboard {
        blackboard: BlackboardId,
        /// The message that it holds, if it holds one.
        message: Option<Message>,
        waiting: &'a [ProcessId],
    },
    EventFlag {
        event_flag: EventId,
        up: bool,
        waiting: &'a [ProcessId],
    },
    Mutex {
        mutex: MutexId,
        /// The process that owns it. None if it is free.
        owner: Option<ProcessId>,
        /// The depth at which it is owned. 0 if it is free.
        depth: u8,
        waiting: &'a [ProcessId],
    },
}
