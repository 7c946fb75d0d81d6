//! The record of a process, with its waits.
ghost use Rattle.std.specs.Prelude.{◌≡◌};
ghost use Rattle.apex_machine.specs.processes.Running.{current_priority, is_eligible};
ghost use Rattle.apex_machine.specs.processes.Stamps.{is_by_itself};
ghost use Rattle.apex_machine.specs.processes.Owners.{owns, owns_some};
ghost use Rattle.apex_machine.specs.processes.Queues.{queue_of};
ghost use Rattle.apex_machine.specs.processes.Waiters.{queue_in};

use crate::holdings::Holdings;
use apex_types::{
    BlackboardId, BufferId, CoreId, DeadlineType, EventId, Message, Mode, MutexId, SemaphoreId,
    Span,
};

/// The wait of a process, by the thing for which it waits.
#[derive(Clone, Copy, PartialEq, Eq)]
pub enum Wait {
    /// The partition's entry into NORMAL, at which its start begins with this delay in ticks.
    Normal(u32),
    /// The instant of its start, after a DELAYED_START.
    Start,
    /// An instant, after a TIMED_WAIT.
    Time,
    /// Its next release, after a PERIODIC_WAIT.
    Period,
    /// A signal of the semaphore.
    Semaphore(SemaphoreId),
    /// A message of the buffer.
    Receive(BufferId),
    /// Room for this message in the buffer.
    Send(BufferId, Message),
    /// A message on the blackboard.
    Blackboard(BlackboardId),
    /// That the event flag is up.
    EventFlag(EventId),
    /// That the mutex is free.
    Mutex(MutexId),
}

/// A queue, in which processes wait one behind the other.
#[derive(Clone, Copy, PartialEq, Eq)]
pub enum Queue {
    /// The processes that wait for the entry into NORMAL.
    Normal,
    /// The processes that wait for a signal of the semaphore.
    Semaphore(SemaphoreId),
    /// Receivers, or senders.
    Buffer(BufferId),
    /// Readers.
    Blackboard(BlackboardId),
    /// The processes that wait until the event flag is up.
    EventFlag(EventId),
    /// The processes that wait until the mutex is free.
    Mutex(MutexId),
}

impl Wait {
    /// The queue in which a process with this wait is. None for a wait for an instant.
    pub fn queue(&self) -> Option<Queue>
        ensures { result ≡ queue_of self.now }
    {
        match self {
            Wait::Normal(_) => Some(Queue::Normal),
            Wait::Semaphore(semaphore) => Some(Queue::Semaphore(*semaphore)),
            Wait::Receive(buffer) | Wait::Send(buffer, _) => Some(Queue::Buffer(*buffer)),
            Wait::Blackboard(blackboard) => Some(Queue::Blackboard(*blackboard)),
            Wait::EventFlag(event_flag) => Some(Queue::EventFlag(*event_flag)),
            Wait::Mutex(mutex) => Some(Queue::Mutex(*mutex)),
            Wait::Start | Wait::Time | Wait::Period => None,
        }
    }
}

/// The suspender of a process.
#[derive(Clone, Copy, PartialEq, Eq)]
pub enum Suspender {
    /// By SUSPEND_SELF: a RESUME ends the suspension, or the time that the call gave.
    Itself,
    /// By SUSPEND, which another process called: a RESUME ends the suspension.
    Other,
}

/// The attributes that the table gives a process for good.
#[derive(Clone, Copy)]
pub struct Attributes {
    /// The base priority to which a START goes back.
    pub priority: u8,
    /// The time from one release to the next. None for an aperiodic process.
    pub period: Option<Span>,
    /// The time from a release to the deadline. None if it is infinite.
    pub capacity: Option<Span>,
    /// What a missed deadline does to the process: a type; [`Record::deadline`] is an instant.
    pub deadline: DeadlineType,
}

/// The record that the partition keeps of a process.
#[derive(Clone, Copy)]
pub struct Record {
    /// Those of the table, which never change.
    pub attributes: Attributes,
    /// The core to which it is bound.
    pub core: CoreId,
    /// The base priority, 1 to 239; a greater one is more urgent.
    pub base: u8,
    /// It was started, and is not stopped since.
    pub started: bool,
    /// Who suspended it, if it is suspended.
    pub suspended: Option<Suspender>,
    /// The thing for which it waits, if it waits.
    pub wait: Option<Wait>,
    /// Its stamp: the smaller, the longer it is in its queue.
    pub since: i64,
    /// The instant in ticks at which its wait, or its suspension of itself, ends by itself, if it
    /// does.
    pub due: Option<u64>,
    /// The instant in ticks at which its deadline passes, if one runs.
    pub deadline: Option<u64>,
    /// The instant in ticks of its last release. 0 before the first one.
    pub release: u64,
    /// The mutexes that it owns.
    pub owned: Holdings,
    /// The place of its next step in its script, counted from 0.
    pub step: u8,
    /// The last message that it received.
    pub inbox: Option<Message>,
}

impl Record {
    /// The mode is NORMAL, and the process is started, not suspended, and waits for nothing.
    pub fn is_eligible(&self, mode: Mode) -> bool
        ensures { result ≡ is_eligible mode self.now }
    {
        mode.is_normal() && self.started && self.suspended.is_none() && self.wait.is_none()
    }

    /// The current priority: the greatest of the base priority and the ceilings of the mutexes that
    /// the process owns. A greater one is more urgent.
    pub fn current_priority(&self) -> u8
        ensures { result ≡ current_priority self.now }
    {
        self.owned.raised(self.base)
    }

    /// The process owns this mutex.
    pub fn owns(&self, mutex: MutexId) -> bool
        ensures { result ≡ owns mutex self.now }
    {
        self.owned.holds(mutex)
    }

    /// The process owns a mutex.
    pub fn owns_some(&self) -> bool
        ensures { result ≡ owns_some self.now }
    {
        !self.owned.is_empty()
    }

    /// The queue in which the process waits, if it waits in one.
    pub fn queue(&self) -> Option<Queue>
        ensures { result ≡ queue_in self.now }
    {
        self.wait.as_ref()?.queue()
    }

    /// The process is suspended, and suspended itself.
    pub fn is_suspended_by_itself(&self) -> bool
        ensures { result ≡ is_by_itself self.now.suspended }
    {
        match self.suspended {
            Some(suspender) => suspender == Suspender::Itself,
            None => false,
        }
    }
}
