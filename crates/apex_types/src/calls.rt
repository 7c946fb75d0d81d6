//! The services with their arguments, as a step asks for them.
ghost use Rattle.std.specs.Prelude.{◌≡◌};
ghost use Rattle.apex_types.specs.Calls.{known, object_of};

use crate::identifiers::{BlackboardId, BufferId, EventId, MutexId, ProcessId, SemaphoreId};
use crate::spans::Span;

/// The time that a call may wait.
#[derive(Clone, Copy, PartialEq, Eq)]
pub enum Timeout {
    /// Not at all: `0`.
    Poll,
    /// At most n ticks, n from 1 to 4,294,967,295.
    Ticks(u32),
    /// For ever: `infinite`.
    Infinite,
}

/// The mode that SET_PARTITION_MODE asks for.
#[derive(Clone, Copy, PartialEq, Eq)]
pub enum RequestedMode {
    /// The partition ends for good: no process runs in IDLE (this profile).
    Idle,
    /// The init phase ends: in NORMAL the cores run the processes.
    Normal,
}

/// A call of a service of partition management.
#[derive(Clone, Copy, PartialEq, Eq)]
pub enum PartitionCall {
    /// The reply is GONE if the mode becomes IDLE, which stops the caller, too.
    SetPartitionMode(RequestedMode),
    /// The reply is the mode's number, and the number of cores.
    GetPartitionStatus,
}

/// The place of a step in its list, counted from 0.
#[derive(Clone, Copy, PartialEq, Eq)]
pub enum Origin {
    /// In the init list.
    Init(u16),
    /// In the script of a process.
    Script(ProcessId, u8),
}

/// A message, by the step that gives it: the table keeps its bytes, as the step's literal.
#[derive(Clone, Copy, PartialEq, Eq)]
pub struct Message {
    /// The step whose literal has its bytes.
    pub origin: Origin,
    /// The number of its bytes, 0 to 64.
    pub length: u8,
}

impl Default for Message {
    fn default() -> Message {
        Message {
            origin: Origin::Init(0),
            length: 0,
        }
    }
}

/// A thing by the name that a step gives, which need not be an entry's.
#[derive(Clone, Copy, PartialEq, Eq)]
pub enum Named<I> {
    /// The thing of this id: its entry has the name.
    Known(I),
    /// A name that no entry has: the literal of the step of this origin.
    Unknown(Origin),
}

/// A call about one thing of a kind: the three services that each kind has, and those of its own.
#[derive(Clone, Copy, PartialEq, Eq)]
pub enum ObjectCall<I, W> {
    /// CREATE, which is refused in NORMAL.
    Create(Named<I>),
    /// GET_ID: the reply is the id of a created thing, counted from 1.
    GetId(Named<I>),
    /// GET_STATUS: the reply is two numbers, whose meaning the kind gives.
    GetStatus(I),
    /// A service that this kind alone has.
    KindService(I, W),
}

impl<I: Copy> Named<I> {
    /// The thing of this name, if an entry has it.
    pub fn known(&self) -> Option<I>
        ensures { result ≡ known self.now }
    {
        match self {
            Named::Known(id) => Some(*id),
            Named::Unknown(_) => None,
        }
    }
}

impl<I: Copy, W> ObjectCall<I, W> {
    /// The thing that the call names, if it is an entry's.
    pub fn object(&self) -> Option<I>
        ensures { result ≡ object_of self.now }
    {
        match self {
            ObjectCall::Create(named) | ObjectCall::GetId(named) => named.known(),
            ObjectCall::GetStatus(id) | ObjectCall::KindService(id, _) => Some(*id),
        }
    }
}

/// A service for a named process, except for the three that each kind has.
#[derive(Clone, Copy, PartialEq, Eq)]
pub enum ProcessService {
    /// The core is any number from 0 to 255: the service tests it.
    InitializeCoreAffinity(u8),
    /// The priority is any number from 0 to 65,535: the service tests it.
    SetPriority(u16),
    /// At the first step of its script, with the priority that the table gives.
    Start,
    /// A START after a delay.
    DelayedStart(Timeout),
    /// Of a process other than the caller.
    Stop,
    /// Of an aperiodic process other than the caller.
    Suspend,
    /// Of an aperiodic process other than the caller.
    Resume,
}

/// A call of a service of process management for a named process.
pub type ProcessCall = ObjectCall<ProcessId, ProcessService>;

/// A call of a service of process management that a process asks for itself.
#[derive(Clone, Copy, PartialEq, Eq)]
pub enum CallerCall {
    /// The end of a script makes this call, too.
    StopSelf,
    /// Until a RESUME, or at most for this time. [`Timeout::Poll`] changes nothing.
    SuspendSelf(Timeout),
    /// The reply is the caller's id, counted from 1.
    GetMyId,
    /// The reply is the number of the caller's core, counted from 0.
    GetMyProcessorCoreId,
}

/// A call of a service of time management.
#[derive(Clone, Copy, PartialEq, Eq)]
pub enum TimeCall {
    /// [`Timeout::Poll`] makes the caller the newest, and [`Timeout::Infinite`] is refused.
    TimedWait(Timeout),
    /// The caller, a periodic process, waits for its next release.
    PeriodicWait,
    /// The deadline is this span from now.
    Replenish(Span),
    /// The reply is the time in ticks.
    GetTime,
}

/// A service of semaphores, except for the three that each kind has.
#[derive(Clone, Copy, PartialEq, Eq)]
pub enum SemaphoreService {
    /// One is taken from the value; while it is 0, the caller waits, at most for this time.
    Wait(Timeout),
    /// The first waiter goes on, or the value is one more.
    Signal,
}

/// A call of a service of semaphores.
pub type SemaphoreCall = ObjectCall<SemaphoreId, SemaphoreService>;

/// A service of buffers, except for the three that each kind has.
#[derive(Clone, Copy, PartialEq, Eq)]
pub enum BufferService {
    /// The caller waits for room for the message, at most for this time.
    Send(Message, Timeout),
    /// The caller waits for a message, at most for this time.
    Receive(Timeout),
}

/// A call of a service of buffers.
pub type BufferCall = ObjectCall<BufferId, BufferService>;

/// A service of blackboards, except for the three that each kind has.
#[derive(Clone, Copy, PartialEq, Eq)]
pub enum BlackboardService {
    /// The blackboard holds this message from now on, and all its readers have it.
    Display(Message),
    /// The caller waits for a message, at most for this time.
    Read(Timeout),
    /// The blackboard holds no message from now on.
    Clear,
}

/// A call of a service of blackboards.
pub type BlackboardCall = ObjectCall<BlackboardId, BlackboardService>;

/// A service of event flags, except for the three that each kind has.
#[derive(Clone, Copy, PartialEq, Eq)]
pub enum EventFlagService {
    /// The event flag is up, and all its waiters go on.
    Set,
    /// The event flag is down.
    Reset,
    /// The caller waits until the event flag is up, at most for this time.
    Wait(Timeout),
}

/// A call of a service of event flags.
pub type EventFlagCall = ObjectCall<EventId, EventFlagService>;

/// A service of mutexes, except for the three that each kind has.
#[derive(Clone, Copy, PartialEq, Eq)]
pub enum MutexService {
    /// The caller waits until the mutex is free, at most for this time.
    Acquire(Timeout),
    /// The caller owns the mutex one less deep, and no longer if it owned it once.
    Release,
}

/// A call of a service of mutexes.
pub type MutexCall = ObjectCall<MutexId, MutexService>;

/// A service with its literal arguments, as a step of a script or of the init list asks for it.
/// Each variant but the last one has the services of one group.
#[derive(Clone, Copy, PartialEq, Eq)]
pub enum Call {
    Partition(PartitionCall),
    Process(ProcessCall),
    Caller(CallerCall),
    Time(TimeCall),
    Semaphore(SemaphoreCall),
    Buffer(BufferCall),
    Blackboard(BlackboardCall),
    EventFlag(EventFlagCall),
    Mutex(MutexCall),
    /// Work of n units, n from 1 to 1,048,576. One turn begins it, and the core's next one ends it.
    Work(Span),
}
