//! What a step does, as far as a warning asks for it.
ghost use Rattle.std.specs.Prelude.{◌≡◌};
ghost use Rattle.std.specs.List.{list_any};
ghost use Rattle.apex_warnings.specs.Acts.{binds_away, binds_to, displays, does, is_fit_delay, lowers, moves_deadline, queue_used, sends, sets, signals, starts, is_taken, used, waits_for_period};

use crate::steps::StepCall;
use apex_machine::Queue;
use apex_types::{
    BlackboardId, BlackboardService, BufferId, BufferService, Call, CoreId, EventFlagService,
    EventId, Message, ObjectCall, ProcessId, ProcessService, SemaphoreId, SemaphoreService, Span,
    TimeCall, Timeout,
};

/// What a step does, as far as a warning asks for it.
#[derive(Clone, Copy)]
pub enum Act {
    /// It starts the process of this period, at once or after a delay that the period allows.
    Start(ProcessId, Option<Span>),
    /// It sets the priority of the process to this one or to a lower one, which is at least 1.
    Lower(ProcessId, u8),
    /// It binds a process to this core.
    BindTo(CoreId),
    /// It binds the process to a core of this many, other than core 0.
    BindAway(ProcessId, u8),
    /// It names the object of this queue, and does not create it.
    Use(Queue),
    /// It signals the semaphore.
    Signal(SemaphoreId),
    /// It sends the buffer a message of 1 to this many bytes.
    Send(BufferId, u8),
    /// It displays a message of 1 to this many bytes on the blackboard.
    Display(BlackboardId, u8),
    /// It sets the event flag.
    Set(EventId),
    /// It is PERIODIC_WAIT.
    WaitForPeriod,
    /// It is REPLENISH, which moves the deadline of a job.
    MoveDeadline,
}

impl Act {
    /// The call is such an act.
    pub fn is_done_by(&self, call: Call) -> bool
        ensures { result ≡ does self.now call }
    {
        match self {
            Act::Start(process, period) => starts(*process, *period, call),
            Act::Lower(process, priority) => lowers(*process, *priority, call),
            Act::BindTo(core) => binds_to(*core, call),
            Act::BindAway(process, cores) => binds_away(*process, *cores, call),
            Act::Use(queue) => queue_used(call) == Some(*queue),
            Act::Signal(semaphore) => signals(*semaphore, call),
            Act::Send(buffer, length) => sends(*buffer, *length, call),
            Act::Display(blackboard, length) => displays(*blackboard, *length, call),
            Act::Set(event_flag) => sets(*event_flag, call),
            Act::WaitForPeriod => waits_for_period(call),
            Act::MoveDeadline => moves_deadline(call),
        }
    }

    /// One of the calls is such an act.
    pub fn is_among(&self, calls: &[StepCall]) -> bool
        ensures { result ≡ list_any (does self.now) calls.now }
    {
        calls.iter().any(|call| self.is_done_by(call.call()))
    }
}

/// A buffer or a blackboard whose messages have at most `length` bytes takes the message.
pub fn is_taken(message: Message, length: u8) -> bool
    ensures { result ≡ is_taken length message }
{
    message.length >= 1 && message.length <= length
}

/// A process of this period may start after the delay: it is finite, and below the period.
fn is_fit_delay(period: Option<Span>, delay: Timeout) -> bool
    ensures { result ≡ is_fit_delay period delay }
{
    let ticks = match delay {
        Timeout::Infinite => return false,
        Timeout::Poll => 0,
        Timeout::Ticks(ticks) => ticks,
    };
    match period {
        Some(period) => ticks < period.ticks(),
        None => true,
    }
}

fn starts(process: ProcessId, period: Option<Span>, call: Call) -> bool
    ensures { result ≡ starts process period call }
{
    match call {
        Call::Process(ObjectCall::KindService(id, ProcessService::Start)) => process == id,
        Call::Process(ObjectCall::KindService(id, ProcessService::DelayedStart(delay))) => {
            process == id && is_fit_delay(period, delay)
        }
        _ => false,
    }
}

fn lowers(process: ProcessId, priority: u8, call: Call) -> bool
    ensures { result ≡ lowers process priority call }
{
    match call {
        Call::Process(ObjectCall::KindService(id, ProcessService::SetPriority(base))) => {
            process == id && base >= 1 && base <= u16::from(priority)
        }
        _ => false,
    }
}

fn binds_to(core: CoreId, call: Call) -> bool
    ensures { result ≡ binds_to core call }
{
    match call {
        Call::Process(ObjectCall::KindService(_, ProcessService::InitializeCoreAffinity(c))) => {
            core.number() == c
        }
        _ => false,
    }
}

fn binds_away(process: ProcessId, cores: u8, call: Call) -> bool
    ensures { result ≡ binds_away process cores call }
{
    match call {
        Call::Process(ObjectCall::KindService(id, ProcessService::InitializeCoreAffinity(c))) => {
            process == id && c >= 1 && c < cores
        }
        _ => false,
    }
}

/// The thing that the call names, but not one that it creates.
fn used<I: Copy, W: Copy>(call: ObjectCall<I, W>) -> Option<I>
    ensures { result ≡ used call }
{
    match call {
        ObjectCall::Create(_) => None,
        ObjectCall::GetId(named) => named.known(),
        ObjectCall::GetStatus(id) | ObjectCall::KindService(id, _) => Some(id),
    }
}

/// The queue of the object that the call names, but not one that it creates.
fn queue_used(call: Call) -> Option<Queue>
    ensures { result ≡ queue_used call }
{
    match call {
        Call::Semaphore(call) => used(call).map(Queue::Semaphore),
        Call::Buffer(call) => used(call).map(Queue::Buffer),
        Call::Blackboard(call) => used(call).map(Queue::Blackboard),
        Call::EventFlag(call) => used(call).map(Queue::EventFlag),
        Call::Mutex(call) => used(call).map(Queue::Mutex),
        _ => None,
    }
}

fn signals(semaphore: SemaphoreId, call: Call) -> bool
    ensures { result ≡ signals semaphore call }
{
    match call {
        Call::Semaphore(ObjectCall::KindService(id, SemaphoreService::Signal)) => semaphore == id,
        _ => false,
    }
}

fn sends(buffer: BufferId, length: u8, call: Call) -> bool
    ensures { result ≡ sends buffer length call }
{
    match call {
        Call::Buffer(ObjectCall::KindService(id, BufferService::Send(message, _))) => {
            buffer == id && is_taken(message, length)
        }
        _ => false,
    }
}

fn displays(blackboard: BlackboardId, length: u8, call: Call) -> bool
    ensures { result ≡ displays blackboard length call }
{
    match call {
        Call::Blackboard(ObjectCall::KindService(id, BlackboardService::Display(message))) => {
            blackboard == id && is_taken(message, length)
        }
        _ => false,
    }
}

fn sets(event_flag: EventId, call: Call) -> bool
    ensures { result ≡ sets event_flag call }
{
    match call {
        Call::EventFlag(ObjectCall::KindService(id, EventFlagService::Set)) => event_flag == id,
        _ => false,
    }
}

fn waits_for_period(call: Call) -> bool
    ensures { result ≡ waits_for_period call }
{
    match call {
        Call::Time(TimeCall::PeriodicWait) => true,
        _ => false,
    }
}

fn moves_deadline(call: Call) -> bool
    ensures { result ≡ moves_deadline call }
{
    match call {
        Call::Time(TimeCall::Replenish(_)) => true,
        _ => false,
    }
}
