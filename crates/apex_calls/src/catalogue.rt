//! The services of a partition: a row for each, with its word, the shapes of the words behind it,
//! and whether an init list may have it.
ghost use Rattle.std.specs.Prelude.{◌≡◌, ◌≤◌, length, map, IfSome, option_map};
ghost use Rattle.apex_calls.specs.Catalogue.{IsRow, row_in, row_of, rows, view};
ghost use Rattle.apex_calls.specs.declared.catalogue.TheConstants.{MOST_SHAPES, MOST_WORD};

use Kind::*;
use Shape::*;
use apex_types::{MOST_SPAN, MOST_WORK};

/// The most bytes that the word of a service has.
pub const MOST_WORD: usize = 32;

/// The most words that a step has behind the word of its service.
pub const MOST_SHAPES: usize = 3;

/// A kind of things that steps name: the entries of one section of the table.
#[derive(Clone, Copy)]
pub enum Kind {
    Process,
    Semaphore,
    Buffer,
    Blackboard,
    EventFlag,
    Mutex,
}

/// The shape of a word of a step.
#[derive(Clone, Copy)]
pub enum Shape {
    /// The name of an entry of this kind.
    Entry(Kind),
    /// A name for a thing of this kind, which need not be an entry's.
    Named(Kind),
    /// A number from the first one to the second one.
    Number(u32, u32),
    /// `0`, a number of ticks up to 4,294,967,295, or `infinite`.
    Timeout,
    /// `-`, or two digits for each of at most 64 bytes.
    Message,
    /// The mode that SET_PARTITION_MODE asks for.
    Mode,
}

/// A service, as a step asks for it. [`CATALOGUE`] has a row for each, in this order.
#[derive(Clone, Copy)]
pub enum Service {
    SetPartitionMode,
    GetPartitionStatus,
    CreateProcess,
    GetProcessId,
    GetProcessStatus,
    InitializeProcessCoreAffinity,
    SetPriority,
    Start,
    DelayedStart,
    Stop,
    Suspend,
    Resume,
    StopSelf,
    SuspendSelf,
    GetMyId,
    GetMyProcessorCoreId,
    TimedWait,
    PeriodicWait,
    Replenish,
    GetTime,
    Work,
    CreateSemaphore,
    GetSemaphoreId,
    GetSemaphoreStatus,
    WaitSemaphore,
    SignalSemaphore,
    CreateBuffer,
    GetBufferId,
    GetBufferStatus,
    SendBuffer,
    ReceiveBuffer,
    CreateBlackboard,
    GetBlackboardId,
    GetBlackboardStatus,
    DisplayBlackboard,
    ReadBlackboard,
    ClearBlackboard,
    CreateEvent,
    GetEventId,
    GetEventStatus,
    SetEvent,
    ResetEvent,
    WaitEvent,
    CreateMutex,
    GetMutexId,
    GetMutexStatus,
    AcquireMutex,
    ReleaseMutex,
}

/// A service's row.
#[derive(Clone, Copy)]
pub struct Row {
    /// The service that the row describes.
    pub service: Service,
    /// The service's word in a step.
    pub word: &'static str,
    /// The shapes of the words behind the service's word.
    pub shapes: &'static [Shape],
    /// Whether an init list may have the service.
    pub may_init: bool,
}

macro_rules! rows {
    ($($service:ident $word:literal [$($shape:expr),*] $may_init:literal;)*) => {
        [$(Row {
            service: Service::$service,
            word: $word,
            shapes: &[$($shape),*],
            may_init: $may_init,
        }),*]
    };
}

/// The services of ARINC 653 Part 1, those of mutexes and `work` (this profile), in the order of
/// [`Service`].
pub static CATALOGUE: [Row; 48] = rows! {
    SetPartitionMode "SET_PARTITION_MODE" [Mode] true;
    GetPartitionStatus "GET_PARTITION_STATUS" [] true;
    CreateProcess "CREATE_PROCESS" [Named(Process)] true;
    GetProcessId "GET_PROCESS_ID" [Named(Process)] true;
    GetProcessStatus "GET_PROCESS_STATUS" [Entry(Process)] true;
    InitializeProcessCoreAffinity "INITIALIZE_PROCESS_CORE_AFFINITY" [Entry(Process), Number(0, 255)] true;
    SetPriority "SET_PRIORITY" [Entry(Process), Number(0, 65_535)] true;
    Start "START" [Entry(Process)] true;
    DelayedStart "DELAYED_START" [Entry(Process), Timeout] true;
    Stop "STOP" [Entry(Process)] true;
    Suspend "SUSPEND" [Entry(Process)] false;
    Resume "RESUME" [Entry(Process)] false;
    StopSelf "STOP_SELF" [] false;
    SuspendSelf "SUSPEND_SELF" [Timeout] false;
    GetMyId "GET_MY_ID" [] false;
    GetMyProcessorCoreId "GET_MY_PROCESSOR_CORE_ID" [] false;
    TimedWait "TIMED_WAIT" [Timeout] false;
    PeriodicWait "PERIODIC_WAIT" [] false;
    Replenish "REPLENISH" [Number(1, MOST_SPAN)] false;
    GetTime "GET_TIME" [] true;
    Work "work" [Number(1, MOST_WORK)] false;
    CreateSemaphore "CREATE_SEMAPHORE" [Named(Semaphore)] true;
    GetSemaphoreId "GET_SEMAPHORE_ID" [Named(Semaphore)] true;
    GetSemaphoreStatus "GET_SEMAPHORE_STATUS" [Entry(Semaphore)] true;
    WaitSemaphore "WAIT_SEMAPHORE" [Entry(Semaphore), Timeout] false;
    SignalSemaphore "SIGNAL_SEMAPHORE" [Entry(Semaphore)] true;
    CreateBuffer "CREATE_BUFFER" [Named(Buffer)] true;
    GetBufferId "GET_BUFFER_ID" [Named(Buffer)] true;
    GetBufferStatus "GET_BUFFER_STATUS" [Entry(Buffer)] true;
    SendBuffer "SEND_BUFFER" [Entry(Buffer), Message, Timeout] false;
    ReceiveBuffer "RECEIVE_BUFFER" [Entry(Buffer), Timeout] false;
    CreateBlackboard "CREATE_BLACKBOARD" [Named(Blackboard)] true;
    GetBlackboardId "GET_BLACKBOARD_ID" [Named(Blackboard)] true;
    GetBlackboardStatus "GET_BLACKBOARD_STATUS" [Entry(Blackboard)] true;
    DisplayBlackboard "DISPLAY_BLACKBOARD" [Entry(Blackboard), Message] true;
    ReadBlackboard "READ_BLACKBOARD" [Entry(Blackboard), Timeout] false;
    ClearBlackboard "CLEAR_BLACKBOARD" [Entry(Blackboard)] true;
    CreateEvent "CREATE_EVENT" [Named(EventFlag)] true;
    GetEventId "GET_EVENT_ID" [Named(EventFlag)] true;
    GetEventStatus "GET_EVENT_STATUS" [Entry(EventFlag)] true;
    SetEvent "SET_EVENT" [Entry(EventFlag)] true;
    ResetEvent "RESET_EVENT" [Entry(EventFlag)] true;
    WaitEvent "WAIT_EVENT" [Entry(EventFlag), Timeout] false;
    CreateMutex "CREATE_MUTEX" [Named(Mutex)] true;
    GetMutexId "GET_MUTEX_ID" [Named(Mutex)] true;
    GetMutexStatus "GET_MUTEX_STATUS" [Entry(Mutex)] true;
    AcquireMutex "ACQUIRE_MUTEX" [Entry(Mutex), Timeout] false;
    ReleaseMutex "RELEASE_MUTEX" [Entry(Mutex)] false;
};

fn row_in(rows: &'static [Row], word: &str) -> Option<&'static Row>
    ensures { option_map (λ row. view row.now) result ≡ row_in (map view rows.now) word.now }
{
    for row in rows {
        if row.word == word {
            return Some(row);
        }
    }
    None
}

/// The row of the service that this word asks for.
pub fn row_of_word(word: &str) -> Option<&'static Row>
    ensures row { option_map (λ row. view row.now) result ≡ row_in rows word.now }
    ensures own { IfSome result (λ row. IsRow (view row.now)) }
{
    row_in(&CATALOGUE, word)
}

/// The row of this service.
pub fn row_of(service: Service) -> &'static Row
    ensures row { view result.now ≡ row_of service }
    ensures word { length result.now.word.now ≤ MOST_WORD }
    ensures shapes { length result.now.shapes.now ≤ MOST_SHAPES }
{
    &CATALOGUE[service as usize]
}
