//! The values of one avionics partition in the terms of ARINC 653 Part 1, APEX: identifiers, calls,
//! the entries of a history, and the limits of this profile.
#![tactic(auto)]

mod calls;
mod entries;
mod identifiers;
mod limits;
mod modes;
mod names;
mod numbers;
mod spans;

pub use calls::{
    BlackboardCall, BlackboardService, BufferCall, BufferService, Call, CallerCall, EventFlagCall,
    EventFlagService, Message, MutexCall, MutexService, Named, ObjectCall, Origin, PartitionCall,
    ProcessCall, ProcessService, RequestedMode, SemaphoreCall, SemaphoreService, TimeCall, Timeout,
};
pub use entries::{Caller, Entry, Event, Full, LentEntry, Notice, Notices, Reply, ReturnCode, Who};
pub use identifiers::{
    BlackboardId, BlackboardKind, BufferId, BufferKind, CoreId, EventFlagKind, EventId, Id,
    MutexId, MutexKind, ProcessId, ProcessKind, SemaphoreId, SemaphoreKind,
};
pub use limits::{
    MOST_CORE_PLACES, MOST_CORES, MOST_DEPTH, MOST_ENTRIES, MOST_INIT_STEPS, MOST_LINE,
    MOST_LITERAL, MOST_MESSAGE, MOST_MESSAGES, MOST_NAME, MOST_NOTICES, MOST_OBJECTS, MOST_OWNED,
    MOST_OWNED_IN_ONE, MOST_PRIORITY, MOST_PROCESSES, MOST_PROCESSES_IN_ONE, MOST_PROFILE,
    MOST_SPAN, MOST_STEPS, MOST_TICKS, MOST_VALUE, MOST_WORK, USUAL_ENTRIES, limits_of_the_profile,
};
pub use modes::{DeadlineType, Discipline, Mode, State};
pub use names::Name;
pub use numbers::{number, number_at_most};
pub use spans::Span;
