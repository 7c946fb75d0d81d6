//! The first guard that holds of the services of each kind of object.
ghost use Rattle.std.specs.Prelude.{◌≡◌, ◌<◌, [], length};
ghost use Rattle.apex_types.specs.declared.calls.MutexService.TheVariants.{Acquire, Release};
ghost use Rattle.apex_machine.specs.processes.Owners.{is_deepest};
ghost use Rattle.apex_machine.specs.services.Callers.{IsReadyCaller};
ghost use Rattle.apex_machine.specs.services.ProcessServices.{is_unfit_delay, is_unsuspendable};
ghost use Rattle.apex_reasons.specs.Guards.{first_holding};
ghost use Rattle.apex_reasons.specs.ObjectRows.{common_row, no_entry_row, core_row, priority_row, start_row, stop_row, suspend_row, resume_row, of_another, process_row, waiting_row, semaphore_row, buffer_row, blackboard_row, event_flag_row, owner_row, mutex_row};

use crate::callers::{is_by_process, is_no_process};
use crate::guards::Guard;
use apex_buffer::Buffer;
use apex_flags::{Blackboard, EventFlag};
use apex_machine::{Queue, Record};
use apex_mutex::Mutex;
use apex_semaphore::Semaphore;
use apex_services::ProcessObject;
use apex_store::{Object, Store, is_unfit, is_waiting_owner};
use apex_types::{
    BlackboardService, BufferService, Caller, EventFlagService, Id, MOST_DEPTH, MOST_PRIORITY,
    MutexId, MutexService, ObjectCall, ProcessId, ProcessService, SemaphoreId, SemaphoreService,
    Timeout,
};

/// Of a call of a name that no entry has.
pub(crate) fn no_entry_guard<S: Store, I, W>(store: &S, call: &ObjectCall<I, W>) -> Option<Guard>
    ensures { result ≡ first_holding (no_entry_row (S.roster store.now) call.now) }
{
    match call {
        ObjectCall::Create(_) if store.mode().is_normal() => Some(Guard::ModeIsNormal),
        _ => Some(Guard::NoSuchEntry),
    }
}

/// Of the three services that each kind has.
pub(crate) fn common_guard<S: Store, O: Object>(
    store: &S,
    object: &O,
    call: &ObjectCall<Id<O::IdKind>, O::KindService>,
) -> Option<Guard>
    ensures { result ≡ first_holding (common_row O.kind (S.roster store.now) object.now call.now) }
{
    match call {
        ObjectCall::Create(_) if store.mode().is_normal() => Some(Guard::ModeIsNormal),
        ObjectCall::Create(_) if object.is_created() => Some(Guard::AlreadyCreated),
        ObjectCall::GetId(_) if !object.is_created() => Some(Guard::IdNotCreated),
        ObjectCall::GetStatus(_) if !object.is_created() => Some(Guard::NotCreated),
        _ => None,
    }
}

/// The process, of this record, is dormant or periodic.
fn is_unsuspendable(fields: &Record) -> bool
    ensures { result ≡ is_unsuspendable fields.now }
{
    !fields.started || fields.attributes.period.is_some()
}

/// The process, of this record, may not start after this delay.
fn is_unfit_delay(fields: &Record, delay: Timeout) -> bool
    ensures { result ≡ is_unfit_delay fields.now delay }
{
    let ticks = match delay {
        Timeout::Infinite => return true,
        Timeout::Poll => 0,
        Timeout::Ticks(ticks) => ticks,
    };
    match fields.attributes.period {
        Some(period) => ticks >= period.ticks(),
        None => false,
    }
}

/// Of INITIALIZE_PROCESS_CORE_AFFINITY.
fn core_guard<S: Store>(store: &S, process: &ProcessObject, core: u8) -> Option<Guard>
    ensures { result ≡ first_holding (core_row (S.roster store.now) process.now core) }
{
    if store.mode().is_normal() {
        Some(Guard::ModeIsNormal)
    } else if !process.is_created() {
        Some(Guard::NotCreated)
    } else if core >= store.cores() {
        Some(Guard::NoSuchCore)
    } else {
        None
    }
}

/// Of SET_PRIORITY.
fn priority_guard(fields: &Record, process: &ProcessObject, priority: u16) -> Option<Guard>
    ensures { result ≡ first_holding (priority_row fields.now process.now priority) }
{
    if !process.is_created() {
        Some(Guard::NotCreated)
    } else if priority < 1 || u32::from(priority) > MOST_PRIORITY {
        Some(Guard::PriorityOutOfRange)
    } else if !fields.started {
        Some(Guard::DormantForPriority)
    } else {
        None
    }
}

/// Of a START after this delay.
fn start_guard(fields: &Record, process: &ProcessObject, delay: Timeout) -> Option<Guard>
    ensures { result ≡ first_holding (start_row fields.now process.now delay) }
{
    if !process.is_created() {
        Some(Guard::NotCreated)
    } else if fields.started {
        Some(Guard::AlreadyStarted)
    } else if is_unfit_delay(fields, delay) {
        Some(Guard::UnfitDelay)
    } else {
        None
    }
}

/// Of a service for another process, before the guards of the service itself.
fn another_guard(process: &ProcessObject, id: ProcessId, caller: &Caller) -> Option<Guard>
    ensures { result ≡ first_holding (of_another caller.now process.now id []) }
{
    if is_by_process(id, caller) {
        Some(Guard::NamesCaller)
    } else if !process.is_created() {
        Some(Guard::NotCreated)
    } else {
        None
    }
}

/// Of STOP, of a process of this record.
fn stop_guard(
    fields: &Record,
    process: &ProcessObject,
    id: ProcessId,
    caller: &Caller,
) -> Option<Guard>
    ensures { result ≡ first_holding
        (of_another caller.now process.now id (stop_row fields.now)) }
{
    if let Some(guard) = another_guard(process, id, caller) {
        return Some(guard);
    }
    if fields.started {
        None
    } else {
        Some(Guard::AlreadyDormant)
    }
}

/// Of SUSPEND, of a process of this record.
fn suspend_guard(
    fields: &Record,
    process: &ProcessObject,
    id: ProcessId,
    caller: &Caller,
) -> Option<Guard>
    ensures { result ≡ first_holding
        (of_another caller.now process.now id (suspend_row fields.now)) }
{
    if let Some(guard) = another_guard(process, id, caller) {
        return Some(guard);
    }
    if is_unsuspendable(fields) {
        Some(Guard::DormantOrPeriodic)
    } else if fields.suspended.is_some() {
        Some(Guard::AlreadySuspended)
    } else if fields.owns_some() {
        Some(Guard::OwnsMutex)
    } else {
        None
    }
}

/// Of RESUME, of a process of this record.
fn resume_guard(
    fields: &Record,
    process: &ProcessObject,
    id: ProcessId,
    caller: &Caller,
) -> Option<Guard>
    ensures { result ≡ first_holding
        (of_another caller.now process.now id (resume_row fields.now)) }
{
    if let Some(guard) = another_guard(process, id, caller) {
        return Some(guard);
    }
    if is_unsuspendable(fields) {
        Some(Guard::DormantOrPeriodic)
    } else if fields.suspended.is_none() {
        Some(Guard::NotSuspended)
    } else {
        None
    }
}

/// Of the services that processes alone have.
pub(crate) fn process_guard<S: Store>(
    store: &S,
    process: &ProcessObject,
    id: ProcessId,
    caller: &Caller,
    service: &ProcessService,
) -> Option<Guard>
    requires known { id < length (S.roster store.now).records }
    ensures { result ≡ first_holding (process_row
        (S.roster store.now) process.now id caller.now service.now) }
{
    let fields = store.record(id);
    match service {
        ProcessService::InitializeCoreAffinity(core) => core_guard(store, process, *core),
        ProcessService::SetPriority(priority) => priority_guard(fields, process, *priority),
        ProcessService::Start => start_guard(fields, process, Timeout::Poll),
        ProcessService::DelayedStart(delay) => start_guard(fields, process, *delay),
        ProcessService::Stop => stop_guard(fields, process, id, caller),
        ProcessService::Suspend => suspend_guard(fields, process, id, caller),
        ProcessService::Resume => resume_guard(fields, process, id, caller),
    }
}

/// Of a service that may wait, after the guards of its object.
fn waiting_guard<S: Store>(store: &S, caller: &Caller, timeout: Timeout) -> Option<Guard>
    requires { IsReadyCaller (S.roster store.now) caller.now }
    ensures { result ≡ first_holding (waiting_row (S.roster store.now) caller.now timeout) }
{
    if is_waiting_owner(store, caller, timeout) {
        Some(Guard::OwnerWithTimeout)
    } else if is_no_process(caller) {
        Some(Guard::NoCaller)
    } else {
        None
    }
}

/// Of the services that semaphores alone have. The semaphore has this maximum.
pub(crate) fn semaphore_guard<S: Store>(
    store: &S,
    semaphore: &Semaphore,
    maximum: u16,
    id: SemaphoreId,
    caller: &Caller,
    service: &SemaphoreService,
) -> Option<Guard>
    requires caller { IsReadyCaller (S.roster store.now) caller.now }
    requires maximum { semaphore.now.maximum ≡ maximum }
    ensures { result ≡ first_holding (semaphore_row
        (S.roster store.now) semaphore.now id caller.now service.now) }
{
    if !semaphore.is_created() {
        return Some(Guard::NotCreated);
    }
    match service {
        SemaphoreService::Wait(timeout) => waiting_guard(store, caller, *timeout),
        SemaphoreService::Signal => {
            let waits = store.first(Queue::Semaphore(id)).is_some();
            if waits || semaphore.value() < maximum {
                None
            } else {
                Some(Guard::SemaphoreIsFull)
            }
        }
    }
}

/// Of the services that buffers alone have. The buffer takes messages of at most this many bytes.
pub(crate) fn buffer_guard<S: Store>(
    store: &S,
    buffer: &Buffer,
    longest: u8,
    caller: &Caller,
    service: &BufferService,
) -> Option<Guard>
    requires caller { IsReadyCaller (S.roster store.now) caller.now }
    requires longest { buffer.now.longest ≡ longest }
    ensures { result ≡ first_holding (buffer_row
        (S.roster store.now) buffer.now caller.now service.now) }
{
    if !buffer.is_created() {
        return Some(Guard::NotCreated);
    }
    match service {
        BufferService::Send(message, _) if is_unfit(longest, message) => Some(Guard::UnfitMessage),
        BufferService::Send(_, timeout) | BufferService::Receive(timeout) => {
            waiting_guard(store, caller, *timeout)
        }
    }
}

/// Of the services that blackboards alone have. The blackboard takes messages of at most this many
/// bytes.
pub(crate) fn blackboard_guard<S: Store>(
    store: &S,
    blackboard: &Blackboard,
    longest: u8,
    caller: &Caller,
    service: &BlackboardService,
) -> Option<Guard>
    requires caller { IsReadyCaller (S.roster store.now) caller.now }
    requires longest { blackboard.now.longest ≡ longest }
    ensures { result ≡ first_holding (blackboard_row
        (S.roster store.now) blackboard.now caller.now service.now) }
{
    if !blackboard.is_created() {
        return Some(Guard::NotCreated);
    }
    match service {
        BlackboardService::Display(message) if is_unfit(longest, message) => {
            Some(Guard::UnfitMessage)
        }
        BlackboardService::Read(timeout) => waiting_guard(store, caller, *timeout),
        BlackboardService::Display(_) | BlackboardService::Clear => None,
    }
}

/// Of the services that event flags alone have.
pub(crate) fn event_flag_guard<S: Store>(
    store: &S,
    event_flag: &EventFlag,
    caller: &Caller,
    service: &EventFlagService,
) -> Option<Guard>
    requires caller { IsReadyCaller (S.roster store.now) caller.now }
    ensures { result ≡ first_holding (event_flag_row
        (S.roster store.now) event_flag.now caller.now service.now) }
{
    if !event_flag.is_created() {
        return Some(Guard::NotCreated);
    }
    match service {
        EventFlagService::Wait(timeout) => waiting_guard(store, caller, *timeout),
        EventFlagService::Set | EventFlagService::Reset => None,
    }
}

/// The caller, of this record, owns the mutex, and may not go deeper.
fn is_deepest(fields: &Record, mutex: MutexId) -> bool
    ensures { result ≡ is_deepest mutex fields.now }
{
    match fields.owned.holding_of(mutex) {
        Some(holding) => holding.depth >= MOST_DEPTH,
        None => false,
    }
}

/// Of ACQUIRE_MUTEX of a mutex that is created, by a process of this record.
fn owner_guard<S: Store>(store: &S, fields: &Record, id: MutexId, timeout: Timeout) -> Option<Guard>
    ensures { result ≡ first_holding (owner_row (S.roster store.now) id fields.now timeout []) }
{
    let owns = fields.owns(id);
    if !owns && fields.owns_some() && timeout != Timeout::Poll {
        Some(Guard::OwnerOfAnotherWithTimeout)
    } else if !owns && fields.owned.len() >= store.most_owned() {
        Some(Guard::OwnsMost)
    } else if fields.base > store.ceiling(id) {
        Some(Guard::BaseAboveCeiling)
    } else if is_deepest(fields, id) {
        Some(Guard::AtMostDepth)
    } else {
        None
    }
}

/// Of ACQUIRE_MUTEX.
fn acquire_guard<S: Store>(
    store: &S,
    mutex: &Mutex,
    id: MutexId,
    caller: &Caller,
    timeout: Timeout,
) -> Option<Guard>
    requires caller { IsReadyCaller (S.roster store.now) caller.now }
    ensures { result ≡ first_holding (mutex_row (S.roster store.now) mutex.now id caller.now
        (Acquire timeout)) }
{
    if !mutex.is_created() {
        return Some(Guard::NotCreated);
    }
    match caller {
        Caller::Process(process) => owner_guard(store, store.record(*process), id, timeout),
        // The trait of a store does not say that a process may own a mutex at all.
        Caller::Init | Caller::Nobody if store.most_owned() == 0 => Some(Guard::OwnsMost),
        Caller::Init | Caller::Nobody => Some(Guard::NoCaller),
    }
}

/// Of RELEASE_MUTEX.
fn release_guard<S: Store>(store: &S, mutex: &Mutex, id: MutexId, caller: &Caller) -> Option<Guard>
    requires caller { IsReadyCaller (S.roster store.now) caller.now }
    ensures { result ≡ first_holding (mutex_row (S.roster store.now) mutex.now id caller.now
        Release) }
{
    if !mutex.is_created() {
        return Some(Guard::NotCreated);
    }
    match caller {
        Caller::Process(process) if store.record(*process).owns(id) => None,
        _ => Some(Guard::CallerIsNotOwner),
    }
}

/// Of the services that mutexes alone have.
pub(crate) fn mutex_guard<S: Store>(
    store: &S,
    mutex: &Mutex,
    id: MutexId,
    caller: &Caller,
    service: &MutexService,
) -> Option<Guard>
    requires caller { IsReadyCaller (S.roster store.now) caller.now }
    ensures { result ≡ first_holding (mutex_row
        (S.roster store.now) mutex.now id caller.now service.now) }
{
    match service {
        MutexService::Acquire(timeout) => acquire_guard(store, mutex, id, caller, *timeout),
        MutexService::Release => release_guard(store, mutex, id, caller),
    }
}
