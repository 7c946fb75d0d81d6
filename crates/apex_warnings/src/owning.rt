//! The mutexes that a script acquires and releases.
ghost use Rattle.std.specs.Prelude.{◌≡◌, ◌+◌, ◌<◌, ◌≤◌, true, length};
ghost use Rattle.apex_types.specs.declared.limits.TheConstants.{MOST_OWNED};
ghost use Rattle.apex_machine.specs.processes.Owners.{is_poll};
ghost use Rattle.apex_warnings.specs.Calls.{script};
ghost use Rattle.apex_warnings.specs.Owning.{acquired, depth_after, is_refused_to_owner, is_released, may_own_more, owned_after, owned_before, owned_more, released, waits_as_owner};

use crate::entries::{attributes, ceiling};
use crate::steps::{StepCall, TableSteps};
use apex_configs::Table;
use apex_machine::{Holding, Holdings};
use apex_types::{
    BlackboardService, BufferService, Call, CallerCall, EventFlagService, MOST_DEPTH, MutexId,
    MutexService, ObjectCall, ProcessId, SemaphoreService, TimeCall, Timeout,
};

fn is_poll(timeout: Timeout) -> bool
    ensures { result ≡ is_poll timeout }
{
    timeout == Timeout::Poll
}

/// The depth of the mutex after the call, if each ACQUIRE_MUTEX of it goes one deeper.
fn depth_after(mutex: MutexId, depth: usize, call: Call) -> usize
    requires { depth < usize.MAX }
    ensures value { result ≡ depth_after mutex depth call }
    ensures range { result ≤ depth + 1 }
{
    match call {
        Call::Mutex(ObjectCall::KindService(id, MutexService::Acquire(_))) => {
            if mutex == id { depth + 1 } else { depth }
        }
        Call::Mutex(ObjectCall::KindService(id, MutexService::Release)) => {
            if mutex == id {
                depth.saturating_sub(1)
            } else {
                depth
            }
        }
        _ => depth,
    }
}

/// These calls, which follow its ACQUIRE_MUTEX, give the mutex up: they release it once more than
/// they acquire it.
pub fn is_released(mutex: MutexId, calls: &[StepCall]) -> bool
    ensures { result ≡ is_released mutex 1 calls.now }
{
    let mut depth: usize = 1;
    for call in calls {
        depth = depth_after(mutex, depth, call.call());
        if depth == 0 {
            return true;
        }
    }
    false
}

/// An owner of these mutexes, which does not own the one that it asks for, may own one more.
fn may_own_more(table: &Table, timeout: Timeout, held: &Holdings) -> bool
    ensures value { result ≡ may_own_more table.now timeout held.now }
    ensures range { result ≡ true → length held.now < MOST_OWNED }
{
    held.len() < table.profile().owned() && (held.is_empty() || is_poll(timeout))
}

/// The mutexes that a process owns after it asks for a free one that it does not own.
fn owned_more(table: &Table, mutex: MutexId, timeout: Timeout, held: &Holdings) -> Holdings
    ensures { result ≡ owned_more table.now mutex timeout held.now }
{
    let mut owned = *held;
    if may_own_more(table, timeout, held) {
        owned.push(Holding {
            mutex,
            ceiling: ceiling(table, mutex),
            depth: 1,
        });
    }
    owned
}

/// The mutexes that the process owns after ACQUIRE_MUTEX, if no other process owns the mutex.
fn acquired(
    table: &Table,
    process: ProcessId,
    mutex: MutexId,
    timeout: Timeout,
    held: &Holdings,
) -> Holdings
    ensures { result ≡ acquired table.now process mutex timeout held.now }
{
    if ceiling(table, mutex) < attributes(table, process).priority {
        return *held;
    }
    match held.holding_of(mutex) {
        Some(holding) => {
            if holding.depth < MOST_DEPTH {
                held.with_depth(mutex, holding.depth + 1)
            } else {
                *held
            }
        }
        None => owned_more(table, mutex, timeout, held),
    }
}

/// The mutexes that the process owns after RELEASE_MUTEX.
fn released(mutex: MutexId, held: &Holdings) -> Holdings
    ensures { result ≡ released mutex held.now }
{
    match held.holding_of(mutex) {
        Some(holding) => {
            if holding.depth > 1 {
                held.with_depth(mutex, holding.depth - 1)
            } else {
                held.without(mutex)
            }
        }
        None => *held,
    }
}

/// The mutexes that the process owns after the call, if no other process owns one.
fn owned_after(table: &Table, process: ProcessId, held: &Holdings, call: Call) -> Holdings
    ensures { result ≡ owned_after table.now process held.now call }
{
    match call {
        Call::Mutex(ObjectCall::KindService(mutex, MutexService::Acquire(timeout))) => {
            acquired(table, process, mutex, timeout, held)
        }
        Call::Mutex(ObjectCall::KindService(mutex, MutexService::Release)) => {
            released(mutex, held)
        }
        _ => *held,
    }
}

/// The mutexes that the process owns before the step at this place of its script, if no other
/// process owns one.
fn owned_before(steps: &TableSteps, process: ProcessId, place: usize) -> Holdings
    requires own { process < length steps.now.processes }
    requires within { place ≤ length (script steps.now process) }
    ensures { result ≡ owned_before steps.now process place }
{
    let table = steps.table();
    let mut held = Holdings::none();
    let calls = &steps.script(process)[..place];
    for call in calls {
        held = owned_after(table, process, &held, call.call());
    }
    held
}

/// A process that owns these mutexes, one at least, is refused the call, because it may wait.
fn is_refused_to_owner(held: &Holdings, call: Call) -> bool
    ensures { result ≡ is_refused_to_owner held.now call }
{
    match call {
        Call::Semaphore(ObjectCall::KindService(_, SemaphoreService::Wait(timeout)))
        | Call::Buffer(ObjectCall::KindService(_, BufferService::Send(_, timeout)))
        | Call::Buffer(ObjectCall::KindService(_, BufferService::Receive(timeout)))
        | Call::Blackboard(ObjectCall::KindService(_, BlackboardService::Read(timeout)))
        | Call::EventFlag(ObjectCall::KindService(_, EventFlagService::Wait(timeout))) => {
            !is_poll(timeout)
        }
        Call::Mutex(ObjectCall::KindService(mutex, MutexService::Acquire(timeout))) => {
            !is_poll(timeout) && !held.holds(mutex)
        }
        Call::Caller(CallerCall::SuspendSelf(_)) => true,
        Call::Time(TimeCall::TimedWait(_) | TimeCall::PeriodicWait) => true,
        _ => false,
    }
}

/// The process owns a mutex when it comes to this call, and so it is refused.
pub fn waits_as_owner(steps: &TableSteps, process: ProcessId, place: usize, call: Call) -> bool
    requires own { process < length steps.now.processes }
    requires within { place < length (script steps.now process) }
    ensures { result ≡ waits_as_owner steps.now process place call }
{
    let held = owned_before(steps, process, place);
    !held.is_empty() && is_refused_to_owner(&held, call)
}
