//! The first guard that holds of any service.
ghost use Rattle.std.specs.Prelude.{◌≡◌, ℕ, ◌<◌, length};
ghost use Rattle.apex_types.specs.declared.calls.TimeCall.TheVariants.{TimedWait, PeriodicWait, Replenish};
ghost use Rattle.apex_machine.specs.processes.Dues.{HasTime};
ghost use Rattle.apex_machine.specs.processes.Periods.{is_beyond};
ghost use Rattle.apex_machine.specs.services.BlackboardServices.{blackboard_kind};
ghost use Rattle.apex_machine.specs.services.BufferServices.{buffer_kind};
ghost use Rattle.apex_machine.specs.services.Callers.{IsReadyCaller};
ghost use Rattle.apex_machine.specs.services.EventFlagServices.{event_flag_kind};
ghost use Rattle.apex_machine.specs.services.MutexServices.{mutex_kind};
ghost use Rattle.apex_machine.specs.services.ProcessServices.{process_kind};
ghost use Rattle.apex_machine.specs.services.SemaphoreServices.{semaphore_kind};
ghost use Rattle.apex_machine.specs.table.Table.{IsKnown, IsKnownObject, semaphore_config, buffer_config, blackboard_config};
ghost use Rattle.apex_reasons.specs.Guards.{first_holding};
ghost use Rattle.apex_reasons.specs.ObjectRows.{kind_row, process_row, semaphore_row, buffer_row, blackboard_row, event_flag_row, mutex_row};
ghost use Rattle.apex_reasons.specs.Rows.{partition_row, caller_row, time_row, row_of_call};
ghost use Rattle.apex_reasons.specs.Premises.{semaphore_in, buffer_in, blackboard_in, AreOfTable};

use crate::callers::is_no_process;
use crate::guards::Guard;
use crate::object_rows::{
    blackboard_guard, buffer_guard, common_guard, event_flag_guard, mutex_guard, no_entry_guard,
    process_guard, semaphore_guard,
};
use apex_buffer::Buffer;
use apex_configs::Table;
use apex_flags::{Blackboard, EventFlag};
use apex_mutex::Mutex;
use apex_semaphore::Semaphore;
use apex_services::{Objects, ProcessObject};
use apex_store::{Store, is_owner};
use apex_types::{
    BlackboardCall, BufferCall, Call, Caller, CallerCall, EventFlagCall, MutexCall, ObjectCall,
    PartitionCall, ProcessCall, RequestedMode, SemaphoreCall, Span, TimeCall, Timeout,
};

/// Of partition management.
fn partition_guard<S: Store>(store: &S, call: &PartitionCall) -> Option<Guard>
    ensures { result ≡ first_holding (partition_row (S.roster store.now) call.now) }
{
    match call {
        PartitionCall::SetPartitionMode(RequestedMode::Normal) if store.mode().is_normal() => {
            Some(Guard::ModeIsNormalAlready)
        }
        _ => None,
    }
}

/// Of the services that a process asks for itself.
fn caller_guard<S: Store>(store: &S, caller: &Caller, call: &CallerCall) -> Option<Guard>
    requires { IsReadyCaller (S.roster store.now) caller.now }
    ensures { result ≡ first_holding (caller_row (S.roster store.now) caller.now call.now) }
{
    let Caller::Process(process) = caller else {
        return Some(Guard::NoCaller);
    };
    let fields = store.record(*process);
    match call {
        CallerCall::SuspendSelf(_) if fields.attributes.period.is_some() => {
            Some(Guard::CallerIsPeriodic)
        }
        CallerCall::SuspendSelf(_) if fields.owns_some() => Some(Guard::CallerOwnsMutex),
        _ => None,
    }
}

/// The process is periodic, and the instant, in ticks, is above the end of its period.
fn is_beyond(release: u64, period: Option<Span>, instant: u64) -> bool
    ensures { result ≡ is_beyond release period instant }
{
    match period {
        // No sum that could be above the range of u64.
        Some(period) => instant.saturating_sub(release) > u64::from(period.ticks()),
        None => false,
    }
}

/// Of REPLENISH by a process.
fn replenish_guard<S: Store>(store: &S, caller: &Caller, budget: Span) -> Option<Guard>
    requires caller { IsReadyCaller (S.roster store.now) caller.now }
    requires time { HasTime (S.roster store.now) }
    ensures { result ≡ first_holding (time_row (S.roster store.now) caller.now
        (Replenish budget)) }
{
    let Caller::Process(process) = caller else {
        return Some(Guard::NoCaller);
    };
    let fields = store.record(*process);
    let deadline = store.now() + u64::from(budget.ticks());
    if fields.attributes.capacity.is_none() {
        Some(Guard::InfiniteCapacity)
    } else if is_beyond(fields.release, fields.attributes.period, deadline) {
        Some(Guard::DeadlinePastPeriod)
    } else {
        None
    }
}

/// Of PERIODIC_WAIT.
fn periodic_wait_guard<S: Store>(store: &S, caller: &Caller) -> Option<Guard>
    requires { IsReadyCaller (S.roster store.now) caller.now }
    ensures { result ≡ first_holding (time_row (S.roster store.now) caller.now PeriodicWait) }
{
    let Caller::Process(process) = caller else {
        return Some(Guard::NoCaller);
    };
    let fields = store.record(*process);
    if fields.attributes.period.is_none() {
        Some(Guard::CallerIsAperiodic)
    } else if fields.owns_some() {
        Some(Guard::CallerOwnsMutex)
    } else {
        None
    }
}

/// Of TIMED_WAIT.
fn timed_wait_guard<S: Store>(store: &S, caller: &Caller, timeout: Timeout) -> Option<Guard>
    requires { IsReadyCaller (S.roster store.now) caller.now }
    ensures { result ≡ first_holding (time_row (S.roster store.now) caller.now
        (TimedWait timeout)) }
{
    if is_owner(store, caller) {
        Some(Guard::CallerOwnsMutex)
    } else if is_no_process(caller) {
        Some(Guard::NoCaller)
    } else if timeout == Timeout::Infinite {
        Some(Guard::InfiniteTimedWait)
    } else {
        None
    }
}

/// Of time management.
fn time_guard<S: Store>(store: &S, caller: &Caller, call: &TimeCall) -> Option<Guard>
    requires caller { IsReadyCaller (S.roster store.now) caller.now }
    requires time { HasTime (S.roster store.now) }
    ensures { result ≡ first_holding (time_row (S.roster store.now) caller.now call.now) }
{
    match call {
        TimeCall::TimedWait(timeout) => timed_wait_guard(store, caller, *timeout),
        TimeCall::PeriodicWait => periodic_wait_guard(store, caller),
        TimeCall::Replenish(budget) => replenish_guard(store, caller, *budget),
        TimeCall::GetTime => None,
    }
}

/// Of a call on the processes.
fn process_call_guard<S: Store>(
    store: &S,
    processes: &[ProcessObject],
    caller: &Caller,
    call: &ProcessCall,
) -> Option<Guard>
    requires known { IsKnownObject (length processes.now) call.now }
    requires many { length processes.now ≡ length (S.roster store.now).records }
    ensures { result ≡ first_holding (kind_row process_kind process_row
        (S.roster store.now) processes.now caller.now call.now) }
{
    let Some(id) = call.object() else {
        return no_entry_guard(store, call);
    };
    let process = &processes[id.place()];
    match call {
        ObjectCall::KindService(_, service) => process_guard(store, process, id, caller, service),
        _ => common_guard(store, process, call),
    }
}

/// Of a call on the semaphores.
fn semaphore_call_guard<S: Store>(
    store: &S,
    table: &Table,
    semaphores: &[Semaphore],
    caller: &Caller,
    call: &SemaphoreCall,
) -> Option<Guard>
    requires known { IsKnownObject (length semaphores.now) call.now }
    requires many { length semaphores.now ≡ length table.now.semaphores }
    requires maxima { (i : ℕ) → i < length table.now.semaphores
        → (semaphore_in semaphores.now i).maximum ≡ (semaphore_config table.now i).maximum }
    requires caller { IsReadyCaller (S.roster store.now) caller.now }
    ensures { result ≡ first_holding (kind_row semaphore_kind semaphore_row
        (S.roster store.now) semaphores.now caller.now call.now) }
{
    let Some(id) = call.object() else {
        return no_entry_guard(store, call);
    };
    let semaphore = &semaphores[id.place()];
    match call {
        ObjectCall::KindService(_, service) => {
            let maximum = table.semaphore(id).maximum();
            semaphore_guard(store, semaphore, maximum, id, caller, service)
        }
        _ => common_guard(store, semaphore, call),
    }
}

/// Of a call on the buffers.
fn buffer_call_guard<S: Store>(
    store: &S,
    table: &Table,
    buffers: &[Buffer],
    caller: &Caller,
    call: &BufferCall,
) -> Option<Guard>
    requires known { IsKnownObject (length buffers.now) call.now }
    requires many { length buffers.now ≡ length table.now.buffers }
    requires lengths { (i : ℕ) → i < length table.now.buffers
        → (buffer_in buffers.now i).longest ≡ (buffer_config table.now i).length }
    requires caller { IsReadyCaller (S.roster store.now) caller.now }
    ensures { result ≡ first_holding (kind_row buffer_kind
        (λ roster x b. buffer_row roster x)
        (S.roster store.now) buffers.now caller.now call.now) }
{
    let Some(id) = call.object() else {
        return no_entry_guard(store, call);
    };
    let buffer = &buffers[id.place()];
    match call {
        ObjectCall::KindService(_, service) => {
            buffer_guard(store, buffer, table.buffer(id).length(), caller, service)
        }
        _ => common_guard(store, buffer, call),
    }
}

/// Of a call on the blackboards.
fn blackboard_call_guard<S: Store>(
    store: &S,
    table: &Table,
    blackboards: &[Blackboard],
    caller: &Caller,
    call: &BlackboardCall,
) -> Option<Guard>
    requires known { IsKnownObject (length blackboards.now) call.now }
    requires many { length blackboards.now ≡ length table.now.blackboards }
    requires widths { (i : ℕ) → i < length table.now.blackboards
        → (blackboard_in blackboards.now i).longest ≡ (blackboard_config table.now i).length }
    requires caller { IsReadyCaller (S.roster store.now) caller.now }
    ensures { result ≡ first_holding (kind_row blackboard_kind
        (λ roster x b. blackboard_row roster x)
        (S.roster store.now) blackboards.now caller.now call.now) }
{
    let Some(id) = call.object() else {
        return no_entry_guard(store, call);
    };
    let blackboard = &blackboards[id.place()];
    match call {
        ObjectCall::KindService(_, service) => {
            let longest = table.blackboard(id).length();
            blackboard_guard(store, blackboard, longest, caller, service)
        }
        _ => common_guard(store, blackboard, call),
    }
}

/// Of a call on the event flags.
fn event_flag_call_guard<S: Store>(
    store: &S,
    event_flags: &[EventFlag],
    caller: &Caller,
    call: &EventFlagCall,
) -> Option<Guard>
    requires known { IsKnownObject (length event_flags.now) call.now }
    requires caller { IsReadyCaller (S.roster store.now) caller.now }
    ensures { result ≡ first_holding (kind_row event_flag_kind
        (λ roster x e. event_flag_row roster x)
        (S.roster store.now) event_flags.now caller.now call.now) }
{
    let Some(id) = call.object() else {
        return no_entry_guard(store, call);
    };
    let event_flag = &event_flags[id.place()];
    match call {
        ObjectCall::KindService(_, service) => event_flag_guard(store, event_flag, caller, service),
        _ => common_guard(store, event_flag, call),
    }
}

/// Of a call on the mutexes.
fn mutex_call_guard<S: Store>(
    store: &S,
    mutexes: &[Mutex],
    caller: &Caller,
    call: &MutexCall,
) -> Option<Guard>
    requires known { IsKnownObject (length mutexes.now) call.now }
    requires caller { IsReadyCaller (S.roster store.now) caller.now }
    ensures { result ≡ first_holding (kind_row mutex_kind mutex_row
        (S.roster store.now) mutexes.now caller.now call.now) }
{
    let Some(id) = call.object() else {
        return no_entry_guard(store, call);
    };
    let mutex = &mutexes[id.place()];
    match call {
        ObjectCall::KindService(_, service) => mutex_guard(store, mutex, id, caller, service),
        _ => common_guard(store, mutex, call),
    }
}

/// The first guard of the call's row that holds.
pub(crate) fn first_guard<S: Store>(
    table: &Table,
    store: &S,
    objects: &Objects,
    caller: &Caller,
    call: &Call,
) -> Option<Guard>
    requires all { AreOfTable table.now (S.roster store.now) objects.now }
    requires known { IsKnown table.now call.now }
    requires caller { IsReadyCaller (S.roster store.now) caller.now }
    ensures { result ≡ first_holding (row_of_call
        (S.roster store.now) objects.now caller.now call.now) }
{
    match call {
        Call::Partition(call) => partition_guard(store, call),
        Call::Process(call) => process_call_guard(store, &objects.processes, caller, call),
        Call::Caller(call) => caller_guard(store, caller, call),
        Call::Time(call) => time_guard(store, caller, call),
        Call::Semaphore(call) => {
            semaphore_call_guard(store, table, &objects.semaphores, caller, call)
        }
        Call::Buffer(call) => buffer_call_guard(store, table, &objects.buffers, caller, call),
        Call::Blackboard(call) => {
            blackboard_call_guard(store, table, &objects.blackboards, caller, call)
        }
        Call::EventFlag(call) => event_flag_call_guard(store, &objects.event_flags, caller, call),
        Call::Mutex(call) => mutex_call_guard(store, &objects.mutexes, caller, call),
        Call::Work(_) => None,
    }
}
