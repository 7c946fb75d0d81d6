//! What any service does if no guard of its row holds: it is carried out at once, or its caller
//! begins to wait.
ghost use Rattle.std.specs.Prelude.{◌≡◌, ℕ, ◌<◌, is_some, length};
ghost use Rattle.apex_machine.specs.declared.records.Queue.TheVariants as queues;
ghost use Rattle.apex_machine.specs.processes.Held.{holding_of};
ghost use Rattle.apex_machine.specs.processes.Owners.{record_of};
ghost use Rattle.apex_machine.specs.processes.Waiters.{first_waiter};
ghost use Rattle.apex_machine.specs.services.BlackboardServices.{blackboard_kind};
ghost use Rattle.apex_machine.specs.services.BufferServices.{buffer_kind, is_receiver};
ghost use Rattle.apex_machine.specs.services.Callers.{IsReadyCaller};
ghost use Rattle.apex_machine.specs.services.EventFlagServices.{event_flag_kind};
ghost use Rattle.apex_machine.specs.services.SemaphoreServices.{semaphore_kind};
ghost use Rattle.apex_machine.specs.table.Table.{IsKnown, IsKnownObject, buffer_config};
ghost use Rattle.apex_reasons.specs.Effects.{asked_wait, blackboard_effect, buffer_effect, caller_effect, effect_of_call, event_flag_effect, is_for_receiver, kind_effect, mutex_call_effect, mutex_effect, semaphore_effect, time_effect};
ghost use Rattle.apex_reasons.specs.Premises.{AreOfTable, buffer_in};

use crate::rules::{Rule, WaitCause, at_once};
use apex_buffer::Buffer;
use apex_configs::Table;
use apex_flags::{Blackboard, EventFlag};
use apex_machine::{Queue, Wait};
use apex_semaphore::Semaphore;
use apex_services::Objects;
use apex_store::Store;
use apex_types::{
    BlackboardCall, BlackboardService, BufferCall, BufferId, BufferService, Call, Caller,
    CallerCall, EventFlagCall, EventFlagService, MutexCall, MutexId, MutexService, ObjectCall,
    SemaphoreCall, SemaphoreService, TimeCall, Timeout,
};

/// Of a service that asks for a wait; with a timeout of 0 there is none.
fn asked_wait(cause: WaitCause, timeout: Timeout) -> Rule
    ensures { result ≡ asked_wait cause timeout }
{
    match timeout {
        Timeout::Poll => Rule::Served,
        Timeout::Ticks(_) | Timeout::Infinite => Rule::Waits(cause),
    }
}

/// Of the services that semaphores alone have.
fn semaphore_effect(semaphore: &Semaphore, service: &SemaphoreService) -> Rule
    ensures { result ≡ semaphore_effect semaphore.now service.now }
{
    match service {
        SemaphoreService::Wait(timeout) => {
            at_once(
                semaphore.value() > 0,
                WaitCause::SemaphoreIsAtZero,
                *timeout,
            )
        }
        SemaphoreService::Signal => Rule::Served,
    }
}

/// The process of this wait waits for a message of a buffer.
fn is_receiver(wait: &Option<Wait>) -> bool
    ensures { result ≡ is_receiver wait.now }
{
    matches!(wait, Some(Wait::Receive(_)))
}

/// The first waiter of the buffer, if there is one, is a receiver.
fn is_for_receiver<S: Store>(store: &S, id: BufferId) -> bool
    ensures { result ≡ is_for_receiver (S.roster store.now)
        (first_waiter (S.roster store.now) (queues.Buffer id)) }
{
    match store.first(Queue::Buffer(id)) {
        Some(waiter) => is_receiver(&store.record(waiter).wait),
        None => false,
    }
}

/// Of the services that buffers alone have. The buffer takes this many messages.
fn buffer_effect<S: Store>(
    store: &S,
    buffer: &Buffer,
    capacity: u8,
    id: BufferId,
    service: &BufferService,
) -> Rule
    requires { buffer.now.capacity ≡ capacity }
    ensures { result ≡ buffer_effect (S.roster store.now) buffer.now id service.now }
{
    let count = buffer.messages().len();
    match service {
        BufferService::Send(_, timeout) => {
            let goes_on = is_for_receiver(store, id) || count < usize::from(capacity);
            at_once(goes_on, WaitCause::BufferIsFull, *timeout)
        }
        BufferService::Receive(timeout) => at_once(count > 0, WaitCause::BufferIsEmpty, *timeout),
    }
}

/// Of the services that blackboards alone have.
fn blackboard_effect(blackboard: &Blackboard, service: &BlackboardService) -> Rule
    ensures { result ≡ blackboard_effect blackboard.now service.now }
{
    match service {
        BlackboardService::Read(timeout) => {
            let shows = blackboard.message().is_some();
            at_once(shows, WaitCause::BlackboardIsEmpty, *timeout)
        }
        BlackboardService::Display(_) | BlackboardService::Clear => Rule::Served,
    }
}

/// Of the services that event flags alone have.
fn event_flag_effect(event_flag: &EventFlag, service: &EventFlagService) -> Rule
    ensures { result ≡ event_flag_effect event_flag.now service.now }
{
    match service {
        EventFlagService::Wait(timeout) => {
            at_once(event_flag.is_up(), WaitCause::EventFlagIsDown, *timeout)
        }
        EventFlagService::Set | EventFlagService::Reset => Rule::Served,
    }
}

/// The caller owns the mutex.
fn holds<S: Store>(store: &S, caller: &Caller, id: MutexId) -> bool
    requires { IsReadyCaller (S.roster store.now) caller.now }
    ensures { result ≡ is_some (holding_of id (record_of (S.roster store.now) caller.now).owned) }
{
    match caller {
        Caller::Process(process) => store.record(*process).owned.holding_of(id).is_some(),
        Caller::Init | Caller::Nobody => false,
    }
}

/// Of the services that mutexes alone have.
fn mutex_effect<S: Store>(store: &S, id: MutexId, caller: &Caller, service: &MutexService) -> Rule
    requires { IsReadyCaller (S.roster store.now) caller.now }
    ensures { result ≡ mutex_effect
        (S.roster store.now) caller.now id service.now }
{
    match service {
        MutexService::Acquire(timeout) => {
            let goes_on = holds(store, caller, id) || store.owner(id).is_none();
            at_once(goes_on, WaitCause::MutexIsOwned, *timeout)
        }
        MutexService::Release => Rule::Served,
    }
}

/// Of the services that a process asks for itself.
fn caller_effect(call: &CallerCall) -> Rule
    ensures { result ≡ caller_effect call.now }
{
    match call {
        CallerCall::SuspendSelf(timeout) => asked_wait(WaitCause::AsksForSuspension, *timeout),
        _ => Rule::Served,
    }
}

/// Of time management.
fn time_effect(call: &TimeCall) -> Rule
    ensures { result ≡ time_effect call.now }
{
    match call {
        TimeCall::TimedWait(timeout) => asked_wait(WaitCause::AsksForTime, *timeout),
        TimeCall::PeriodicWait => Rule::Waits(WaitCause::AsksForRelease),
        TimeCall::Replenish(_) | TimeCall::GetTime => Rule::Served,
    }
}

/// Of a call on the semaphores.
fn semaphore_call_effect(semaphores: &[Semaphore], call: &SemaphoreCall) -> Rule
    requires { IsKnownObject (length semaphores.now) call.now }
    ensures { result ≡ kind_effect semaphore_kind (λ x s. semaphore_effect x)
        semaphores.now call.now }
{
    match call {
        ObjectCall::KindService(id, service) => semaphore_effect(&semaphores[id.place()], service),
        _ => Rule::Served,
    }
}

/// Of a call on the buffers.
fn buffer_call_effect<S: Store>(
    store: &S,
    table: &Table,
    buffers: &[Buffer],
    call: &BufferCall,
) -> Rule
    requires known { IsKnownObject (length buffers.now) call.now }
    requires many { length buffers.now ≡ length table.now.buffers }
    requires capacities { (i : ℕ) → i < length table.now.buffers
        → (buffer_in buffers.now i).capacity ≡ (buffer_config table.now i).capacity }
    ensures { result ≡ kind_effect buffer_kind (buffer_effect (S.roster store.now))
        buffers.now call.now }
{
    match call {
        ObjectCall::KindService(id, service) => {
            let capacity = table.buffer(*id).capacity();
            buffer_effect(store, &buffers[id.place()], capacity, *id, service)
        }
        _ => Rule::Served,
    }
}

/// Of a call on the blackboards.
fn blackboard_call_effect(blackboards: &[Blackboard], call: &BlackboardCall) -> Rule
    requires { IsKnownObject (length blackboards.now) call.now }
    ensures { result ≡ kind_effect blackboard_kind (λ x b. blackboard_effect x)
        blackboards.now call.now }
{
    match call {
        ObjectCall::KindService(id, service) => {
            blackboard_effect(&blackboards[id.place()], service)
        }
        _ => Rule::Served,
    }
}

/// Of a call on the event flags.
fn event_flag_call_effect(event_flags: &[EventFlag], call: &EventFlagCall) -> Rule
    requires { IsKnownObject (length event_flags.now) call.now }
    ensures { result ≡ kind_effect event_flag_kind (λ x e. event_flag_effect x)
        event_flags.now call.now }
{
    match call {
        ObjectCall::KindService(id, service) => {
            event_flag_effect(&event_flags[id.place()], service)
        }
        _ => Rule::Served,
    }
}

/// Of a call on the mutexes.
fn mutex_call_effect<S: Store>(store: &S, caller: &Caller, call: &MutexCall) -> Rule
    requires { IsReadyCaller (S.roster store.now) caller.now }
    ensures { result ≡ mutex_call_effect (S.roster store.now) caller.now call.now }
{
    match call {
        ObjectCall::KindService(id, service) => mutex_effect(store, *id, caller, service),
        _ => Rule::Served,
    }
}

/// What the caller's call does if no guard of its row holds.
pub(crate) fn effect_of_call<S: Store>(
    table: &Table,
    store: &S,
    objects: &Objects,
    caller: &Caller,
    call: &Call,
) -> Rule
    requires all { AreOfTable table.now (S.roster store.now) objects.now }
    requires known { IsKnown table.now call.now }
    requires caller { IsReadyCaller (S.roster store.now) caller.now }
    ensures { result ≡ effect_of_call (S.roster store.now) objects.now caller.now call.now }
{
    match call {
        Call::Caller(call) => caller_effect(call),
        Call::Time(call) => time_effect(call),
        Call::Semaphore(call) => semaphore_call_effect(&objects.semaphores, call),
        Call::Buffer(call) => buffer_call_effect(store, table, &objects.buffers, call),
        Call::Blackboard(call) => blackboard_call_effect(&objects.blackboards, call),
        Call::EventFlag(call) => event_flag_call_effect(&objects.event_flags, call),
        Call::Mutex(call) => mutex_call_effect(store, caller, call),
        Call::Partition(_) | Call::Process(_) | Call::Work(_) => Rule::Served,
    }
}
