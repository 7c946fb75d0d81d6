//! The mutex as its services see it, and the services that mutexes alone have.
ghost use Rattle.std.specs.Prelude.{◌≡◌, ◌<◌, ◌≤◌, [], length, false};
ghost use Rattle.apex_types.specs.declared.limits.TheConstants.{MOST_OWNED, MOST_PROCESSES};
ghost use Rattle.apex_machine.specs.services.Callers.{IsReady, IsReadyCaller};
ghost use Rattle.apex_machine.specs.processes.Dues.{HasTime};
ghost use Rattle.apex_machine.specs.services.MutexServices as services;
ghost use Rattle.apex_machine.specs.processes.Owners.{is_deepest, may_not_wait, owns, owns_most};
ghost use Rattle.apex_machine.specs.processes.Roster.{record_at};
ghost use Rattle.apex_machine.specs.services.Rows.{Leaves};
ghost use Rattle.apex_machine.specs.services.Premises.{CanServe};
ghost use Rattle.apex_machine.specs.processes.Stamps.{HasManyStamps};

use apex_machine::{Holding, Record, Wait};
use apex_store::{Object, Store, hand_over, wait_for};
use apex_types::{
    Caller, MOST_DEPTH, MutexId, MutexKind, MutexService, Notices, ProcessId, Reply, ReturnCode,
    Timeout,
};
use std::marker::Model;

/// A mutex as its services see it.
#[derive(Clone, Copy)]
pub struct Mutex {
    created: bool,
}

impl Model for Mutex {
    ghost use Rattle.apex_machine.specs.services.MutexServices.{MutexObject};

    ghost Value = { MutexObject };

    ghost view = { λ m. record { created = m.created } };

    ghost inverse = { λ m. record { created = m.created } };
}

/// The process owns another mutex than this one and not this one, and the timeout is not 0.
fn may_not_wait(fields: &Record, mutex: MutexId, timeout: Timeout) -> bool
    ensures { result ≡ may_not_wait mutex timeout fields.now }
{
    !fields.owns(mutex) && fields.owns_some() && timeout != Timeout::Poll
}

/// The process owns as many mutexes as it may, and not this one.
fn owns_most<S: Store>(store: &S, fields: &Record, mutex: MutexId) -> bool
    ensures value { result ≡ owns_most (S.roster store.now) mutex fields.now }
    ensures room { result ≡ false → owns mutex fields.now ≡ false
        → length fields.now.owned < MOST_OWNED }
{
    !fields.owns(mutex) && fields.owned.len() >= store.most_owned()
}

/// The process owns this mutex, and may not go deeper.
fn is_deepest(fields: &Record, mutex: MutexId) -> bool
    ensures { result ≡ is_deepest mutex fields.now }
{
    match fields.owned.holding_of(mutex) {
        Some(holding) => holding.depth >= MOST_DEPTH,
        None => false,
    }
}

impl Mutex {
    /// A mutex that isn't created yet.
    pub fn new() -> Mutex
        ensures { result ≡ record { created = false } }
    {
        Mutex { created: false }
    }

    /// The process, which calls and does not own this mutex, owns it too if it is free, else it
    /// waits until the timeout, in ticks, is over.
    fn acquire_from<S: Store>(
        &self,
        store: &mut S,
        id: MutexId,
        process: ProcessId,
        timeout: Timeout,
    ) -> Reply
        requires few_owned { length (record_at (S.roster store.old) process).owned < MOST_OWNED }
        requires ready { IsReady (S.roster store.old) process }
        requires stamps { HasManyStamps (S.roster store.old) }
        requires time { HasTime (S.roster store.old) }
        ensures { Leaves (services.acquire_by (S.roster store.old) self.now id process timeout None)
            (S.roster store.new) self.now result [] [] }
    {
        if store.owner(id).is_some() {
            return wait_for(store, self, process, Wait::Mutex(id), timeout);
        }
        let holding = Holding {
            mutex: id,
            ceiling: store.ceiling(id),
            depth: 1,
        };
        let mut owned = store.record(process).owned;
        owned.push(holding);
        store.own(process, owned);
        Reply::Code(ReturnCode::NoError)
    }

    /// ACQUIRE_MUTEX: the owner goes one deeper; if the mutex is free the caller owns it, else it
    /// waits until the timeout, in ticks, is over. INVALID_PARAM if the mutex isn't created;
    /// INVALID_MODE if the caller owns another one and not this one and the timeout is not 0, owns as
    /// many as it may, its base priority is above the ceiling, it owns this one [`MOST_DEPTH`] deep, or no
    /// process calls; NOT_AVAILABLE in place of a wait if the timeout is 0.
    #[tactic(auto, using(apex_machine::proofs::Held::none_held))]
    pub fn acquire<S: Store>(
        &self,
        store: &mut S,
        id: MutexId,
        caller: &Caller,
        timeout: Timeout,
    ) -> Reply
        requires caller { IsReadyCaller (S.roster store.old) caller.now }
        requires stamps { HasManyStamps (S.roster store.old) }
        requires time { HasTime (S.roster store.old) }
        ensures { Leaves (services.acquire_mutex
            (S.roster store.old) self.now id caller.now timeout)
            (S.roster store.new) self.now result [] [] }
    {
        if !self.created {
            return Reply::Code(ReturnCode::InvalidParam);
        }
        let Caller::Process(process) = caller else {
            return Reply::Code(ReturnCode::InvalidMode);
        };
        let record = store.record(*process);
        if may_not_wait(record, id, timeout)
            || owns_most(store, record, id)
            || record.base > store.ceiling(id)
            || is_deepest(record, id)
        {
            return Reply::Code(ReturnCode::InvalidMode);
        }
        match record.owned.holding_of(id) {
            Some(holding) => {
                let deeper = record.owned.with_depth(id, holding.depth + 1);
                store.own(*process, deeper);
                Reply::Code(ReturnCode::NoError)
            }
            None => self.acquire_from(store, id, *process, timeout),
        }
    }

    /// RELEASE_MUTEX: the owner goes one less deep; with the last release it gives the mutex up,
    /// which goes to the first waiter. INVALID_PARAM if the mutex isn't created, INVALID_MODE if
    /// the caller doesn't own it.
    #[tactic(auto, using(apex_machine::proofs::Handovers::few_handed_over))]
    pub fn release<S: Store>(
        &self,
        store: &mut S,
        id: MutexId,
        caller: &Caller,
        notices: &mut Notices,
    ) -> Reply
        requires caller { IsReadyCaller (S.roster store.old) caller.now }
        requires stamps { HasManyStamps (S.roster store.old) }
        requires room { length notices.old ≤ MOST_PROCESSES }
        ensures { Leaves (services.release_mutex (S.roster store.old) self.now id caller.now)
            (S.roster store.new) self.now result notices.old notices.new }
    {
        if !self.created {
            return Reply::Code(ReturnCode::InvalidParam);
        }
        let Caller::Process(process) = caller else {
            return Reply::Code(ReturnCode::InvalidMode);
        };
        let record = store.record(*process);
        if !record.owns(id) {
            return Reply::Code(ReturnCode::InvalidMode);
        }
        match record.owned.holding_of(id) {
            Some(holding) if holding.depth > 1 => {
                let left = record.owned.with_depth(id, holding.depth - 1);
                store.own(*process, left);
                Reply::Code(ReturnCode::NoError)
            }
            Some(holding) => {
                let left = record.owned.without(id);
                store.own(*process, left);
                hand_over(store, &holding, notices);
                Reply::Code(ReturnCode::NoError)
            }
            None => Reply::Code(ReturnCode::InvalidMode),
        }
    }
}

impl Object for Mutex {
    type IdKind = MutexKind;

    type KindService = MutexService;

    ghost use Rattle.apex_machine.specs.services.MutexServices.{mutex_kind};
    ghost use Rattle.apex_machine.specs.processes.Roster.{Roster};
    ghost use Rattle.apex_machine.specs.table.Table.{MutexConfig};

    ghost Config = { MutexConfig };

    ghost kind = { mutex_kind };

    ghost IsThere = { λ roster m. Unit {0} };

    fn is_created(&self) -> bool {
        self.created
    }

    fn make(&mut self) {
        self.created = true;
    }

    fn status<S: Store>(&self, store: &S, id: MutexId) -> Reply
        ensures { result ≡ services.mutex_status (S.roster store.now) self.now id }
    {
        match store.owner(id) {
            Some(owner) => {
                let depth = match store.record(owner).owned.holding_of(id) {
                    Some(holding) => holding.depth,
                    None => 0,
                };
                Reply::Status(owner.number(), u32::from(depth))
            }
            None => Reply::Status(0, 0),
        }
    }

    fn serve<S: Store>(
        &mut self,
        store: &mut S,
        id: MutexId,
        caller: &Caller,
        service: &MutexService,
        notices: &mut Notices,
    ) -> Reply
        requires caller { IsReadyCaller (S.roster store.old) caller.now }
        requires can { CanServe (S.roster store.old) notices.old }
        ensures { Leaves (services.mutex_service
            (S.roster store.old) self.old id caller.now service.now)
            (S.roster store.new) self.new result notices.old notices.new }
    {
        match service {
            MutexService::Acquire(timeout) => self.acquire(store, id, caller, *timeout),
            MutexService::Release => self.release(store, id, caller, notices),
        }
    }
}
