//! The semaphore as its services see it, and the services that semaphores alone have.
ghost use Rattle.std.specs.Prelude.{◌≡◌, ◌≤◌, [], length, false};
ghost use Rattle.apex_types.specs.declared.limits.TheConstants.{MOST_PROCESSES};
ghost use Rattle.apex_machine.specs.services.Callers.{IsReadyCaller};
ghost use Rattle.apex_machine.specs.processes.Dues.{HasTime};
ghost use Rattle.apex_machine.specs.processes.Roster.{Roster};
ghost use Rattle.apex_machine.specs.services.Rows.{Leaves};
ghost use Rattle.apex_machine.specs.services.Premises.{CanServe};
ghost use Rattle.apex_machine.specs.services.SemaphoreServices as services;
ghost use Rattle.apex_machine.specs.processes.Stamps.{HasManyStamps};

use apex_machine::{Queue, Wait};
use apex_store::{Object, Store, grant, is_waiting_owner, wait_for};
use apex_types::{
    Caller, Notices, Reply, ReturnCode, SemaphoreId, SemaphoreKind, SemaphoreService, Timeout,
};
use std::marker::Model;

/// A semaphore as its services see it.
#[derive(Clone, Copy)]
pub struct Semaphore {
    maximum: u16,
    created: bool,
    value: u16,
}

impl Model for Semaphore {
    ghost use Rattle.apex_machine.specs.services.SemaphoreServices.{SemaphoreObject};

    ghost Value = { SemaphoreObject };

    ghost view = { λ s. record { maximum = s.maximum; created = s.created; value = s.value } };

    ghost inverse = { λ s. record { maximum = s.maximum; created = s.created; value = s.value } };
}

impl Semaphore {
    /// A semaphore that isn't created yet.
    pub fn new(maximum: u16, initial: u16) -> Semaphore
        ensures { result ≡ record { maximum = maximum; created = false; value = initial } }
    {
        Semaphore {
            maximum,
            created: false,
            value: initial,
        }
    }

    /// Whether it is created, and its value, from now on.
    pub fn restore(&mut self, created: bool, value: u16)
        ensures { self.new ≡ record self.old { created = created; value = value } }
    {
        self.created = created;
        self.value = value;
    }

    /// The value.
    pub fn value(&self) -> u16
        ensures { result ≡ self.now.value }
    {
        self.value
    }

    /// WAIT_SEMAPHORE: takes one of the value, else the caller waits until the timeout, in ticks,
    /// is over. INVALID_PARAM if the semaphore isn't created; INVALID_MODE if the caller owns a
    /// mutex and the timeout isn't 0, or no process calls; NOT_AVAILABLE in place of a wait if the
    /// timeout is 0.
    pub fn wait<S: Store>(
        &mut self,
        store: &mut S,
        id: SemaphoreId,
        caller: &Caller,
        timeout: Timeout,
    ) -> Reply
        requires caller { IsReadyCaller (S.roster store.old) caller.now }
        requires stamps { HasManyStamps (S.roster store.old) }
        requires time { HasTime (S.roster store.old) }
        ensures { Leaves (services.wait_semaphore
            (S.roster store.old) self.old id caller.now timeout)
            (S.roster store.new) self.new result [] [] }
    {
        if !self.created {
            return Reply::Code(ReturnCode::InvalidParam);
        }
        if is_waiting_owner(store, caller, timeout) {
            return Reply::Code(ReturnCode::InvalidMode);
        }
        match caller {
            Caller::Process(_) if self.value > 0 => {
                self.value -= 1;
                Reply::Code(ReturnCode::NoError)
            }
            Caller::Process(process) => {
                wait_for(store, self, *process, Wait::Semaphore(id), timeout)
            }
            Caller::Init | Caller::Nobody => Reply::Code(ReturnCode::InvalidMode),
        }
    }

    /// SIGNAL_SEMAPHORE: wakes the first waiter, else raises the value. INVALID_PARAM if the
    /// semaphore isn't created, NO_ACTION if no process waits and the value is the maximum.
    pub fn signal<S: Store>(
        &mut self,
        store: &mut S,
        id: SemaphoreId,
        notices: &mut Notices,
    ) -> Reply
        requires stamps { HasManyStamps (S.roster store.old) }
        requires room { length notices.old ≤ MOST_PROCESSES }
        ensures { Leaves (services.signal_semaphore (S.roster store.old) self.old id)
            (S.roster store.new) self.new result notices.old notices.new }
    {
        if !self.created {
            return Reply::Code(ReturnCode::InvalidParam);
        }
        match store.first(Queue::Semaphore(id)) {
            Some(waiter) => {
                grant(store, waiter, &None, notices);
                Reply::Code(ReturnCode::NoError)
            }
            None if self.value < self.maximum => {
                self.value += 1;
                Reply::Code(ReturnCode::NoError)
            }
            None => Reply::Code(ReturnCode::NoAction),
        }
    }
}

impl Object for Semaphore {
    type IdKind = SemaphoreKind;

    type KindService = SemaphoreService;

    ghost use Rattle.apex_machine.specs.processes.Roster.{Roster};
    ghost use Rattle.apex_machine.specs.services.SemaphoreServices.{semaphore_kind};
    ghost use Rattle.apex_machine.specs.table.Table.{SemaphoreConfig};

    ghost Config = { SemaphoreConfig };

    ghost kind = { semaphore_kind };

    ghost IsThere = { λ roster s. Unit {0} };

    fn is_created(&self) -> bool {
        self.created
    }

    fn make(&mut self) {
        self.created = true;
    }

    fn status<S: Store>(&self, store: &S, id: SemaphoreId) -> Reply
        ensures { result ≡ services.semaphore_status (S.roster store.now) self.now id }
    {
        let waiting = store.waiting(Queue::Semaphore(id));
        Reply::Status(u32::from(self.value), waiting)
    }

    fn serve<S: Store>(
        &mut self,
        store: &mut S,
        id: SemaphoreId,
        caller: &Caller,
        service: &SemaphoreService,
        notices: &mut Notices,
    ) -> Reply
        requires caller { IsReadyCaller (S.roster store.old) caller.now }
        requires can { CanServe (S.roster store.old) notices.old }
        ensures { Leaves (services.semaphore_service
            (S.roster store.old) self.old id caller.now service.now)
            (S.roster store.new) self.new result notices.old notices.new }
    {
        match service {
            SemaphoreService::Wait(timeout) => self.wait(store, id, caller, *timeout),
            SemaphoreService::Signal => self.signal(store, id, notices),
        }
    }
}
