//! The event flag as its services see it, and the services that event flags alone have.
ghost use Rattle.std.specs.Prelude.{◌≡◌, ◌≤◌, [], length, false};
ghost use Rattle.apex_types.specs.declared.limits.TheConstants.{MOST_PROCESSES};
ghost use Rattle.apex_machine.specs.services.Callers.{IsReadyCaller};
ghost use Rattle.apex_machine.specs.processes.Dues.{HasTime};
ghost use Rattle.apex_machine.specs.services.EventFlagServices as services;
ghost use Rattle.apex_machine.specs.processes.Roster.{Roster};
ghost use Rattle.apex_machine.specs.services.Rows.{Leaves};
ghost use Rattle.apex_machine.specs.services.Premises.{CanServe};
ghost use Rattle.apex_machine.specs.processes.Stamps.{HasManyStamps};

use apex_machine::{Queue, Wait};
use apex_store::{Object, Store, grant_all, is_waiting_owner, wait_for};
use apex_types::{
    Caller, EventFlagKind, EventFlagService, EventId, Notices, Reply, ReturnCode, Timeout,
};
use std::marker::Model;

/// An event flag as its services see it.
#[derive(Clone, Copy)]
pub struct EventFlag {
    created: bool,
    up: bool,
}

impl Model for EventFlag {
    ghost use Rattle.apex_machine.specs.services.EventFlagServices.{EventFlagObject};

    ghost Value = { EventFlagObject };

    ghost view = { λ e. record { created = e.created; up = e.up } };

    ghost inverse = { λ e. record { created = e.created; up = e.up } };
}

impl EventFlag {
    /// An event flag that isn't created yet.
    pub fn new() -> EventFlag
        ensures { result ≡ record { created = false; up = false } }
    {
        EventFlag {
            created: false,
            up: false,
        }
    }

    /// Whether it is created, and whether it is up, from now on.
    pub fn restore(&mut self, created: bool, up: bool)
        ensures { self.new ≡ record self.old { created = created; up = up } }
    {
        self.created = created;
        self.up = up;
    }

    /// Whether it is up.
    pub fn is_up(&self) -> bool
        ensures { result ≡ self.now.up }
    {
        self.up
    }

    /// SET_EVENT: the event flag is up, and all processes that wait for it are woken, the longest
    /// waiter first. INVALID_PARAM if the event flag isn't created.
    pub fn set<S: Store>(&mut self, store: &mut S, id: EventId, notices: &mut Notices) -> Reply
        requires stamps { HasManyStamps (S.roster store.old) }
        requires room { length notices.old ≤ MOST_PROCESSES }
        ensures { Leaves (services.set_event (S.roster store.old) self.old id)
            (S.roster store.new) self.new result notices.old notices.new }
    {
        if !self.created {
            return Reply::Code(ReturnCode::InvalidParam);
        }
        self.up = true;
        grant_all(store, &Queue::EventFlag(id), &None, notices);
        Reply::Code(ReturnCode::NoError)
    }

    /// RESET_EVENT: the event flag is down. INVALID_PARAM if it isn't created.
    pub fn reset<S: Store>(&mut self, store: &S) -> Reply
        ensures { Leaves (services.reset_event (S.roster store.now) self.old)
            (S.roster store.now) self.new result [] [] }
    {
        if !self.created {
            return Reply::Code(ReturnCode::InvalidParam);
        }
        self.up = false;
        Reply::Code(ReturnCode::NoError)
    }

    /// WAIT_EVENT: if the event flag is down the caller waits until the timeout, in ticks, is over.
    /// INVALID_PARAM if the event flag isn't created; INVALID_MODE if the caller owns a mutex and
    /// the timeout isn't 0, or no process calls; NOT_AVAILABLE in place of a wait if the timeout is
    /// 0.
    pub fn wait<S: Store>(
        &self,
        store: &mut S,
        id: EventId,
        caller: &Caller,
        timeout: Timeout,
    ) -> Reply
        requires caller { IsReadyCaller (S.roster store.old) caller.now }
        requires stamps { HasManyStamps (S.roster store.old) }
        requires time { HasTime (S.roster store.old) }
        ensures { Leaves (services.wait_event (S.roster store.old) self.now id caller.now timeout)
            (S.roster store.new) self.now result [] [] }
    {
        if !self.created {
            return Reply::Code(ReturnCode::InvalidParam);
        }
        if is_waiting_owner(store, caller, timeout) {
            return Reply::Code(ReturnCode::InvalidMode);
        }
        match caller {
            Caller::Process(_) if self.up => Reply::Code(ReturnCode::NoError),
            Caller::Process(process) => wait_for(
                store,
                self,
                *process,
                Wait::EventFlag(id),
                timeout,
            ),
            Caller::Init | Caller::Nobody => Reply::Code(ReturnCode::InvalidMode),
        }
    }
}

impl Object for EventFlag {
    type IdKind = EventFlagKind;

    type KindService = EventFlagService;

    ghost use Rattle.apex_machine.specs.services.EventFlagServices.{event_flag_kind};
    ghost use Rattle.apex_machine.specs.processes.Roster.{Roster};
    ghost use Rattle.apex_machine.specs.table.Table.{EventFlagConfig};

    ghost Config = { EventFlagConfig };

    ghost kind = { event_flag_kind };

    ghost IsThere = { λ roster e. Unit {0} };

    fn is_created(&self) -> bool {
        self.created
    }

    fn make(&mut self) {
        self.created = true;
    }

    fn status<S: Store>(&self, store: &S, id: EventId) -> Reply
        ensures { result ≡ services.event_flag_status (S.roster store.now) self.now id }
    {
        let waiting = store.waiting(Queue::EventFlag(id));
        Reply::Status(u32::from(self.up), waiting)
    }

    fn serve<S: Store>(
        &mut self,
        store: &mut S,
        id: EventId,
        caller: &Caller,
        service: &EventFlagService,
        notices: &mut Notices,
    ) -> Reply
        requires caller { IsReadyCaller (S.roster store.old) caller.now }
        requires can { CanServe (S.roster store.old) notices.old }
        ensures { Leaves (services.event_flag_service
            (S.roster store.old) self.old id caller.now service.now)
            (S.roster store.new) self.new result notices.old notices.new }
    {
        match service {
            EventFlagService::Set => self.set(store, id, notices),
            EventFlagService::Reset => self.reset(store),
            EventFlagService::Wait(timeout) => self.wait(store, id, caller, *timeout),
        }
    }
}
