//! The blackboard as its services see it, and the services that blackboards alone have.
ghost use Rattle.std.specs.Prelude.{◌≡◌, ◌≤◌, [], length, false, None};
ghost use Rattle.apex_types.specs.declared.limits.TheConstants.{MOST_PROCESSES};
ghost use Rattle.apex_machine.specs.services.BlackboardServices as services;
ghost use Rattle.apex_machine.specs.services.Callers.{IsReadyCaller};
ghost use Rattle.apex_machine.specs.processes.Dues.{HasTime};
ghost use Rattle.apex_machine.specs.processes.Roster.{Roster};
ghost use Rattle.apex_machine.specs.services.Rows.{Leaves};
ghost use Rattle.apex_machine.specs.services.Premises.{CanServe};
ghost use Rattle.apex_machine.specs.processes.Stamps.{HasManyStamps};

use apex_machine::{Queue, Wait};
use apex_store::{Object, Store, grant_all, is_unfit, is_waiting_owner, wait_for};
use apex_types::{
    BlackboardId, BlackboardKind, BlackboardService, Caller, Message, Notices, Reply, ReturnCode,
    Timeout,
};
use std::marker::Model;

/// A blackboard as its services see it.
#[derive(Clone, Copy)]
pub struct Blackboard {
    longest: u8,
    created: bool,
    message: Option<Message>,
}

impl Model for Blackboard {
    ghost use Rattle.apex_machine.specs.services.BlackboardServices.{BlackboardObject};

    ghost Value = { BlackboardObject };

    ghost view = { λ b. record { longest = b.longest; created = b.created; message = b.message } };

    ghost inverse = { λ b. record { longest = b.longest; created = b.created; message = b.message } };
}

impl Blackboard {
    /// A blackboard that isn't created yet, for messages of up to `longest` bytes.
    pub fn new(longest: u8) -> Blackboard
        ensures { result ≡ record { longest = longest; created = false; message = None } }
    {
        Blackboard {
            longest,
            created: false,
            message: None,
        }
    }

    /// Whether it is created, and its message, from now on.
    pub fn restore(&mut self, created: bool, message: Option<Message>)
        ensures { self.new ≡ record self.old { created = created; message = message } }
    {
        self.created = created;
        self.message = message;
    }

    /// The message that it holds, if any.
    pub fn message(&self) -> Option<Message>
        ensures { result ≡ self.now.message }
    {
        self.message
    }

    /// DISPLAY_BLACKBOARD: the message replaces the old one, and all processes that wait for one
    /// get it, the longest waiter first. INVALID_PARAM if the blackboard isn't created or the
    /// message is empty or too long.
    pub fn display<S: Store>(
        &mut self,
        store: &mut S,
        id: BlackboardId,
        message: Message,
        notices: &mut Notices,
    ) -> Reply
        requires stamps { HasManyStamps (S.roster store.old) }
        requires room { length notices.old ≤ MOST_PROCESSES }
        ensures { Leaves (services.display_blackboard (S.roster store.old) self.old id message)
            (S.roster store.new) self.new result notices.old notices.new }
    {
        if !self.created || is_unfit(self.longest, &message) {
            return Reply::Code(ReturnCode::InvalidParam);
        }
        self.message = Some(message);
        grant_all(store, &Queue::Blackboard(id), &self.message, notices);
        Reply::Code(ReturnCode::NoError)
    }

    /// READ_BLACKBOARD: the caller gets the message; if there is none it waits until the timeout,
    /// in ticks, is over. INVALID_PARAM if the blackboard isn't created; INVALID_MODE if the caller
    /// owns a mutex and the timeout isn't 0, or no process calls; NOT_AVAILABLE in place of a wait
    /// if the timeout is 0.
    pub fn read<S: Store>(
        &self,
        store: &mut S,
        id: BlackboardId,
        caller: &Caller,
        timeout: Timeout,
    ) -> Reply
        requires caller { IsReadyCaller (S.roster store.old) caller.now }
        requires stamps { HasManyStamps (S.roster store.old) }
        requires time { HasTime (S.roster store.old) }
        ensures { Leaves (services.read_blackboard
            (S.roster store.old) self.now id caller.now timeout)
            (S.roster store.new) self.now result [] [] }
    {
        if !self.created {
            return Reply::Code(ReturnCode::InvalidParam);
        }
        if is_waiting_owner(store, caller, timeout) {
            return Reply::Code(ReturnCode::InvalidMode);
        }
        let Caller::Process(process) = caller else {
            return Reply::Code(ReturnCode::InvalidMode);
        };
        match self.message {
            Some(message) => {
                let shown = message;
                store.receive(*process, message);
                Reply::Message(shown)
            }
            None => wait_for(store, self, *process, Wait::Blackboard(id), timeout),
        }
    }

    /// CLEAR_BLACKBOARD: the blackboard holds no message. INVALID_PARAM if it isn't created.
    pub fn clear<S: Store>(&mut self, store: &S) -> Reply
        ensures { Leaves (services.clear_blackboard (S.roster store.now) self.old)
            (S.roster store.now) self.new result [] [] }
    {
        if !self.created {
            return Reply::Code(ReturnCode::InvalidParam);
        }
        self.message = None;
        Reply::Code(ReturnCode::NoError)
    }
}

impl Object for Blackboard {
    type IdKind = BlackboardKind;

    type KindService = BlackboardService;

    ghost use Rattle.apex_machine.specs.services.BlackboardServices.{blackboard_kind};
    ghost use Rattle.apex_machine.specs.processes.Roster.{Roster};
    ghost use Rattle.apex_machine.specs.table.Table.{BlackboardConfig};

    ghost Config = { BlackboardConfig };

    ghost kind = { blackboard_kind };

    ghost IsThere = { λ roster b. Unit {0} };

    fn is_created(&self) -> bool {
        self.created
    }

    fn make(&mut self) {
        self.created = true;
    }

    fn status<S: Store>(&self, store: &S, id: BlackboardId) -> Reply
        ensures { result ≡ services.blackboard_status (S.roster store.now) self.now id }
    {
        let waiting = store.waiting(Queue::Blackboard(id));
        Reply::Status(u32::from(self.message.is_some()), waiting)
    }

    fn serve<S: Store>(
        &mut self,
        store: &mut S,
        id: BlackboardId,
        caller: &Caller,
        service: &BlackboardService,
        notices: &mut Notices,
    ) -> Reply
        requires caller { IsReadyCaller (S.roster store.old) caller.now }
        requires can { CanServe (S.roster store.old) notices.old }
        ensures { Leaves (services.blackboard_service
            (S.roster store.old) self.old id caller.now service.now)
            (S.roster store.new) self.new result notices.old notices.new }
    {
        match service {
            BlackboardService::Display(message) => self.display(store, id, *message, notices),
            BlackboardService::Read(timeout) => self.read(store, id, caller, *timeout),
            BlackboardService::Clear => self.clear(store),
        }
    }
}
