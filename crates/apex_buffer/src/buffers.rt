//! The buffer as its services see it, with its messages and the services that buffers alone have.
ghost use Rattle.std.specs.Prelude.{◌≡◌, ◌<◌, ◌≤◌, [], ◌∷◌, length, false, IfNone, IfSome, OnSome};
ghost use Rattle.apex_types.specs.declared.limits.TheConstants.{MOST_MESSAGES, MOST_PROCESSES};
ghost use Rattle.apex_machine.specs.services.BufferServices as services;
ghost use Rattle.apex_machine.specs.services.Callers.{IsReady, IsReadyCaller};
ghost use Rattle.apex_machine.specs.processes.Dues.{HasTime};
ghost use Rattle.apex_machine.specs.processes.Roster.{Roster};
ghost use Rattle.apex_machine.specs.services.Rows.{Leaves};
ghost use Rattle.apex_machine.specs.services.Premises.{CanServe};
ghost use Rattle.apex_machine.specs.processes.Stamps.{HasManyStamps};
ghost use Rattle.apex_machine.specs.processes.Waiters.{first_waiter};
ghost use Rattle.apex_machine.specs.declared.records.Queue.TheVariants as queues;

use apex_machine::{Queue, Wait};
use apex_store::{Object, Store, grant, is_unfit, is_waiting_owner, wait_for};
use apex_types::{
    BufferId, BufferKind, BufferService, Caller, MOST_MESSAGES, Message, Notices, ProcessId, Reply,
    ReturnCode, Timeout,
};
use arrayvec::ArrayVec;
use std::marker::Model;

/// A buffer as its services see it.
#[derive(Drop)]
pub struct Buffer {
    longest: u8,
    capacity: u8,
    created: bool,
    messages: ArrayVec<Message, MOST_MESSAGES>,
}

impl Model for Buffer {
    ghost use Rattle.std.specs.Prelude.{◌≤◌};
    ghost use Rattle.apex_types.specs.declared.limits.TheConstants.{MOST_MESSAGES};
    ghost use Rattle.apex_machine.specs.services.BufferServices.{BufferObject};

    ghost Value = { BufferObject };

    ghost view = { λ b. record {
      longest = b.longest;
      capacity = b.capacity;
      created = b.created;
      messages = b.messages.items;
    } };

    ghost invariant = { λ b. b.capacity ≤ MOST_MESSAGES };
}

/// The process waits for a message of a buffer.
fn is_receiver(wait: Option<Wait>) -> bool
    ensures { result ≡ services.is_receiver wait }
{
    match wait {
        Some(Wait::Receive(_)) => true,
        _ => false,
    }
}

/// The message with which the process waits for room in a buffer.
fn held_back(wait: Option<Wait>) -> Option<Message>
    ensures { result ≡ services.held_back wait }
{
    match wait {
        Some(Wait::Send(_, message)) => Some(message),
        _ => None,
    }
}

impl Buffer {
    /// A buffer that isn't created yet, for messages of up to `longest` bytes, and for as many of
    /// them as its capacity.
    pub fn new(longest: u8, capacity: u8) -> Buffer
        requires { capacity ≤ MOST_MESSAGES }
        ensures { result ≡ record {
          longest = longest;
          capacity = capacity;
          created = false;
          messages = [];
        } }
    {
        Buffer {
            longest,
            capacity,
            created: false,
            messages: ArrayVec::new(),
        }
    }

    /// Whether it is created, and its messages, from now on.
    pub fn restore(&mut self, created: bool, messages: ArrayVec<Message, MOST_MESSAGES>)
        ensures { self.new ≡ record self.old { created = created; messages = messages.items } }
    {
        self.created = created;
        self.messages = messages;
    }

    /// The messages that it holds, the first one first.
    pub fn messages(&self) -> &[Message]
        ensures value { result.now ≡ self.now.messages }
        ensures few_messages { length result.now ≤ MOST_MESSAGES }
    {
        self.messages.as_slice()
    }

    /// The message goes last if there is room, else the process, which calls, waits with it until
    /// the timeout, in ticks, is over.
    fn send_last<S: Store>(
        &mut self,
        store: &mut S,
        id: BufferId,
        process: ProcessId,
        message: Message,
        timeout: Timeout,
    ) -> Reply
        requires ready { IsReady (S.roster store.old) process }
        requires stamps { HasManyStamps (S.roster store.old) }
        requires time { HasTime (S.roster store.old) }
        ensures { Leaves (services.send_last
            (S.roster store.old) self.old id process message timeout)
            (S.roster store.new) self.new result [] [] }
    {
        if self.messages.len() < usize::from(self.capacity) {
            self.messages.push(message);
            return Reply::Code(ReturnCode::NoError);
        }
        wait_for(store, self, process, Wait::Send(id, message), timeout)
    }

    /// SEND_BUFFER: a waiting receiver gets the message, else it goes last if there is room, else
    /// the caller waits with it until the timeout, in ticks, is over. INVALID_PARAM if the buffer
    /// isn't created or the message is empty or too long; INVALID_MODE if the caller owns a mutex
    /// and the timeout isn't 0, or no process calls; NOT_AVAILABLE in place of a wait if the
    /// timeout is 0.
    pub fn send<S: Store>(
        &mut self,
        store: &mut S,
        id: BufferId,
        caller: &Caller,
        message: Message,
        timeout: Timeout,
        notices: &mut Notices,
    ) -> Reply
        requires caller { IsReadyCaller (S.roster store.old) caller.now }
        requires can { CanServe (S.roster store.old) notices.old }
        ensures { Leaves (services.send_buffer
            (S.roster store.old) self.old id caller.now message timeout)
            (S.roster store.new) self.new result notices.old notices.new }
    {
        if !self.created || is_unfit(self.longest, &message) {
            return Reply::Code(ReturnCode::InvalidParam);
        }
        if is_waiting_owner(store, caller, timeout) {
            return Reply::Code(ReturnCode::InvalidMode);
        }
        let Caller::Process(process) = caller else {
            return Reply::Code(ReturnCode::InvalidMode);
        };
        match store.first(Queue::Buffer(id)) {
            Some(waiter) if is_receiver(store.record(waiter).wait) => {
                grant(store, waiter, &Some(message), notices);
                Reply::Code(ReturnCode::NoError)
            }
            _ => self.send_last(store, id, *process, message, timeout),
        }
    }

    /// Takes the first message out, if there is one.
    fn take_first(&mut self) -> Option<Message>
        ensures taken { OnSome result
            (self.new ≡ record self.old { messages = self.new.messages }) }
        ensures first { IfSome result (λ m. self.old.messages ≡ m ∷ self.new.messages) }
        ensures room { OnSome result (length self.new.messages < MOST_MESSAGES) }
        ensures empty { IfNone result (self.old.messages ≡ []) }
        ensures kept { IfNone result (self.new ≡ self.old) }
    {
        if self.messages.as_slice().is_empty() {
            None
        } else {
            Some(self.messages.remove(0))
        }
    }

    /// Answers this message. If the first waiter is a sender, its message goes last, and it is
    /// woken.
    fn take_in<S: Store>(
        &mut self,
        store: &mut S,
        id: BufferId,
        message: &Message,
        notices: &mut Notices,
    ) -> Reply
        requires space { length self.old.messages < MOST_MESSAGES }
        requires stamps { HasManyStamps (S.roster store.old) }
        requires room { length notices.old ≤ MOST_PROCESSES }
        ensures { Leaves (services.received (S.roster store.old) self.old message.now
            (first_waiter (S.roster store.old) (queues.Buffer id)))
            (S.roster store.new) self.new result notices.old notices.new }
    {
        if let Some(waiter) = store.first(Queue::Buffer(id)) {
            if let Some(held) = held_back(store.record(waiter).wait) {
                self.messages.push(held);
                grant(store, waiter, &None, notices);
            }
        }
        Reply::Message(*message)
    }

    /// RECEIVE_BUFFER: the caller gets the first message, and then that of the first waiting sender
    /// goes last; if there is no message the caller waits until the timeout, in ticks, is over.
    /// INVALID_PARAM if the buffer isn't created; INVALID_MODE if the caller owns a mutex and the
    /// timeout isn't 0, or no process calls; NOT_AVAILABLE in place of a wait if the timeout is 0.
    pub fn receive<S: Store>(
        &mut self,
        store: &mut S,
        id: BufferId,
        caller: &Caller,
        timeout: Timeout,
        notices: &mut Notices,
    ) -> Reply
        requires caller { IsReadyCaller (S.roster store.old) caller.now }
        requires can { CanServe (S.roster store.old) notices.old }
        ensures { Leaves (services.receive_buffer
            (S.roster store.old) self.old id caller.now timeout)
            (S.roster store.new) self.new result notices.old notices.new }
    {
        if !self.created {
            return Reply::Code(ReturnCode::InvalidParam);
        }
        if is_waiting_owner(store, caller, timeout) {
            return Reply::Code(ReturnCode::InvalidMode);
        }
        let Caller::Process(process) = caller else {
            return Reply::Code(ReturnCode::InvalidMode);
        };
        match self.take_first() {
            Some(message) => {
                store.receive(*process, message);
                self.take_in(store, id, &message, notices)
            }
            None => wait_for(store, self, *process, Wait::Receive(id), timeout),
        }
    }
}

impl Object for Buffer {
    type IdKind = BufferKind;

    type KindService = BufferService;

    ghost use Rattle.apex_machine.specs.processes.Roster.{Roster};
    ghost use Rattle.apex_machine.specs.services.BufferServices.{buffer_kind};
    ghost use Rattle.apex_machine.specs.table.Table.{BufferConfig};

    ghost Config = { BufferConfig };

    ghost kind = { buffer_kind };

    ghost IsThere = { λ roster b. Unit {0} };

    fn is_created(&self) -> bool {
        self.created
    }

    fn make(&mut self) {
        self.created = true;
    }

    fn status<S: Store>(&self, store: &S, id: BufferId) -> Reply
        ensures { result ≡ services.buffer_status (S.roster store.now) self.now id }
    {
        let waiting = store.waiting(Queue::Buffer(id));
        Reply::Status(self.messages.len() as u32, waiting)
    }

    fn serve<S: Store>(
        &mut self,
        store: &mut S,
        id: BufferId,
        caller: &Caller,
        service: &BufferService,
        notices: &mut Notices,
    ) -> Reply
        requires caller { IsReadyCaller (S.roster store.old) caller.now }
        requires can { CanServe (S.roster store.old) notices.old }
        ensures { Leaves (services.buffer_service
            (S.roster store.old) self.old id caller.now service.now)
            (S.roster store.new) self.new result notices.old notices.new }
    {
        match service {
            BufferService::Send(message, timeout) => {
                self.send(store, id, caller, *message, *timeout, notices)
            }
            BufferService::Receive(timeout) => self.receive(store, id, caller, *timeout, notices),
        }
    }
}
