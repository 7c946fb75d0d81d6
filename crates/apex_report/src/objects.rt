//! The figures of an object.
ghost use Rattle.std.specs.Prelude.{◌≡◌, ◌+◌, ◌*◌, ◌≤◌, [], ◌∷◌, ◌++◌, count_by, length, OnOk};
ghost use Rattle.apex_types.specs.declared.limits.TheConstants.{MOST_ENTRIES, MOST_NOTICES};
ghost use Rattle.apex_machine.specs.services.Satisfied.{is_no_error, is_satisfied};
ghost use Rattle.apex_report.specs.Objects.{initial, is_about, is_given, is_higher, is_late, is_taken, object_figures, queue_at};
ghost use Rattle.apex_report.specs.Concerned.{is_awaited, is_object_concerned, IsLevel};
ghost use Rattle.apex_report.specs.ObjectSteps.{given_by, gives_now, gives_then, object_after, passes, taken_by, takes_now, takes_then, waiters_among, with_content, with_owner, with_queue, IsObjectUpTo, IsOwnerUpTo};
ghost use Rattle.apex_report.specs.Ownerships.{is_longer};
ghost use Rattle.apex_report.specs.Unbeaten.{kept};

use crate::ownerships::{Owner, Ownership, ended_with, is_owner_stopped, owner_after};
use crate::processes::ProcessFigures;
use crate::queues::{is_queue, names};
use crate::waits::Waking;
use apex_configs::Table;
use apex_machine::Queue;
use apex_types::{
    BlackboardId, BufferId, BufferService, Call, EventId, LentEntry, MutexId, ObjectCall, Reply,
    ReturnCode, SemaphoreId, SemaphoreService,
};
use std::alloc::{AllocError, Global};
use std::marker::Model;

/// A count after an entry (this profile).
#[derive(Clone, Copy)]
pub struct Level {
    /// The value of a semaphore, or a number of messages or of waiters.
    pub count: u64,
    /// The number of the entry in the history, counted from 1.
    pub number: u32,
}

/// The figures of an object over a history (this profile). Times are in ticks.
#[derive(Clone, Copy)]
pub struct ObjectFigures {
    /// The object, by its queue.
    pub object: Queue,
    /// The initial value of a semaphore. 0 for other objects.
    pub initial: u16,
    /// The signals of a semaphore, or the messages that a buffer took in.
    pub given: u64,
    /// The waits for a semaphore that were satisfied, or the messages that left a buffer.
    pub taken: u64,
    /// The first of the greatest values of a semaphore, or of the greatest numbers of messages in a
    /// buffer, after an entry.
    pub greatest: Option<Level>,
    /// The first of the longest queues after an entry.
    pub longest_queue: Option<Level>,
    /// The waits for the object that ended with TIMED_OUT.
    pub timeouts: u64,
    /// The owner of a mutex.
    pub owner: Option<Owner>,
    /// The first of the longest ownerships of a mutex that have ended.
    pub longest_ownership: Option<Ownership>,
}

/// A kind of objects.
#[derive(Clone, Copy)]
pub(crate) enum Kind {
    Semaphore,
    Buffer,
    Blackboard,
    EventFlag,
    Mutex,
}

impl Kind {
    /// The queue of the object of this kind at a place of the table.
    pub(crate) fn queue_at(self, place: u8) -> Queue
        ensures { result ≡ queue_at self place }
    {
        match self {
            Kind::Semaphore => Queue::Semaphore(SemaphoreId::at(place)),
            Kind::Buffer => Queue::Buffer(BufferId::at(place)),
            Kind::Blackboard => Queue::Blackboard(BlackboardId::at(place)),
            Kind::EventFlag => Queue::EventFlag(EventId::at(place)),
            Kind::Mutex => Queue::Mutex(MutexId::at(place)),
        }
    }
}

/// What the object of this queue holds before any entry.
fn initial(table: &Table, queue: &Queue) -> u16
    ensures { result ≡ initial table.now queue.now }
{
    match queue {
        Queue::Semaphore(semaphore) if semaphore.place() < table.semaphore_count() => {
            table.semaphore(*semaphore).initial()
        }
        _ => 0,
    }
}

/// The call puts something into the object of this queue.
fn is_given(queue: &Queue, call: &Call) -> bool
    ensures { result ≡ is_given queue.now call.now }
{
    match (queue, call) {
        (
            Queue::Semaphore(_),
            Call::Semaphore(ObjectCall::KindService(_, SemaphoreService::Signal)),
        ) => true,
        (Queue::Buffer(_), Call::Buffer(ObjectCall::KindService(_, BufferService::Send(_, _)))) => {
            true
        }
        _ => false,
    }
}

/// The call takes something out of the object of this queue.
fn is_taken(queue: &Queue, call: &Call) -> bool
    ensures { result ≡ is_taken queue.now call.now }
{
    match (queue, call) {
        (
            Queue::Semaphore(_),
            Call::Semaphore(ObjectCall::KindService(_, SemaphoreService::Wait(_))),
        ) => true,
        (Queue::Buffer(_), Call::Buffer(ObjectCall::KindService(_, BufferService::Receive(_)))) => {
            true
        }
        _ => false,
    }
}

fn passes_given(queue: &Queue, call: &Option<Call>) -> bool
    ensures { result ≡ passes queue.now (is_given queue.now) call.now }
{
    match call {
        Some(call) => names(queue, call) && is_given(queue, call),
        None => false,
    }
}

fn passes_taken(queue: &Queue, call: &Option<Call>) -> bool
    ensures { result ≡ passes queue.now (is_taken queue.now) call.now }
{
    match call {
        Some(call) => names(queue, call) && is_taken(queue, call),
        None => false,
    }
}

fn is_about(queue: &Queue, call: &Option<Call>) -> bool
    ensures { result ≡ is_about queue.now call.now }
{
    match call {
        Some(call) => names(queue, call),
        None => false,
    }
}

fn is_no_error(code: ReturnCode) -> bool
    ensures { result ≡ is_no_error code }
{
    matches!(code, ReturnCode::NoError)
}

fn is_satisfied(reply: &Reply) -> bool
    ensures { result ≡ is_satisfied reply.now }
{
    match reply {
        Reply::Message(_) | Reply::Code(ReturnCode::NoError) => true,
        _ => false,
    }
}

/// The entry's own call is satisfied and puts something in.
fn gives_now(queue: &Queue, entry: &LentEntry<'_>) -> bool
    ensures { result ≡ gives_now queue.now entry.entry.now }
{
    is_satisfied(&entry.reply) && passes_given(queue, &entry.call)
}

/// The process is woken by a call that is satisfied, and puts something in.
fn gives_then(queue: &Queue, waking: &Waking) -> bool
    ensures { result ≡ gives_then queue.now waking.now }
{
    is_no_error(waking.code) && passes_given(queue, &waking.call)
}

/// The entry's own call is satisfied and takes something out.
fn takes_now(queue: &Queue, entry: &LentEntry<'_>) -> bool
    ensures { result ≡ takes_now queue.now entry.entry.now }
{
    is_satisfied(&entry.reply) && passes_taken(queue, &entry.call)
}

/// The process is woken by a call that is satisfied, and takes something out.
fn takes_then(queue: &Queue, waking: &Waking) -> bool
    ensures { result ≡ takes_then queue.now waking.now }
{
    is_no_error(waking.code) && passes_taken(queue, &waking.call)
}

/// The process waited for the object, and was woken with TIMED_OUT.
fn is_late(queue: &Queue, waking: &Waking) -> bool
    ensures { result ≡ is_late queue.now waking.now }
{
    let timed_out = matches!(waking.code, ReturnCode::TimedOut);
    timed_out && is_about(queue, &waking.call)
}

/// What the entry, which wakes these processes, puts in.
fn given_by(queue: &Queue, entry: &LentEntry<'_>, wakings: &[Waking]) -> u64
    requires { length wakings.now ≤ MOST_NOTICES }
    ensures value { result ≡ given_by queue.now entry.entry.now wakings.now }
    ensures range { result ≤ 1 + MOST_NOTICES }
{
    let given = wakings
        .iter()
        .filter(|waking| gives_then(queue, waking))
        .count() as u64;
    u64::from(gives_now(queue, entry)) + given
}

/// What the entry, which wakes these processes, takes out.
fn taken_by(queue: &Queue, entry: &LentEntry<'_>, wakings: &[Waking]) -> u64
    requires { length wakings.now ≤ MOST_NOTICES }
    ensures value { result ≡ taken_by queue.now entry.entry.now wakings.now }
    ensures range { result ≤ 1 + MOST_NOTICES }
{
    let taken = wakings
        .iter()
        .filter(|waking| takes_then(queue, waking))
        .count() as u64;
    u64::from(takes_now(queue, entry)) + taken
}

/// The number of these processes that waited for the object, and were woken with TIMED_OUT.
fn late_among(queue: &Queue, wakings: &[Waking]) -> u64
    requires { length wakings.now ≤ MOST_NOTICES }
    ensures value { result ≡ count_by (is_late queue.now) wakings.now }
    ensures range { result ≤ MOST_NOTICES }
{
    wakings
        .iter()
        .filter(|waking| is_late(queue, waking))
        .count() as u64
}

/// The higher of two levels: the second one only if its count is greater.
fn higher(highest: Option<Level>, level: Level) -> Option<Level>
    ensures { result ≡ kept is_higher highest level }
{
    match highest {
        Some(highest) if level.count <= highest.count => Some(highest),
        _ => Some(level),
    }
}

/// The longer of two ownerships: the second one only if it is longer.
fn longer(longest: Option<Ownership>, ownership: Ownership) -> Option<Ownership>
    ensures { result ≡ kept is_longer longest ownership }
{
    match longest {
        Some(longest) if ownership.held_ticks() <= longest.held_ticks() => Some(longest),
        _ => Some(ownership),
    }
}

/// One of these processes waited for the object.
fn is_awaited(queue: &Queue, wakings: &[Waking]) -> bool
    ensures { result ≡ is_awaited queue.now wakings.now }
{
    wakings.iter().any(|waking| is_about(queue, &waking.call))
}

/// The number of these processes that wait in the queue.
fn waiters_among(queue: &Queue, processes: &[ProcessFigures]) -> u64
    ensures { result ≡ waiters_among queue.now processes.now }
{
    processes
        .iter()
        .filter(|figures| is_queue(queue, &figures.waits_in))
        .count() as u64
}

impl ObjectFigures {
    /// The figures of an object of the table before any entry.
    pub(crate) fn before(table: &Table, object: Queue) -> ObjectFigures
        ensures { result ≡ object_figures table.now [] object }
    {
        ObjectFigures {
            object,
            initial: initial(table, &object),
            given: 0,
            taken: 0,
            greatest: None,
            longest_queue: None,
            timeouts: 0,
            owner: None,
            longest_ownership: None,
        }
    }

    /// Notes what the entry puts in and takes out.
    fn note_content(&mut self, entry: &LentEntry<'_>, wakings: &[Waking])
        requires up_to { IsObjectUpTo MOST_ENTRIES self.old }
        requires few { length wakings.now ≤ MOST_NOTICES }
        ensures { self.new ≡ with_content entry.entry.now wakings.now self.old }
    {
        self.given += given_by(&self.object, entry, wakings);
        self.taken += taken_by(&self.object, entry, wakings);
        let level = Level {
            count: (u64::from(self.initial) + self.given).saturating_sub(self.taken),
            number: entry.number,
        };
        self.greatest = higher(self.greatest, level);
    }

    /// Notes the queue after the entry, and its waits that time out. The figures of the processes are
    /// those after the entry.
    fn note_queue(
        &mut self,
        entry: &LentEntry<'_>,
        wakings: &[Waking],
        processes: &[ProcessFigures],
    )
        requires up_to { self.old.timeouts ≤ MOST_ENTRIES * MOST_NOTICES }
        requires few { length wakings.now ≤ MOST_NOTICES }
        ensures { self.new ≡ with_queue entry.entry.now wakings.now processes.now self.old }
    {
        self.timeouts += late_among(&self.object, wakings);
        let level = Level {
            count: waiters_among(&self.object, processes),
            number: entry.number,
        };
        self.longest_queue = higher(self.longest_queue, level);
    }

    /// Notes the end of an ownership, and the owner after the entry.
    fn note_owner(&mut self, entry: &LentEntry<'_>, wakings: &[Waking])
        requires { IsOwnerUpTo MOST_ENTRIES self.old.owner }
        ensures { self.new ≡ with_owner entry.entry.now wakings.now self.old }
    {
        if let Some(ownership) = ended_with(&self.object, entry, &self.owner) {
            self.longest_ownership = longer(self.longest_ownership, ownership);
        }
        self.owner = owner_after(&self.object, entry, wakings, &self.owner);
    }

    /// The entry, which wakes these processes, may change a figure of the object: it is the first one,
    /// its call names the object, a process is woken that waited for it, or its owner is stopped.
    fn is_concerned(&self, entry: &LentEntry<'_>, wakings: &[Waking]) -> bool
        ensures { result ≡ is_object_concerned entry.entry.now wakings.now self.now }
    {
        self.greatest.is_none()
            || self.longest_queue.is_none()
            || is_about(&self.object, &entry.call)
            || is_awaited(&self.object, wakings)
            || is_owner_stopped(&self.owner, entry)
    }

    /// Notes the content, the queue and the owner after the entry, which wakes these processes. The figures
    /// of the processes are those after the entry.
    fn note_concerned(
        &mut self,
        entry: &LentEntry<'_>,
        wakings: &[Waking],
        processes: &[ProcessFigures],
    )
        requires up_to { IsObjectUpTo MOST_ENTRIES self.old }
        requires few { length wakings.now ≤ MOST_NOTICES }
        ensures { self.new ≡ object_after entry.entry.now wakings.now processes.now self.old }
    {
        self.note_content(entry, wakings);
        self.note_queue(entry, wakings, processes);
        self.note_owner(entry, wakings);
    }

    /// Notes what the entry, which wakes these processes, says of the object: nothing if it does not concern
    /// the object. The figures of the processes are those after the entry.
    #[tactic(auto, using(crate::proofs::UnconcernedObjects::object_kept))]
    pub(crate) fn note(
        &mut self,
        entry: &LentEntry<'_>,
        wakings: &[Waking],
        processes: &[ProcessFigures],
    )
        requires up_to { IsObjectUpTo MOST_ENTRIES self.old }
        requires few { length wakings.now ≤ MOST_NOTICES }
        requires level { IsLevel entry.now processes.now self.old }
        ensures { self.new ≡ object_after entry.entry.now wakings.now processes.now self.old }
    {
        if self.is_concerned(entry, wakings) {
            self.note_concerned(entry, wakings, processes);
        }
    }
}

/// The figures of objects, as they are put together.
#[derive(Drop)]
pub(crate) struct ObjectList {
    figures: Vec<ObjectFigures>,
}

impl Model for ObjectList {
    ghost use Rattle.std.specs.Prelude.{List};
    ghost use Rattle.apex_report.specs.declared.objects.ObjectFigures.{ObjectFigures};

    ghost Value = { List ObjectFigures };

    ghost view = { λ l. l.figures.items };
}

impl ObjectList {
    pub(crate) fn new(alloc: Global) -> ObjectList
        ensures { result ≡ [] }
    {
        ObjectList {
            figures: Vec::new(alloc),
        }
    }

    pub(crate) fn push(&mut self, figures: ObjectFigures) -> Result<(), AllocError>
        ensures { OnOk result (self.new ≡ self.old ++ figures ∷ []) }
    {
        // The prover finds these types only if the function names them.
        let _parts: Option<(Queue, Level, Owner, Ownership)> = None;
        self.figures.push(figures)?;
        Ok(())
    }

    pub(crate) fn into_vec(self) -> Vec<ObjectFigures>
        ensures { result.items ≡ self }
    {
        self.figures
    }
}
