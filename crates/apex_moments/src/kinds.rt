//! The kinds of objects that have a count.
ghost use Rattle.std.specs.Prelude.{◌≡◌, ◌≤◌};
ghost use Rattle.apex_types.specs.declared.limits.TheConstants.{MOST_OBJECTS};
ghost use Rattle.apex_moments.specs.Counts.{content_of, count_of, displayed_on, object_count, raised_of, value_of};

use apex_configs::Table;
use apex_services::Objects;
use apex_store::Object;
use apex_types::{BlackboardId, BufferId, EventId, SemaphoreId};

/// A kind of objects that have a count.
#[derive(Clone, Copy)]
pub enum Kind {
    /// Its count is the value, and 0 before it is created.
    Semaphore,
    /// Its count is the number of messages.
    Buffer,
    /// Its count is 1 if the blackboard displays a message, and else 0.
    Blackboard,
    /// Its count is 1 if the event flag is up, and else 0.
    EventFlag,
}

/// The value of a semaphore; 0 if there is no such semaphore, or if it is not created.
#[inline(always)]
pub fn value_of(objects: &Objects, semaphore: SemaphoreId) -> u64
    ensures { result ≡ value_of objects.now semaphore }
{
    match objects.semaphores.get(semaphore.place()) {
        Some(semaphore) => {
            if semaphore.is_created() {
                u64::from(semaphore.value())
            } else {
                0
            }
        }
        None => 0,
    }
}

/// The number of messages in a buffer; 0 if there is no such buffer.
#[inline(always)]
pub fn content_of(objects: &Objects, buffer: BufferId) -> u64
    ensures { result ≡ content_of objects.now buffer }
{
    match objects.buffers.get(buffer.place()) {
        Some(buffer) => buffer.messages().len() as u64,
        None => 0,
    }
}

/// The number of messages that a blackboard displays: 1 or 0.
#[inline(always)]
pub fn displayed_on(objects: &Objects, blackboard: BlackboardId) -> u64
    ensures { result ≡ displayed_on objects.now blackboard }
{
    match objects.blackboards.get(blackboard.place()) {
        Some(blackboard) => u64::from(blackboard.message().is_some()),
        None => 0,
    }
}

/// 1 if an event flag is up, and else 0.
#[inline(always)]
pub fn raised_of(objects: &Objects, event: EventId) -> u64
    ensures { result ≡ raised_of objects.now event }
{
    match objects.event_flags.get(event.place()) {
        Some(event) => u64::from(event.is_up()),
        None => 0,
    }
}

impl Kind {
    /// The number of its objects that a table has.
    #[inline(always)]
    pub fn object_count(self, table: &Table) -> usize
        ensures value { result ≡ object_count table.now self }
        ensures range { result ≤ MOST_OBJECTS }
    {
        match self {
            Kind::Semaphore => table.semaphore_count(),
            Kind::Buffer => table.buffer_count(),
            Kind::Blackboard => table.blackboard_count(),
            Kind::EventFlag => table.event_flag_count(),
        }
    }

    /// The count of its object at a place; 0 if there is no such object.
    #[inline(always)]
    pub fn count_of(self, objects: &Objects, place: u8) -> u64
        ensures { result ≡ count_of objects.now self place }
    {
        match self {
            Kind::Semaphore => value_of(objects, SemaphoreId::at(place)),
            Kind::Buffer => content_of(objects, BufferId::at(place)),
            Kind::Blackboard => displayed_on(objects, BlackboardId::at(place)),
            Kind::EventFlag => raised_of(objects, EventId::at(place)),
        }
    }
}
