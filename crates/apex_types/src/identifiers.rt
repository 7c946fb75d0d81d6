//! The numbers of cores, processes and objects.
ghost use Rattle.std.specs.Prelude.{◌≡◌, ◌+◌, ◌<◌};
ghost use Rattle.apex_types.specs.declared.limits.TheConstants.{MOST_CORES};

use std::marker::{Model, PhantomData};

/// A core of the partition, by its number from 0 to 7.
#[derive(Clone, Copy, PartialEq, Eq)]
pub struct CoreId {
    number: u8,
}

impl Model for CoreId {
    ghost use Rattle.std.specs.Prelude.{ℕ, ◌<◌};
    ghost use Rattle.apex_types.specs.declared.limits.TheConstants.{MOST_CORES};

    ghost Value = { ℕ };

    ghost view = { λ c. c.number };

    ghost invariant = { λ c. c.number < MOST_CORES };

    ghost inverse = { λ n. record { number = n } };
}

impl CoreId {
    /// The core of this number.
    pub fn new(number: u8) -> CoreId
        requires { number < MOST_CORES }
        ensures { result ≡ number }
    {
        CoreId { number }
    }

    /// The core's number, from 0 to 7.
    pub fn number(self) -> u8
        ensures value { result ≡ self }
        ensures range { result < MOST_CORES }
    {
        self.number
    }
}

/// A thing of one kind, by its place in the table.
///
/// In contracts it is the place counted from 0; users see [`Id::number`].
#[derive(Clone, Copy, PartialEq, Eq)]
pub struct Id<K> {
    place: u8,
    kind: PhantomData<K>,
}

impl<K> Model for Id<K> {
    ghost use Rattle.std.specs.Prelude.{ℕ};

    ghost Value = { ℕ };

    ghost view = { λ i. i.place };

    ghost inverse = { λ n. record { place = n; kind = record {} } };
}

impl<K> Id<K> {
    /// The thing at this place of the table, counted from 0.
    pub fn at(place: u8) -> Id<K>
        ensures { result ≡ place }
    {
        Id {
            place,
            kind: PhantomData,
        }
    }

    /// The place in the table, counted from 0.
    pub fn place(self) -> usize
        ensures value { result ≡ self }
        ensures range { result < 256 }
    {
        usize::from(self.place)
    }

    /// The id as users see it: the place in the table, counted from 1.
    pub fn number(self) -> u32
        ensures { result ≡ self + 1 }
    {
        u32::from(self.place) + 1
    }
}

/// The kind of an id of a process.
#[derive(Clone, Copy, PartialEq, Eq)]
pub struct ProcessKind;

/// The kind of an id of a semaphore.
#[derive(Clone, Copy, PartialEq, Eq)]
pub struct SemaphoreKind;

/// The kind of an id of a buffer.
#[derive(Clone, Copy, PartialEq, Eq)]
pub struct BufferKind;

/// The kind of an id of a blackboard.
#[derive(Clone, Copy, PartialEq, Eq)]
pub struct BlackboardKind;

/// The kind of an id of an event flag.
#[derive(Clone, Copy, PartialEq, Eq)]
pub struct EventFlagKind;

/// The kind of an id of a mutex.
#[derive(Clone, Copy, PartialEq, Eq)]
pub struct MutexKind;

/// A process of the partition.
pub type ProcessId = Id<ProcessKind>;

/// A semaphore of the partition.
pub type SemaphoreId = Id<SemaphoreKind>;

/// A buffer of the partition.
pub type BufferId = Id<BufferKind>;

/// A blackboard of the partition.
pub type BlackboardId = Id<BlackboardKind>;

/// An event flag, which is up or down: the standard calls it an event. An `Event` is a turn or a tick.
pub type EventId = Id<EventFlagKind>;

/// A mutex of the partition.
pub type MutexId = Id<MutexKind>;
