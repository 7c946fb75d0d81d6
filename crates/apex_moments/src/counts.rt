//! What the objects of a partition hold: a count of each object of four kinds, and the owner of each
//! mutex.
ghost use Rattle.std.specs.Prelude.{◌≡◌};
ghost use Rattle.apex_moments.specs.Counts.{counts_in, counts_of, owners_in};

use crate::kinds::Kind;
use apex_configs::Table;
use apex_services::Objects;
use apex_store::Store;
use apex_types::{MOST_OBJECTS, MutexId, ProcessId};
use arrayvec::ArrayVec;
use std::marker::Model;

/// What the objects of a partition hold: a value for each semaphore, a number of messages for each
/// buffer and each blackboard, 1 for each event flag that is up and 0 for the others, and the owner
/// of each mutex. They are created or not.
#[derive(Drop)]
pub struct Counts {
    /// The value of each semaphore.
    pub values: ArrayVec<u64, MOST_OBJECTS>,
    /// The number of messages in each buffer.
    pub contents: ArrayVec<u64, MOST_OBJECTS>,
    /// 1 for each blackboard that displays a message, and 0 for the others.
    pub displays: ArrayVec<u64, MOST_OBJECTS>,
    /// 1 for each event flag that is up, and 0 for the others.
    pub flags: ArrayVec<u64, MOST_OBJECTS>,
    /// The owner of each mutex.
    pub owners: ArrayVec<Option<ProcessId>, MOST_OBJECTS>,
}

impl Model for Counts {
    ghost use Rattle.apex_moments.specs.Counts.{Counts};

    ghost Value = { Counts };

    ghost view = { λ c. record {
      values = c.values.items;
      contents = c.contents.items;
      displays = c.displays.items;
      flags = c.flags.items;
      owners = c.owners.items;
    } };
}

/// The counts of all objects of a kind.
fn counts_in(table: &Table, objects: &Objects, kind: Kind) -> ArrayVec<u64, MOST_OBJECTS>
    ensures { result.items ≡ counts_in table.now objects.now kind }
{
    let mut counts = ArrayVec::new();
    for place in 0..kind.object_count(table) {
        counts.push(kind.count_of(objects, place as u8));
    }
    counts
}

/// The owner of each mutex.
fn owners_in<S: Store>(table: &Table, store: &S) -> ArrayVec<Option<ProcessId>, MOST_OBJECTS>
    ensures { result.items ≡ owners_in table.now (S.roster store.now) }
{
    let mut owners = ArrayVec::new();
    for place in 0..table.mutex_count() {
        owners.push(store.owner(MutexId::at(place as u8)));
    }
    owners
}

/// The counts of these objects, and the owners of the mutexes.
#[tactic(auto, unfolding(crate::specs::Counts::counts_of))]
pub fn counts_of<S: Store>(table: &Table, objects: &Objects, store: &S) -> Counts
    ensures { result ≡ counts_of table.now (S.roster store.now) objects.now }
{
    Counts {
        values: counts_in(table, objects, Kind::Semaphore),
        contents: counts_in(table, objects, Kind::Buffer),
        displays: counts_in(table, objects, Kind::Blackboard),
        flags: counts_in(table, objects, Kind::EventFlag),
        owners: owners_in(table, store),
    }
}
