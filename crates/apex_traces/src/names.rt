//! The texts around the name of an object in its counter.
ghost use Rattle.std.specs.Prelude.{◌≡◌, ◌≤◌, ◌++◌, codes, length};
ghost use Rattle.apex_types.specs.declared.limits.TheConstants.{MOST_NAME};
ghost use Rattle.apex_traces.specs.Counters.{kind_word, object_name, unit_word};

use apex_configs::Table;
use apex_moments::Kind;
use apex_names::{blackboard_name, buffer_name, event_flag_name, semaphore_name};
use apex_types::{BlackboardId, BufferId, EventId, SemaphoreId};

/// The name of the object of a kind at a place; no byte if there is no such object.
pub(crate) fn object_name(kind: Kind, table: &Table, place: u8) -> &[u8]
    ensures value { result.now ≡ object_name table.now kind place }
    ensures short { length result.now ≤ MOST_NAME }
{
    match kind {
        Kind::Semaphore => semaphore_name(table, SemaphoreId::at(place)),
        Kind::Buffer => buffer_name(table, BufferId::at(place)),
        Kind::Blackboard => blackboard_name(table, BlackboardId::at(place)),
        Kind::EventFlag => event_flag_name(table, EventId::at(place)),
    }
}

/// What comes before the name in a counter of a kind.
pub(crate) fn front(kind: Kind) -> &'static str
    ensures value { result.now ≡ codes ",\"name\":\"" ++ kind_word kind ++ codes " " }
    ensures short { length result.now ≤ 20 }
{
    match kind {
        Kind::Semaphore => ",\"name\":\"semaphore ",
        Kind::Buffer => ",\"name\":\"buffer ",
        Kind::Blackboard => ",\"name\":\"blackboard ",
        Kind::EventFlag => ",\"name\":\"event ",
    }
}

/// What comes behind the name in a counter of a kind.
pub(crate) fn back(kind: Kind) -> &'static str
    ensures value { result.now
        ≡ codes "\",\"args\":{\"" ++ unit_word kind ++ codes "\":" }
    ensures short { length result.now ≤ 22 }
{
    match kind {
        Kind::Semaphore => "\",\"args\":{\"value\":",
        Kind::Buffer => "\",\"args\":{\"messages\":",
        Kind::Blackboard => "\",\"args\":{\"messages\":",
        Kind::EventFlag => "\",\"args\":{\"up\":",
    }
}
