//! The changes of what the objects hold: of the counters, and on the tracks of the mutexes.
ghost use Rattle.std.specs.Prelude.{◌≡◌, ◌+◌, ◌*◌, ◌≤◌, ◌++◌, slice_get};
ghost use Rattle.arrayvec.specs.ArrayVec.{array_vec_len};
ghost use Rattle.apex_types.specs.declared.limits.TheConstants.{MOST_OBJECTS};
ghost use Rattle.apex_moments.specs.Counts.{HasCounts, counts_of};
ghost use Rattle.apex_traces.specs.Trace.{objects_text};
ghost use Rattle.apex_traces.specs.declared.pieces.TheConstants.{COUNTER, PIECE_ROOM, TRACK};

use crate::counters::add_kind;
use crate::mutexes::add_mutexes;
use crate::pieces::{COUNTER, Piece, TRACK};
use crate::stamps::Timed;
use apex_configs::Table;
use apex_moments::{Counts, Kind};
use apex_services::Objects;
use apex_store::Store;
use apex_types::MOST_OBJECTS;

/// The count at a place.
#[inline(always)]
pub(crate) fn count_at(counts: &[u64], place: usize) -> Option<u64>
    ensures { result ≡ slice_get counts.now place }
{
    counts.get(place).copied()
}

/// Brings the counts up to these objects and the owners of the mutexes, and adds the counters
/// and the changes on the tracks of the mutexes.
#[inline(never)]
pub(crate) fn add_changes<S: Store>(
    counts: &mut Counts,
    piece: &mut Piece,
    table: &Table,
    objects: &Objects,
    store: &S,
    time: u64,
    stamp: &Timed,
)
    requires stamp { stamp.now ≡ time }
    requires counts { HasCounts counts.old table.now }
    requires room { array_vec_len piece.old + COUNTER * 4 * MOST_OBJECTS + TRACK * MOST_OBJECTS
        ≤ PIECE_ROOM }
    ensures text { piece.new.items ≡ piece.old.items
        ++ objects_text table.now time counts.old
        (counts_of table.now (S.roster store.now) objects.now) }
    ensures counts { counts.new ≡ counts_of table.now (S.roster store.now) objects.now }
    ensures short { array_vec_len piece.new
        ≤ array_vec_len piece.old + COUNTER * 4 * MOST_OBJECTS + TRACK * MOST_OBJECTS }
{
    let values = counts.values.as_mut_slice();
    add_kind(piece, table, objects, time, stamp, Kind::Semaphore, values);
    let contents = counts.contents.as_mut_slice();
    add_kind(piece, table, objects, time, stamp, Kind::Buffer, contents);
    let displays = counts.displays.as_mut_slice();
    add_kind(
        piece,
        table,
        objects,
        time,
        stamp,
        Kind::Blackboard,
        displays,
    );
    let flags = counts.flags.as_mut_slice();
    add_kind(piece, table, objects, time, stamp, Kind::EventFlag, flags);
    let owners = counts.owners.as_mut_slice();
    add_mutexes(piece, table, store, time, stamp, owners);
}
