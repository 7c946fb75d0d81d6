//! The tracks of the mutexes in a trace: a slice lasts as long as a process owns the mutex.
ghost use Rattle.std.specs.Prelude.{◌≡◌, ◌+◌, ◌*◌, ◌≤◌, ◌++◌, [], is_some, length, slice_index_or, None, OnOk};
ghost use Rattle.arrayvec.specs.ArrayVec.{array_vec_len};
ghost use Rattle.apex_machine.specs.text.Listing.{texts_of};
ghost use Rattle.apex_types.specs.declared.limits.TheConstants.{MOST_OBJECTS};
ghost use Rattle.apex_moments.specs.Counts.{owners_in};
ghost use Rattle.apex_traces.specs.Stamps.{Stamps};
ghost use Rattle.apex_traces.specs.Trace as trace;
ghost use Rattle.apex_traces.specs.declared.pieces.TheConstants.{PIECE_ROOM, TRACK};
ghost use Rattle.apex_traces.specs.declared.trace.TheConstants.{BEGIN, NAME};

use crate::escapes::add_escaped;
use crate::pieces::{Piece, TRACK, add_text};
use crate::stamps::Timed;
use crate::trace::{BEGIN, NAME, Spot, add_begin, add_ended, mutex_spot};
use apex_configs::Table;
use apex_moments::{Part, id_part, is_same_process, put_all};
use apex_names::{mutex_name, process_name};
use apex_store::Store;
use apex_types::{MutexId, ProcessId};
use std::alloc::AllocError;

/// Puts the name of a mutex's track, and its place among those of the mutexes.
fn put_mutex_name(text: &mut Vec<u8>, table: &Table, mutex: MutexId) -> Result<(), AllocError>
    ensures { OnOk result (text.new.items ≡ text.old.items
        ++ trace.mutex_name_text table.now mutex) }
{
    put_all(
        text,
        &[
            Part::Plain(",\n{\"ph\":\"M\",\"pid\":3,\"tid\":"),
            id_part(mutex),
            Part::Plain(",\"name\":\"thread_name\",\"args\":{\"name\":\"mutex "),
            Part::Json(mutex_name(table, mutex)),
            Part::Plain("\"}},\n{\"ph\":\"M\",\"pid\":3,\"tid\":"),
            id_part(mutex),
            Part::Plain(",\"name\":\"thread_sort_index\",\"args\":{\"sort_index\":"),
            id_part(mutex),
            Part::Plain("}}"),
        ],
    )
}

/// Puts the names of the tracks of all mutexes.
pub(crate) fn put_mutex_names(text: &mut Vec<u8>, table: &Table) -> Result<(), AllocError>
    ensures { OnOk result (text.new.items ≡ text.old.items
        ++ texts_of (trace.mutex_name_text table.now) (length table.now.mutexes)) }
{
    for place in 0..table.mutex_count() {
        put_mutex_name(text, table, MutexId::at(place as u8))?;
    }
    Ok(())
}

/// Adds the slice of a mutex's owner, if it has one.
#[inline(always)]
#[tactic(auto, using(std::proofs::Common::append_assoc))]
fn add_owner(piece: &mut Piece, table: &Table, spot: Spot, stamp: &Timed, owner: &Option<ProcessId>)
    requires stamps { Stamps stamp.now spot }
    requires room { array_vec_len piece.old + BEGIN + NAME ≤ PIECE_ROOM }
    ensures text { piece.new.items ≡ piece.old.items
        ++ trace.owned_text table.now spot owner.now }
    ensures short { array_vec_len piece.new ≤ array_vec_len piece.old + BEGIN + NAME }
{
    if let Some(process) = owner {
        add_begin(piece, spot, stamp);
        add_escaped(piece, process_name(table, *process));
        add_text(piece, *b"\"}");
    }
}

/// Adds the end of the slice on the track of a mutex, and the beginning of the next one.
// Not inlined, as on most tracks an entry changes nothing.
#[inline(never)]
#[tactic(auto, using(std::proofs::Common::append_assoc))]
fn add_handover(
    piece: &mut Piece,
    table: &Table,
    mutex: MutexId,
    time: u64,
    stamp: &Timed,
    before: &Option<ProcessId>,
    after: &Option<ProcessId>,
)
    requires stamp { stamp.now ≡ time }
    requires room { array_vec_len piece.old + TRACK ≤ PIECE_ROOM }
    ensures text { piece.new.items ≡ piece.old.items
        ++ (trace.ended (is_some before.now) (trace.mutex_spot mutex time)
        ++ trace.owned_text table.now (trace.mutex_spot mutex time) after.now) }
    ensures short { array_vec_len piece.new ≤ array_vec_len piece.old + TRACK }
{
    let spot = mutex_spot(mutex, time);
    add_ended(piece, spot, stamp, before.is_some());
    add_owner(piece, table, spot, stamp, after);
}

/// Adds the changes on the track of a mutex.
#[inline(always)]
fn add_mutex(
    piece: &mut Piece,
    table: &Table,
    mutex: MutexId,
    time: u64,
    stamp: &Timed,
    before: &Option<ProcessId>,
    after: &Option<ProcessId>,
)
    requires stamp { stamp.now ≡ time }
    requires room { array_vec_len piece.old + TRACK ≤ PIECE_ROOM }
    ensures text { piece.new.items ≡ piece.old.items ++ trace.mutex_text table.now
        (trace.mutex_spot mutex time) before.now after.now }
    ensures short { array_vec_len piece.new ≤ array_vec_len piece.old + TRACK }
{
    if is_same_process(before, after) {
        return;
    }
    let (old, new) = (*before, *after);
    add_handover(piece, table, mutex, time, stamp, &old, &new);
}

/// The owner at a place; none if there is no such mutex.
#[inline(always)]
fn owner_at(owners: &[Option<ProcessId>], place: usize) -> Option<ProcessId>
    ensures { result ≡ slice_index_or owners.now place None }
{
    match owners.get(place) {
        Some(owner) => *owner,
        None => None,
    }
}

/// Brings the owners up to the processes of a store, and adds the changes on the tracks of the
/// mutexes.
pub(crate) fn add_mutexes<S: Store>(
    piece: &mut Piece,
    table: &Table,
    store: &S,
    time: u64,
    stamp: &Timed,
    owners: &mut [Option<ProcessId>],
)
    requires stamp { stamp.now ≡ time }
    requires many { length owners.old ≡ length table.now.mutexes }
    requires room { array_vec_len piece.old + TRACK * MOST_OBJECTS ≤ PIECE_ROOM }
    ensures text { piece.new.items ≡ piece.old.items
        ++ trace.mutexes_text table.now time owners.old
        (owners_in table.now (S.roster store.now)) }
    ensures owners { owners.new ≡ owners_in table.now (S.roster store.now) }
    ensures short { array_vec_len piece.new ≤ array_vec_len piece.old + TRACK * MOST_OBJECTS }
{
    for place in 0..table.mutex_count() {
        let mutex = MutexId::at(place as u8);
        let (before, after) = (owner_at(owners, place), store.owner(mutex));
        add_mutex(piece, table, mutex, time, stamp, &before, &after);
        owners[place] = after;
    }
}

/// Adds the ends of the slices of all mutexes.
pub(crate) fn add_mutex_ends(
    piece: &mut Piece,
    table: &Table,
    time: u64,
    stamp: &Timed,
    last: &[Option<ProcessId>],
)
    requires stamp { stamp.now ≡ time }
    requires room { array_vec_len piece.old + TRACK * MOST_OBJECTS ≤ PIECE_ROOM }
    ensures text { piece.new.items ≡ piece.old.items
        ++ trace.mutexes_text table.now time last.now [] }
    ensures short { array_vec_len piece.new ≤ array_vec_len piece.old + TRACK * MOST_OBJECTS }
{
    for place in 0..table.mutex_count() {
        let before = owner_at(last, place);
        let mutex = MutexId::at(place as u8);
        add_mutex(piece, table, mutex, time, stamp, &before, &None);
    }
}
