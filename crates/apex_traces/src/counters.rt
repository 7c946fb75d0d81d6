//! The counters of a trace: what is counted of each object, as it changes.
ghost use Rattle.std.specs.Prelude.{◌≡◌, ◌+◌, ◌*◌, ◌≤◌, ◌++◌, [], OnOk, length};
ghost use Rattle.arrayvec.specs.ArrayVec.{array_vec_len};
ghost use Rattle.apex_types.specs.declared.limits.TheConstants.{MOST_NAME, MOST_OBJECTS};
ghost use Rattle.apex_traces.specs.Counters.{count_at, count_text, counters_text, kind_text, kind_word, object_name, unit_word};
ghost use Rattle.apex_moments.specs.Counts.{counts_in, no_counts, object_count};
ghost use Rattle.apex_traces.specs.declared.pieces.TheConstants.{COUNTER, PIECE_ROOM};

use crate::changes::count_at;
use crate::escapes::add_escaped;
use crate::names::{back, front, object_name};
use crate::pieces::{COUNTER, Piece, add, add_number, add_text};
use crate::stamps::{Timed, add_stamp};
use apex_configs::Table;
use apex_moments::{Counts, Kind};
use apex_services::Objects;
use apex_types::{MOST_NAME, MOST_OBJECTS};
use std::alloc::AllocError;

/// Adds the count of an object of this kind and name.
#[inline(always)]
#[tactic(auto, using(std::proofs::Common::append_assoc))]
fn add_count(piece: &mut Piece, time: u64, stamp: &Timed, kind: Kind, name: &[u8], count: u64)
    requires stamp { stamp.now ≡ time }
    requires name { length name.now ≤ MOST_NAME }
    requires room { array_vec_len piece.old + COUNTER ≤ PIECE_ROOM }
    ensures text { piece.new.items ≡ piece.old.items
        ++ count_text (kind_word kind) name.now (unit_word kind) time count }
    ensures short { array_vec_len piece.new ≤ array_vec_len piece.old + COUNTER }
{
    add_text(piece, *b",\n{\"ph\":\"C\",\"pid\":3");
    add_stamp(piece, stamp);
    add(piece, front(kind));
    add_escaped(piece, name);
    add(piece, back(kind));
    add_number(piece, count);
    add_text(piece, *b"}}");
}

/// Adds the count of the object of a kind at a place.
// Not inlined, as an entry changes few counts.
#[inline(never)]
fn add_changed(
    piece: &mut Piece,
    table: &Table,
    time: u64,
    stamp: &Timed,
    kind: Kind,
    place: u8,
    count: u64,
)
    requires stamp { stamp.now ≡ time }
    requires room { array_vec_len piece.old + COUNTER ≤ PIECE_ROOM }
    ensures text { piece.new.items ≡ piece.old.items
        ++ count_text (kind_word kind) (object_name table.now kind place) (unit_word kind)
        time count }
    ensures short { array_vec_len piece.new ≤ array_vec_len piece.old + COUNTER }
{
    add_count(
        piece,
        time,
        stamp,
        kind,
        object_name(kind, table, place),
        count,
    );
}

/// Adds the first count of the object of a kind at a place, if it has one.
fn add_first(piece: &mut Piece, table: &Table, stamp: &Timed, kind: Kind, first: &[u64], place: u8)
    requires stamp { stamp.now ≡ 0 }
    requires room { array_vec_len piece.old + COUNTER ≤ PIECE_ROOM }
    ensures text { piece.new.items ≡ piece.old.items
        ++ count_at table.now 0 kind [] first.now place }
    ensures short { array_vec_len piece.new ≤ array_vec_len piece.old + COUNTER }
{
    if let Some(count) = count_at(first, usize::from(place)) {
        add_changed(piece, table, 0, stamp, kind, place, count);
    }
}

/// Adds the first counts of all objects of a kind.
fn add_firsts(piece: &mut Piece, table: &Table, stamp: &Timed, kind: Kind, first: &[u64])
    requires stamp { stamp.now ≡ 0 }
    requires room { array_vec_len piece.old + COUNTER * MOST_OBJECTS ≤ PIECE_ROOM }
    ensures text { piece.new.items ≡ piece.old.items
        ++ kind_text table.now 0 kind [] first.now }
    ensures short { array_vec_len piece.new ≤ array_vec_len piece.old + COUNTER * MOST_OBJECTS }
{
    for place in 0..kind.object_count(table) {
        add_first(piece, table, stamp, kind, first, place as u8);
    }
}

/// Adds the counts before the first entry.
#[tactic(auto, using(std::proofs::Common::append_assoc))]
fn add_first_counts(piece: &mut Piece, table: &Table, first: &Counts)
    requires { array_vec_len piece.old + COUNTER * 4 * MOST_OBJECTS ≤ PIECE_ROOM }
    ensures { piece.new.items ≡ piece.old.items ++ counters_text table.now 0 no_counts first.now }
{
    let stamp = Timed::new(0);
    add_firsts(
        piece,
        table,
        &stamp,
        Kind::Semaphore,
        first.values.as_slice(),
    );
    add_firsts(
        piece,
        table,
        &stamp,
        Kind::Buffer,
        first.contents.as_slice(),
    );
    add_firsts(
        piece,
        table,
        &stamp,
        Kind::Blackboard,
        first.displays.as_slice(),
    );
    add_firsts(
        piece,
        table,
        &stamp,
        Kind::EventFlag,
        first.flags.as_slice(),
    );
}

/// Puts the counts before the first entry.
pub(crate) fn put_first_counts(
    text: &mut Vec<u8>,
    table: &Table,
    first: &Counts,
) -> Result<(), AllocError>
    ensures { OnOk result (text.new.items ≡ text.old.items
        ++ counters_text table.now 0 no_counts first.now) }
{
    let mut piece = Piece::new();
    add_first_counts(&mut piece, table, first);
    text.extend_from_slice(piece.as_slice())
}

/// Brings the counts of a kind up to these objects, and adds those that change.
// Inlined, so that each kind has a loop of its own.
#[inline(always)]
pub(crate) fn add_kind(
    piece: &mut Piece,
    table: &Table,
    objects: &Objects,
    time: u64,
    stamp: &Timed,
    kind: Kind,
    counts: &mut [u64],
)
    requires stamp { stamp.now ≡ time }
    requires many { length counts.old ≡ object_count table.now kind }
    requires few { length counts.old ≤ MOST_OBJECTS }
    requires room { array_vec_len piece.old + COUNTER * MOST_OBJECTS ≤ PIECE_ROOM }
    ensures text { piece.new.items ≡ piece.old.items
        ++ kind_text table.now time kind counts.old (counts_in table.now objects.now kind) }
    ensures counts { counts.new ≡ counts_in table.now objects.now kind }
    ensures short { array_vec_len piece.new ≤ array_vec_len piece.old + COUNTER * MOST_OBJECTS }
{
    for place in 0..counts.len() {
        let count = kind.count_of(objects, place as u8);
        if counts[place] != count {
            add_changed(piece, table, time, stamp, kind, place as u8, count);
            counts[place] = count;
        }
    }
}
