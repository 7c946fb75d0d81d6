//! The arrows of a trace, from the slice of an entry to each process that the entry wakes or releases.
ghost use Rattle.std.specs.Prelude.{◌≡◌, ◌+◌, ◌*◌, ◌<◌, ◌≤◌, ◌++◌, Some, length};
ghost use Rattle.arrayvec.specs.ArrayVec.{array_vec_len};
ghost use Rattle.apex_traces.specs.Arrows.{arrow_back, arrow_id, goal_of, has_slice, head_of, head_text, head_to, heads_of, roused, tail_of, tail_text, tail_to, tails_of};
ghost use Rattle.apex_moments.specs.Moments.{with_cells};
ghost use Rattle.apex_traces.specs.Tracks.{bare_cells};
ghost use Rattle.apex_traces.specs.declared.arrows.TheConstants.{BACK};
ghost use Rattle.apex_traces.specs.declared.pieces.TheConstants.{ARROW, PIECE_ROOM};
ghost use Rattle.apex_types.specs.declared.limits.TheConstants.{MOST_NOTICES};

use crate::calls::add_caller;
use crate::pieces::{ARROW, DIGITS, Piece, add, add_number, add_text, add_track};
use crate::stamps::{Timed, add_stamp};
use apex_moments::notice_word;
use apex_store::Store;
use apex_types::{Caller, MOST_NOTICES, Notice, ProcessId};

/// The most bytes of the number and the name of an arrow.
const BACK: usize = DIGITS + 40;

/// Adds the number and the name of an arrow.
#[inline(always)]
#[tactic(auto, using(std::proofs::Common::append_assoc), unfolding(crate::specs::Arrows::arrow_back))]
fn add_back(piece: &mut Piece, id: u64, word: &str)
    requires word { length word.now ≤ 8 }
    requires room { array_vec_len piece.old + BACK ≤ PIECE_ROOM }
    ensures text { piece.new.items ≡ piece.old.items ++ arrow_back id word.now }
    ensures short { array_vec_len piece.new ≤ array_vec_len piece.old + BACK }
{
    add_text(piece, *b",\"cat\":\"notice\",\"id\":");
    add_number(piece, id);
    add_text(piece, *b",\"name\":\"");
    add(piece, word);
    add_text(piece, *b"\"}");
}

/// Adds the beginning of an arrow on a caller's track.
#[inline(always)]
#[tactic(auto, using(std::proofs::Common::append_assoc), unfolding(crate::specs::Arrows::tail_text))]
fn add_tail(piece: &mut Piece, caller: &Caller, begun: &Timed, id: u64, word: &str)
    requires word { length word.now ≤ 8 }
    requires room { array_vec_len piece.old + ARROW ≤ PIECE_ROOM }
    ensures text { piece.new.items ≡ piece.old.items ++ tail_text caller.now begun.now id word.now }
    ensures short { array_vec_len piece.new ≤ array_vec_len piece.old + ARROW }
{
    add_text(piece, *b",\n{\"ph\":\"s\",");
    add_caller(piece, caller);
    add_stamp(piece, begun);
    add_back(piece, id, word);
}

/// Adds the end of an arrow on the track of a process.
#[inline(always)]
#[tactic(auto, using(std::proofs::Common::append_assoc), unfolding(crate::specs::Arrows::head_text))]
fn add_head(piece: &mut Piece, time: u64, stamp: &Timed, process: ProcessId, id: u64, word: &str)
    requires stamp { stamp.now ≡ time }
    requires word { length word.now ≤ 8 }
    requires room { array_vec_len piece.old + ARROW ≤ PIECE_ROOM }
    ensures text { piece.new.items ≡ piece.old.items ++ head_text time process id word.now }
    ensures short { array_vec_len piece.new ≤ array_vec_len piece.old + ARROW }
{
    add_text(piece, *b",\n{\"ph\":\"f\",\"bp\":\"e\",\"pid\":2,\"tid\":");
    add_track(piece, process.number());
    add_stamp(piece, stamp);
    add_back(piece, id, word);
}

/// The process that a notice wakes or releases.
#[inline(always)]
fn roused(notice: &Notice) -> Option<ProcessId>
    ensures { result ≡ roused notice.now }
{
    match notice {
        Notice::Woken(process, _) => Some(*process),
        Notice::Released(process) => Some(*process),
        Notice::Missed(_, _) => None,
    }
}

/// A process has a slice on its track: it is not dormant.
#[inline(always)]
#[tactic(auto, using(crate::proofs::Arrowed::slice_in, crate::proofs::Arrowed::slice_out))]
fn has_slice<S: Store>(store: &S, process: ProcessId) -> bool
    ensures { result ≡ has_slice (with_cells (bare_cells (S.roster store.now))) process }
{
    if process.place() < store.process_count() {
        store.record(process).started
    } else {
        false
    }
}

/// The process to which the arrow of a notice goes.
#[inline(always)]
fn goal_of<S: Store>(store: &S, notice: &Notice) -> Option<ProcessId>
    ensures { result ≡ goal_of (with_cells (bare_cells (S.roster store.now))) (roused notice.now) }
{
    match roused(notice) {
        Some(process) if has_slice(store, process) => Some(process),
        _ => None,
    }
}

/// The number of the arrow of the notice at a place.
#[inline(always)]
fn arrow_id(number: u32, place: usize) -> u64
    requires { place < MOST_NOTICES }
    ensures { result ≡ arrow_id number place }
{
    MOST_NOTICES as u64 * u64::from(number) + place as u64
}

/// Adds the beginning of the arrow of a notice, if it has one.
#[inline(always)]
#[tactic(auto, using(crate::proofs::Arrowed::word_short))]
fn add_tail_of<S: Store>(
    piece: &mut Piece,
    store: &S,
    caller: &Caller,
    begun: &Timed,
    id: u64,
    notice: &Notice,
)
    requires room { array_vec_len piece.old + ARROW ≤ PIECE_ROOM }
    ensures text { piece.new.items ≡ piece.old.items ++ tail_of caller.now begun.now
        (with_cells (bare_cells (S.roster store.now))) id (Some notice.now) }
    ensures short { array_vec_len piece.new ≤ array_vec_len piece.old + ARROW }
{
    if let Some(_) = goal_of(store, notice) {
        add_tail(piece, caller, begun, id, notice_word(notice));
    }
}

/// Adds the end of the arrow of a notice, if it has one.
#[inline(always)]
#[tactic(auto, using(crate::proofs::Arrowed::word_short))]
fn add_head_of<S: Store>(
    piece: &mut Piece,
    store: &S,
    time: u64,
    stamp: &Timed,
    id: u64,
    notice: &Notice,
)
    requires stamp { stamp.now ≡ time }
    requires room { array_vec_len piece.old + ARROW ≤ PIECE_ROOM }
    ensures text { piece.new.items ≡ piece.old.items ++ head_of time
        (with_cells (bare_cells (S.roster store.now))) id (Some notice.now) }
    ensures short { array_vec_len piece.new ≤ array_vec_len piece.old + ARROW }
{
    if let Some(process) = goal_of(store, notice) {
        add_head(piece, time, stamp, process, id, notice_word(notice));
    }
}

/// Adds the beginnings of the arrows of an entry.
#[inline(always)]
pub(crate) fn add_tails<S: Store>(
    piece: &mut Piece,
    store: &S,
    begun: &Timed,
    caller: &Caller,
    number: u32,
    notices: &[Notice],
)
    requires few { length notices.now ≤ MOST_NOTICES }
    requires room { array_vec_len piece.old + ARROW * MOST_NOTICES ≤ PIECE_ROOM }
    ensures text { piece.new.items ≡ piece.old.items ++ tails_of caller.now begun.now
        (with_cells (bare_cells (S.roster store.now))) number notices.now }
    ensures short { array_vec_len piece.new ≤ array_vec_len piece.old + ARROW * MOST_NOTICES }
{
    for place in 0..notices.len() {
        let id = arrow_id(number, place);
        add_tail_of(piece, store, caller, begun, id, &notices[place]);
    }
}

/// Adds the ends of the arrows of an entry.
#[inline(always)]
pub(crate) fn add_heads<S: Store>(
    piece: &mut Piece,
    store: &S,
    time: u64,
    stamp: &Timed,
    number: u32,
    notices: &[Notice],
)
    requires stamp { stamp.now ≡ time }
    requires few { length notices.now ≤ MOST_NOTICES }
    requires room { array_vec_len piece.old + ARROW * MOST_NOTICES ≤ PIECE_ROOM }
    ensures text { piece.new.items ≡ piece.old.items ++ heads_of time
        (with_cells (bare_cells (S.roster store.now))) number notices.now }
    ensures short { array_vec_len piece.new ≤ array_vec_len piece.old + ARROW * MOST_NOTICES }
{
    for place in 0..notices.len() {
        let id = arrow_id(number, place);
        add_head_of(piece, store, time, stamp, id, &notices[place]);
    }
}
