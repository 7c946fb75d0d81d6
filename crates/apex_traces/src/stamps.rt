//! The texts of a slice's end and of its beginning, before the number of its track and behind it.
ghost use Rattle.std.specs.Prelude.{◌≡◌, ◌+◌, ◌≤◌, ◌++◌, length};
ghost use Rattle.arrayvec.specs.ArrayVec.{array_vec_len};
ghost use Rattle.apex_traces.specs.Stamps.{begin_front, end_front};
ghost use Rattle.apex_traces.specs.Times.{time_back};
ghost use Rattle.apex_traces.specs.declared.pieces.TheConstants.{PIECE_ROOM};
ghost use Rattle.apex_traces.specs.declared.stamps.TheConstants.{FRONT, TIMED};

use crate::bytes::Bytes;
use crate::pieces::{Piece, add_text};
use crate::times::{TIME_ROOM, add_time};
use std::marker::Model;

/// A group of tracks that slices are on.
#[derive(Clone, Copy)]
pub(crate) enum Group {
    Cores,
    Processes,
    Objects,
}

/// The bytes before the number of a track.
pub(crate) const FRONT: usize = 26;

/// The room of the time behind the number of a track. Two more bytes than it needs make it a power of
/// two, of which a copy takes fewer instructions.
pub(crate) const TIMED: usize = TIME_ROOM + 6 + 2;

/// A time on the trace's axis, with its text as it is behind the number of a track.
#[derive(Drop)]
pub(crate) struct Timed {
    /// In nanoseconds.
    time: u64,
    text: Bytes<TIMED>,
}

impl Model for Timed {
    ghost use Rattle.std.specs.Prelude.{◌≡◌, ℕ};
    ghost use Rattle.apex_traces.specs.Times.{time_back};

    ghost Value = { ℕ };

    ghost view = { λ t. t.time };

    ghost invariant = { λ t. t.text.items ≡ time_back t.time };
}

impl Timed {
    #[tactic(auto, using(std::proofs::Common::append_assoc))]
    pub(crate) fn new(time: u64) -> Timed
        ensures { result ≡ time }
    {
        let mut text = Bytes::new();
        add_text(&mut text, *b",\"ts\":");
        add_time(&mut text, time);
        Timed { time, text }
    }

    /// Makes it this time.
    #[tactic(auto, using(std::proofs::Common::append_assoc))]
    fn set(&mut self, time: u64)
        ensures { self.new ≡ time }
    {
        self.text.clear();
        add_text(&mut self.text, *b",\"ts\":");
        add_time(&mut self.text, time);
        self.time = time;
    }

    /// Makes it this time, if it is another one.
    #[inline(always)]
    pub(crate) fn reach(&mut self, time: u64)
        ensures { self.new ≡ time }
    {
        if self.time != time {
            self.set(time);
        }
    }
}

/// Adds a time as it is behind the number of a track.
#[inline(always)]
pub(crate) fn add_stamp(piece: &mut Piece, stamp: &Timed)
    requires { array_vec_len piece.old + TIMED ≤ PIECE_ROOM }
    ensures text { piece.new.items ≡ piece.old.items ++ time_back stamp.now }
    ensures short { array_vec_len piece.new ≤ array_vec_len piece.old + TIMED }
{
    piece.append(&stamp.text);
}

/// Adds what is before the number of a track of a group at the end of a slice.
#[inline(always)]
pub(crate) fn add_end_front(piece: &mut Piece, group: Group)
    requires room { array_vec_len piece.old + FRONT ≤ PIECE_ROOM }
    ensures text { piece.new.items ≡ piece.old.items ++ end_front group }
    ensures len { array_vec_len piece.new ≡ array_vec_len piece.old + FRONT }
{
    match group {
        Group::Cores => add_text(piece, *b",\n{\"ph\":\"E\",\"pid\":1,\"tid\":"),
        Group::Processes => add_text(piece, *b",\n{\"ph\":\"E\",\"pid\":2,\"tid\":"),
        Group::Objects => add_text(piece, *b",\n{\"ph\":\"E\",\"pid\":3,\"tid\":"),
    }
}

/// Adds what is before the number of a track of a group at the beginning of a slice.
#[inline(always)]
pub(crate) fn add_begin_front(piece: &mut Piece, group: Group)
    requires room { array_vec_len piece.old + FRONT ≤ PIECE_ROOM }
    ensures text { piece.new.items ≡ piece.old.items ++ begin_front group }
    ensures len { array_vec_len piece.new ≡ array_vec_len piece.old + FRONT }
{
    match group {
        Group::Cores => add_text(piece, *b",\n{\"ph\":\"B\",\"pid\":1,\"tid\":"),
        Group::Processes => add_text(piece, *b",\n{\"ph\":\"B\",\"pid\":2,\"tid\":"),
        Group::Objects => add_text(piece, *b",\n{\"ph\":\"B\",\"pid\":3,\"tid\":"),
    }
}
