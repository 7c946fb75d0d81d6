//! A partition's history as a trace in the Trace Event Format, which is JSON: the states of the
//! processes, what each core runs, the calls and the notices, the counts of the objects and the owner
//! of each mutex.
#![tactic(auto)]

mod arrows;
mod beings;
mod bytes;
mod calls;
mod changes;
mod counters;
mod escapes;
mod mutexes;
mod names;
mod pieces;
mod stamps;
mod times;
mod trace;
mod tracks;

pub use bytes::Bytes;
pub use calls::Lasting;
pub use pieces::{COLUMN, GATHERED, PIECE_ROOM, Piece};
pub use trace::{add_column, put_foot, put_head};
pub use tracks::{Tracks, tracks_in};
