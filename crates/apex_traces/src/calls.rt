//! The calls of a trace: each entry but an idle turn has a slice on the track of its caller, from the
//! moment before the entry to the moment after it.
ghost use Rattle.std.specs.Prelude.{◌≡◌, ◌+◌, ◌*◌, ◌≤◌, ◌++◌};
ghost use Rattle.arrayvec.specs.ArrayVec.{array_vec_len};
ghost use Rattle.apex_calls.specs.Lines.{IsPrintable, asked_text, reply_text};
ghost use Rattle.apex_json.specs.Strings.{json_text};
ghost use Rattle.apex_traces.specs.Calls.{call_of, caller_text, is_idle, lasting_text, said_text, slice_of};
ghost use Rattle.apex_traces.specs.declared.calls.TheConstants.{CALLER, LASTING, REPLY, SAID};
ghost use Rattle.apex_traces.specs.declared.pieces.TheConstants.{CALL, PIECE_ROOM};

use crate::escapes::add_escaped;
use crate::pieces::{CALL, DIGITS, Piece, add_number, add_text, add_track};
use crate::stamps::{TIMED, Timed, add_stamp};
use crate::times::{TIME_ROOM, add_time};
use apex_configs::Table;
use apex_history::{Lines, NextSteps, put_call_of, put_reply_of};
use apex_json::MOST_ESCAPE;
use apex_types::{Call, Caller, LentEntry, MOST_LINE, Reply, ReturnCode};

/// The most bytes of the track of a caller.
pub(crate) const CALLER: usize = 14 + DIGITS;

/// The most bytes of the slice of a call, up to its arguments.
const LASTING: usize = 12 + CALLER + TIMED + 7 + TIME_ROOM;

/// The most bytes of a reply.
const REPLY: usize = MOST_ESCAPE * MOST_LINE;

/// The most bytes of its arguments and its name.
const SAID: usize = 2 * MOST_ESCAPE * MOST_LINE + DIGITS + 40;

/// The times of the moments before and after an entry, in nanoseconds.
#[derive(Clone, Copy)]
pub struct Lasting {
    /// The time of the moment before the entry.
    pub begin: u64,
    /// The time of the moment after it.
    pub end: u64,
}

/// The texts of the latest call and its reply. The next steps of the scripts stay from entry to entry,
/// so that the text of a step is copied.
#[derive(Drop)]
pub(crate) struct Said {
    lines: Lines,
    steps: NextSteps,
}

impl Said {
    pub(crate) fn new() -> Said {
        Said {
            lines: Lines::new(),
            steps: NextSteps::new(),
        }
    }

    /// Adds any reply.
    #[inline(never)]
    fn add_any_reply(&mut self, piece: &mut Piece, table: &Table, entry: &LentEntry<'_>)
        requires { array_vec_len piece.old + REPLY ≤ PIECE_ROOM }
        ensures text { piece.new.items ≡ piece.old.items
            ++ json_text (reply_text table.now entry.entry.now.reply) }
        ensures short { array_vec_len piece.new ≤ array_vec_len piece.old + REPLY }
    {
        self.lines.clear();
        put_reply_of(&mut self.lines, table, entry);
        // Without the arrow before it.
        add_escaped(piece, &self.lines.as_slice()[4..]);
    }

    /// Adds the reply: first those that most entries have.
    #[inline(always)]
    fn add_reply(&mut self, piece: &mut Piece, table: &Table, entry: &LentEntry<'_>)
        requires { array_vec_len piece.old + REPLY ≤ PIECE_ROOM }
        ensures text { piece.new.items ≡ piece.old.items
            ++ json_text (reply_text table.now entry.entry.now.reply) }
        ensures short { array_vec_len piece.new ≤ array_vec_len piece.old + REPLY }
    {
        if let Reply::Code(ReturnCode::NoError) = &entry.reply {
            add_text(piece, *b"NO_ERROR");
        } else if let Reply::Blocked = &entry.reply {
            add_text(piece, *b"BLOCKED");
        } else {
            self.add_any_reply(piece, table, entry);
        }
    }

    /// Adds the arguments and the name of the slice of an entry.
    #[inline(always)]
    #[tactic(auto, using(std::proofs::Common::append_assoc), unfolding(crate::specs::Calls::said_text))]
    fn add_said(&mut self, piece: &mut Piece, table: &Table, entry: &LentEntry<'_>)
        requires printable { IsPrintable table.now entry.now }
        requires room { array_vec_len piece.old + SAID ≤ PIECE_ROOM }
        ensures text { piece.new.items ≡ piece.old.items ++ said_text entry.entry.now.number
            (reply_text table.now entry.entry.now.reply)
            (asked_text table.now entry.entry.now.call entry.entry.now.reply) }
        ensures short { array_vec_len piece.new ≤ array_vec_len piece.old + SAID }
    {
        add_text(piece, *b",\"args\":{\"entry\":");
        add_number(piece, u64::from(entry.number));
        add_text(piece, *b",\"reply\":\"");
        self.add_reply(piece, table, entry);
        add_text(piece, *b"\"},\"name\":\"");
        self.lines.clear();
        put_call_of(&mut self.lines, table, &mut self.steps, entry);
        add_escaped(piece, self.lines.as_slice());
        add_text(piece, *b"\"}");
    }

    /// Adds the slice of an entry.
    #[tactic(auto, using(std::proofs::Common::append_assoc))]
    fn add_slice(
        &mut self,
        piece: &mut Piece,
        table: &Table,
        lasting: Lasting,
        begun: &Timed,
        entry: &LentEntry<'_>,
    )
        requires printable { IsPrintable table.now entry.now }
        requires begun { begun.now ≡ lasting.begin }
        requires room { array_vec_len piece.old + CALL ≤ PIECE_ROOM }
        ensures text { piece.new.items ≡ piece.old.items
            ++ slice_of table.now lasting entry.entry.now }
        ensures short { array_vec_len piece.new ≤ array_vec_len piece.old + CALL }
    {
        add_lasting(
            piece,
            &entry.process,
            begun,
            lasting.end.saturating_sub(lasting.begin),
        );
        self.add_said(piece, table, entry);
    }

    /// Adds the slice of an entry; an idle turn has none.
    #[inline(always)]
    pub(crate) fn add_call(
        &mut self,
        piece: &mut Piece,
        table: &Table,
        lasting: Lasting,
        begun: &Timed,
        entry: &LentEntry<'_>,
    )
        requires printable { IsPrintable table.now entry.now }
        requires begun { begun.now ≡ lasting.begin }
        requires room { array_vec_len piece.old + CALL ≤ PIECE_ROOM }
        ensures text { piece.new.items ≡ piece.old.items
            ++ call_of table.now lasting entry.entry.now }
        ensures short { array_vec_len piece.new ≤ array_vec_len piece.old + CALL }
    {
        if is_idle(&entry.call, &entry.reply) {
            return;
        }
        self.add_slice(piece, table, lasting, begun, entry);
    }
}

/// Adds the track of a caller.
#[inline(always)]
#[tactic(auto, using(std::proofs::Common::append_assoc))]
pub(crate) fn add_caller(piece: &mut Piece, caller: &Caller)
    requires { array_vec_len piece.old + CALLER ≤ PIECE_ROOM }
    ensures text { piece.new.items ≡ piece.old.items ++ caller_text caller.now }
    ensures short { array_vec_len piece.new ≤ array_vec_len piece.old + CALLER }
{
    match caller {
        Caller::Process(process) => {
            add_text(piece, *b"\"pid\":2,\"tid\":");
            add_track(piece, process.number());
        }
        Caller::Init => add_text(piece, *b"\"pid\":4,\"tid\":1"),
        Caller::Nobody => add_text(piece, *b"\"pid\":4,\"tid\":2"),
    }
}

/// Adds a slice on a caller's track from this time on, of this duration, up to its arguments.
#[inline(always)]
#[tactic(auto, using(std::proofs::Common::append_assoc), unfolding(crate::specs::Calls::lasting_text))]
fn add_lasting(piece: &mut Piece, caller: &Caller, begun: &Timed, duration: u64)
    requires { array_vec_len piece.old + LASTING ≤ PIECE_ROOM }
    ensures text { piece.new.items ≡ piece.old.items ++ lasting_text caller.now begun.now duration }
    ensures short { array_vec_len piece.new ≤ array_vec_len piece.old + LASTING }
{
    add_text(piece, *b",\n{\"ph\":\"X\",");
    add_caller(piece, caller);
    add_stamp(piece, begun);
    add_text(piece, *b",\"dur\":");
    add_time(piece, duration);
}

/// The entry is an idle turn: there is no call, and the time does not advance.
#[inline(always)]
fn is_idle(call: &Option<Call>, reply: &Reply) -> bool
    ensures { result ≡ is_idle call.now reply.now }
{
    match call {
        Some(_) => false,
        None => !matches!(reply, Reply::Advanced(_, _)),
    }
}
