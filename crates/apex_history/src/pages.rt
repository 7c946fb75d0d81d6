//! Text that is gathered before it is written.
ghost use Rattle.std.specs.Prelude.{◌≡◌, ◌+◌, ◌≤◌, [], ◌++◌, length, IfErr, IfOk, OnOk, OnErr};
ghost use Rattle.std.specs.Io.KnownBytes.{Appends};
ghost use Rattle.apex_history.specs.Counted.{inner_of, failures_of, CountsFailure, AppendsBeginning, IsOfWrite};
ghost use Rattle.apex_history.specs.Page.{Passes};

use crate::counting::Counted;
use crate::puts::LINES_ROOM;
use crate::sources::Sink;
use std::alloc::{AllocError, Global};
use std::io;
use std::io::Write;
use std::marker::Model;

/// The most bytes that a page holds.
const PAGE_ROOM: usize = 8 * LINES_ROOM;

/// A page of the lines of a history or of a status.
pub type Page = Gathered<PAGE_ROOM>;

/// A buffer of text that is made beforehand, for ROOM bytes. Texts are gathered in it, so that many
/// of them are written at once.
#[derive(Drop)]
pub struct Gathered<const ROOM: usize> {
    text: Vec<u8>,
}

impl<const ROOM: usize> Model for Gathered<ROOM> {
    ghost use Rattle.std.specs.Prelude.{ℕ, List, ◌≤◌, length, vec_capacity};

    ghost Value = { List ℕ };

    ghost view = { λ g. g.text.items };

    ghost invariant = { λ g. (length g.text.items ≤ ROOM) × (ROOM ≤ vec_capacity g.text) };
}

impl<const ROOM: usize> Gathered<ROOM> {
    /// A buffer without text, which takes the memory for its bytes at once. It fails only for want
    /// of memory.
    pub fn new(alloc: Global) -> Result<Gathered<ROOM>, AllocError>
        ensures { IfOk result (λ gathered. gathered ≡ []) }
    {
        let text = Vec::with_capacity(alloc, ROOM)?;
        Ok(Gathered { text })
    }

    /// Forgets the text.
    pub fn clear(&mut self)
        ensures { self.new ≡ [] }
    {
        self.text.clear();
    }

    /// Writes the text out if `room` bytes may not fit behind it.
    pub fn make_room<W: Sink>(&mut self, room: usize, writer: &mut Counted<W>) -> io::Result<()>
        requires { room ≤ ROOM }
        ensures ok { OnOk result
            (Passes (W.contents (inner_of writer.old))
            (W.contents (inner_of writer.new)) self.old self.new) }
        ensures room { length self.new + room ≤ ROOM }
        ensures empty { OnErr result (self.new ≡ []) }
        ensures err { OnErr result
            (AppendsBeginning (W.contents (inner_of writer.old))
            (W.contents (inner_of writer.new)) self.old) }
        ensures counted { CountsFailure result (failures_of writer.old) (failures_of writer.new) }
        ensures failed { IfErr result (IsOfWrite W.accepts (inner_of writer.new)) }
    {
        if room <= ROOM - self.text.len() {
            return Ok(());
        }
        self.hand_on(writer)
    }

    /// Puts these bytes behind the text.
    pub fn put(&mut self, more: &[u8])
        requires { length self.old + length more.now ≤ ROOM }
        ensures text { self.new ≡ self.old ++ more.now }
        ensures len { length self.new ≡ length self.old + length more.now }
    {
        let taken = self.text.extend_from_slice(more);
        let fits = taken.is_ok();
        prove!(fits);
    }

    /// Writes the text out, and forgets it even if a write failed, which leaves a prefix of it.
    pub fn hand_on<W: Sink>(&mut self, writer: &mut Counted<W>) -> io::Result<()>
        ensures ok { OnOk result
            (Appends (W.contents (inner_of writer.old))
            (W.contents (inner_of writer.new)) self.old) }
        ensures empty { self.new ≡ [] }
        ensures err { OnErr result
            (AppendsBeginning (W.contents (inner_of writer.old))
            (W.contents (inner_of writer.new)) self.old) }
        ensures counted { CountsFailure result (failures_of writer.old) (failures_of writer.new) }
        ensures failed { IfErr result (IsOfWrite W.accepts (inner_of writer.new)) }
    {
        let written = writer.write_all(self.text.as_slice());
        self.clear();
        written
    }
}
