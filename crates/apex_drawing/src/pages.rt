//! The part of a picture that is not written yet.
ghost use Rattle.std.specs.Prelude.{◌≡◌, ◌≤◌, ◌++◌, [], OnErr, OnOk};
ghost use Rattle.std.specs.Io.KnownBytes.{Appends};
ghost use Rattle.arrayvec.specs.ArrayVec.{array_vec_len};
ghost use Rattle.apex_history.specs.Counted.{inner_of, failures_of, AppendsBeginning, CountsFailure};
ghost use Rattle.apex_history.specs.Page.{Passes};
ghost use Rattle.apex_traces.specs.declared.pieces.TheConstants.{GATHERED};
ghost use Rattle.apex_drawing.specs.Drawing.{CountsDrawing};
ghost use Rattle.apex_drawing.specs.Pages.{pending};

use crate::drawing::DrawFault;
use apex_history::{Counted, Sink};
use apex_traces::{GATHERED, Piece};
use std::alloc::AllocError;
use std::io;
use std::io::Write;

/// The part of a picture that is not written yet: a text, and columns of a trace behind it.
#[derive(Drop)]
pub(crate) struct Page {
    pub(crate) text: Vec<u8>,
    pub(crate) columns: Piece,
}

impl Page {
    /// The page that has this text.
    pub(crate) fn new(text: Vec<u8>) -> Page
        ensures text { pending result ≡ text.items }
        ensures room { array_vec_len result.columns ≤ GATHERED }
    {
        Page {
            text,
            columns: Piece::new(),
        }
    }

    /// Moves the columns to the end of the text.
    pub(crate) fn settle(&mut self) -> Result<(), AllocError>
        ensures kept { OnOk result (pending self.new ≡ pending self.old) }
        ensures settled { OnOk result (self.new.columns.items ≡ []) }
    {
        self.text.extend_from_slice(self.columns.as_slice())?;
        self.columns.clear();
        Ok(())
    }

    /// Writes the page out.
    fn write_to<W: Sink>(&self, writer: &mut Counted<W>) -> io::Result<()>
        ensures ok { OnOk result (Appends (W.contents (inner_of writer.old))
            (W.contents (inner_of writer.new)) (pending self.now)) }
        ensures err { OnErr result (AppendsBeginning (W.contents (inner_of writer.old))
            (W.contents (inner_of writer.new)) (pending self.now)) }
        ensures counted { CountsFailure result (failures_of writer.old) (failures_of writer.new) }
    {
        writer.write_all(self.text.as_slice())?;
        writer.write_all(self.columns.as_slice())
    }

    /// Writes the page out, and forgets it.
    pub(crate) fn hand_on<W: Sink>(&mut self, writer: &mut Counted<W>) -> Result<(), DrawFault>
        ensures ok { OnOk result (Appends (W.contents (inner_of writer.old))
            (W.contents (inner_of writer.new)) (pending self.old)) }
        ensures empty { pending self.new ≡ [] }
        ensures room { array_vec_len self.new.columns ≤ GATHERED }
        ensures err { OnErr result (AppendsBeginning (W.contents (inner_of writer.old))
            (W.contents (inner_of writer.new)) (pending self.old)) }
        ensures counted { CountsDrawing result (failures_of writer.old) (failures_of writer.new) }
    {
        let written = self.write_to(writer);
        self.text.clear();
        self.columns.clear();
        match written {
            Ok(()) => Ok(()),
            Err(_) => Err(DrawFault::Write),
        }
    }

    /// Writes the page out once it is long. Then there is room for a column.
    pub(crate) fn make_room<W: Sink>(&mut self, writer: &mut Counted<W>) -> Result<(), DrawFault>
        ensures ok { OnOk result (Passes (W.contents (inner_of writer.old))
            (W.contents (inner_of writer.new)) (pending self.old) (pending self.new)) }
        ensures room { OnOk result (array_vec_len self.new.columns ≤ GATHERED) }
        ensures err { OnErr result (AppendsBeginning (W.contents (inner_of writer.old))
            (W.contents (inner_of writer.new)) (pending self.old)) }
        ensures counted { CountsDrawing result (failures_of writer.old) (failures_of writer.new) }
    {
        if self.text.len() < GATHERED && self.columns.len() < GATHERED {
            return Ok(());
        }
        self.hand_on(writer)
    }
}
