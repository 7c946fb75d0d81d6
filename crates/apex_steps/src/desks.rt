//! A desk, at which an answer is put together before it is written.
ghost use Rattle.std.specs.Prelude.{◌≡◌, ◌+◌, ◌≤◌, ◌++◌, [], drop, flat_map, IfOk, OnErr, OnOk};
ghost use Rattle.std.specs.Io.KnownBytes.{Appends};
ghost use Rattle.arrayvec.specs.ArrayVec.{array_vec_len};
ghost use Rattle.apex_calls.specs.Lines.{IsPrintable};
ghost use Rattle.apex_history.specs.Counted.{inner_of, failures_of, AppendsBeginning, CountsFailure};
ghost use Rattle.apex_history.specs.Page.{Passes};
ghost use Rattle.apex_objects.specs.declared.lines.TheConstants.{MOST_OBJECT, OBJECTS_ROOM};
ghost use Rattle.apex_steps.specs.Conversations.{IsFlushed};
ghost use Rattle.apex_steps.specs.Texts.{body_in, entry_in, listing_in, text_in, text_of};

use crate::answers::Saying;
use crate::sayings::{say_front, say_last, say_next};
use crate::sessions::Session;
use apex_configs::Table;
use apex_dispatch::Kernel;
use apex_history::{Counted, Lines, NextSteps, Page, Sink, put_line};
use apex_json::Form;
use apex_objects::{ObjectLines, hand_on, make_room, print_listing_objects, put_entry_object};
use apex_store::Store;
use apex_texts::put_bytes;
use apex_types::LentEntry;
use std::alloc::{AllocError, Global};
use std::io::{Result, Write};
use std::result::Result as Fallible;

/// A desk, at which an answer is put together in either form before it is written.
pub(crate) struct Desk {
    /// The lines that were put and not yet written: also objects are a line each.
    lines: ObjectLines,
    /// The line of an entry.
    line: Lines,
    steps: NextSteps,
    page: Page,
}

// Whoever owns a desk lets it go in one step, and not in one for each field.
impl Drop for Desk {
    fn drop(self) {
        let Desk {
            lines: _lines,
            line: _line,
            steps: _steps,
            page: _page,
        } = self;
    }
}

impl Desk {
    /// An empty desk. It fails only for want of memory.
    pub(crate) fn new(alloc: Global) -> Fallible<Desk, AllocError>
        ensures { IfOk result (λ desk. desk.lines.items ≡ []) }
    {
        let page = Page::new(alloc)?;
        Ok(Desk {
            lines: ObjectLines::new(),
            line: Lines::new(),
            steps: NextSteps::new(),
            page,
        })
    }

    /// Puts an entry behind the others.
    fn put_entry(&mut self, form: Form, table: &Table, entry: &LentEntry<'_>)
        requires printable { IsPrintable table.now entry.now }
        requires room { array_vec_len self.old.lines + MOST_OBJECT ≤ OBJECTS_ROOM }
        ensures { self.new.lines.items
            ≡ self.old.lines.items ++ entry_in form table.now entry.entry.now }
    {
        match form {
            Form::Text => {
                self.line.clear();
                put_line(&mut self.line, table, &mut self.steps, entry);
                put_bytes(&mut self.lines, self.line.as_slice());
            }
            Form::Json => put_entry_object(&mut self.lines, table, entry),
        }
    }

    /// Puts the entries from this place on, counted from 0.
    fn put_entries<S: Store, W: Sink>(
        &mut self,
        form: Form,
        kernel: &Kernel<S>,
        from: usize,
        writer: &mut Counted<W>,
    ) -> Result<()>
        requires { self.old.lines.items ≡ [] }
        ensures ok { OnOk result (Passes (W.contents (inner_of writer.old))
            (W.contents (inner_of writer.new))
            (flat_map (entry_in form kernel.now.table) (drop from kernel.now.machine.history))
            self.new.lines.items) }
        ensures err { OnErr result (AppendsBeginning (W.contents (inner_of writer.old))
            (W.contents (inner_of writer.new))
            (flat_map (entry_in form kernel.now.table) (drop from kernel.now.machine.history))) }
        ensures room { OnOk result (array_vec_len self.new.lines + MOST_OBJECT ≤ OBJECTS_ROOM) }
        ensures counted { CountsFailure result (failures_of writer.old) (failures_of writer.new) }
    {
        kernel.holds();
        for place in from..kernel.entries().len() {
            let entry = kernel.entry(place);
            self.put_entry(form, kernel.table(), &entry);
            make_room(&mut self.lines, writer)?;
        }
        Ok(())
    }

    /// Writes the listing of the state. Takes no memory.
    fn list<S: Store, W: Sink>(
        &mut self,
        form: Form,
        kernel: &Kernel<S>,
        writer: &mut Counted<W>,
    ) -> Result<()>
        requires { self.old.lines.items ≡ [] }
        ensures ok { OnOk result (Passes (W.contents (inner_of writer.old))
            (W.contents (inner_of writer.new))
            (listing_in form kernel.now.table kernel.now.machine) self.new.lines.items) }
        ensures err { OnErr result (AppendsBeginning (W.contents (inner_of writer.old))
            (W.contents (inner_of writer.new))
            (listing_in form kernel.now.table kernel.now.machine)) }
        ensures room { OnOk result (array_vec_len self.new.lines + MOST_OBJECT ≤ OBJECTS_ROOM) }
        ensures counted { CountsFailure result (failures_of writer.old) (failures_of writer.new) }
    {
        match form {
            Form::Text => kernel.print_status(&mut self.page, writer),
            Form::Json => print_listing_objects(kernel, &mut self.lines, writer),
        }
    }

    /// Puts the text of an answer before its last line. Of many lines it writes a part.
    fn put_body<S: Store, W: Sink>(
        &mut self,
        form: Form,
        saying: Saying,
        kernel: &Kernel<S>,
        writer: &mut Counted<W>,
    ) -> Result<()>
        requires { self.old.lines.items ≡ [] }
        ensures ok { OnOk result (Passes (W.contents (inner_of writer.old))
            (W.contents (inner_of writer.new))
            (body_in form saying kernel.now.table kernel.now.machine) self.new.lines.items) }
        ensures err { OnErr result (AppendsBeginning (W.contents (inner_of writer.old))
            (W.contents (inner_of writer.new))
            (body_in form saying kernel.now.table kernel.now.machine)) }
        ensures room { OnOk result (array_vec_len self.new.lines + MOST_OBJECT ≤ OBJECTS_ROOM) }
        ensures counted { CountsFailure result (failures_of writer.old) (failures_of writer.new) }
    {
        match saying {
            Saying::Made { from, .. } => self.put_entries(form, kernel, from, writer),
            Saying::State => self.list(form, kernel, writer),
            Saying::Next => {
                say_next(&mut self.lines, form, kernel);
                make_room(&mut self.lines, writer)
            }
            Saying::Front => {
                say_front(&mut self.lines, form, kernel);
                make_room(&mut self.lines, writer)
            }
            Saying::Refused(_) | Saying::Done => Ok(()),
        }
    }

    /// Writes out the lines that were put, and flushes the writer.
    fn finish<W: Sink>(&mut self, writer: &mut Counted<W>) -> Result<()>
        ensures ok { OnOk result (Appends (W.contents (inner_of writer.old))
            (W.contents (inner_of writer.new)) self.old.lines.items) }
        ensures err { OnErr result (AppendsBeginning (W.contents (inner_of writer.old))
            (W.contents (inner_of writer.new)) self.old.lines.items) }
        ensures flushed { OnOk result (IsFlushed W.drains (inner_of writer.new)) }
        ensures empty { self.new.lines.items ≡ [] }
        ensures counted { CountsFailure result (failures_of writer.old) (failures_of writer.new) }
    {
        hand_on(&mut self.lines, writer)?;
        writer.flush()
    }

    /// Writes an answer about a kernel in this form, and flushes the writer.
    #[tactic(auto, unfolding(crate::specs::Texts::text_of))]
    fn say_of<S: Store, W: Sink>(
        &mut self,
        form: Form,
        saying: Saying,
        kernel: &Kernel<S>,
        writer: &mut Counted<W>,
    ) -> Result<()>
        requires { self.old.lines.items ≡ [] }
        ensures ok { OnOk result (Appends (W.contents (inner_of writer.old))
            (W.contents (inner_of writer.new))
            (text_of form saying kernel.now.table kernel.now.machine)) }
        ensures err { OnErr result (AppendsBeginning (W.contents (inner_of writer.old))
            (W.contents (inner_of writer.new))
            (text_of form saying kernel.now.table kernel.now.machine)) }
        ensures flushed { OnOk result (IsFlushed W.drains (inner_of writer.new)) }
        ensures empty { OnOk result (self.new.lines.items ≡ []) }
        ensures counted { CountsFailure result (failures_of writer.old) (failures_of writer.new) }
    {
        self.put_body(form, saying, kernel, writer)?;
        say_last(&mut self.lines, form, saying, kernel);
        self.finish(writer)
    }

    /// Writes an answer about the session in this form, and flushes the writer. Takes no memory.
    ///
    /// If a write failed, a prefix of the answer was written.
    pub(crate) fn say<W: Sink>(
        &mut self,
        form: Form,
        saying: Saying,
        session: &Session,
        writer: &mut Counted<W>,
    ) -> Result<()>
        requires { self.old.lines.items ≡ [] }
        ensures ok { OnOk result (Appends (W.contents (inner_of writer.old))
            (W.contents (inner_of writer.new)) (text_in form saying session.now)) }
        ensures err { OnErr result (AppendsBeginning (W.contents (inner_of writer.old))
            (W.contents (inner_of writer.new)) (text_in form saying session.now)) }
        ensures flushed { OnOk result (IsFlushed W.drains (inner_of writer.new)) }
        ensures empty { OnOk result (self.new.lines.items ≡ []) }
        ensures counted { CountsFailure result (failures_of writer.old) (failures_of writer.new) }
    {
        self.say_of(form, saying, session.kernel(), writer)
    }
}
