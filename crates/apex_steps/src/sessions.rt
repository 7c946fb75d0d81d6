//! A session: the kernel of a table, and the states of it that are marked.
ghost use Rattle.std.specs.Prelude.{◌≡◌, ◌<◌, ◌≤◌, ◌∷◌, true, length, drop, take, All, IfOk, OnErr, OnOk, vec_len};
ghost use Rattle.std.specs.List.{position};
ghost use Rattle.apex_machine.specs.Events.{IsWithin};
ghost use Rattle.apex_machine.specs.Machine.{events_of, opening, replay, run};
ghost use Rattle.apex_dispatch.specs.Kernel.{kernel_in};
ghost use Rattle.apex_schedules.specs.Schedule.{are_cores_below, events_of_items};
ghost use Rattle.apex_steps.specs.Sessions.{after_events, marked, opening_session};
ghost use Rattle.apex_steps.specs.Kept.{HasGoneBack, is_kept_as};
ghost use Rattle.apex_steps.specs.Answers.{has_room_for};

use apex_configs::Table;
use apex_console::{booted, run_items};
use apex_dispatch::{Kernel, events_in};
use apex_process::QueueStore;
use apex_schedules::{Item, are_cores_below};
use apex_store::Store;
use apex_types::Event;
use std::alloc::{AllocError, Global};
use std::marker::Model;

/// A marked state. The kernel has no copies: the events of the first entries make the state anew.
#[derive(Drop)]
struct Mark {
    name: Vec<u8>,
    /// The number of entries that the history had.
    entries: u32,
}

impl Mark {
    fn new(alloc: Global, name: &[u8], entries: u32) -> Result<Mark, AllocError>
        ensures name { IfOk result (λ mark. mark.name.items ≡ name.now) }
        ensures entries { IfOk result (λ mark. mark.entries ≡ entries) }
    {
        let mut kept = Vec::with_capacity(alloc, name.len())?;
        kept.extend_from_slice(name)?;
        Ok(Mark {
            name: kept,
            entries,
        })
    }
}

/// Puts a mark before the others.
fn put_mark(marks: &mut Vec<Mark>, mark: Mark) -> Result<(), AllocError>
    ensures ok { OnOk result (marks.new.items ≡ mark ∷ marks.old.items) }
    ensures err { OnErr result (marks.new.items ≡ marks.old.items) }
{
    match marks.insert(0, mark) {
        Ok(()) => Ok(()),
        Err(_) => Err(AllocError),
    }
}

/// A session: the kernel of a table, and the states of it that are marked.
pub struct Session {
    kernel: Kernel<QueueStore>,
    /// The latest mark first.
    marks: Vec<Mark>,
}

// Whoever owns a session lets it go in one step, and not in one for each field of its kernel.
impl Drop for Session {
    fn drop(self) {
        let Session {
            kernel: _kernel,
            marks: _marks,
        } = self;
    }
}

impl Model for Session {
    ghost use Rattle.std.specs.Prelude.{length};
    ghost use Rattle.apex_steps.specs.Sessions.{Session as SessionState};
    ghost use Rattle.apex_steps.specs.Kept.{AreKept, session_kept};

    ghost Value = { SessionState };

    ghost view = { λ s. session_kept s.kernel.table s.kernel.machine s.marks.items };

    ghost invariant = { λ s. AreKept (length s.kernel.machine.history) s.marks.items };
}

// A session asks its kernel by two functions over any store: the prover takes longer for each call at
// a store that it knows.

/// The number of entries that the history of a kernel has, which make its very state anew.
fn entry_count<S: Store>(kernel: &Kernel<S>) -> u32
    ensures count { result ≡ length kernel.now.machine.history }
    ensures replays { replay kernel.now.table kernel.now.machine.history ≡ kernel.now.machine }
{
    kernel.holds();
    kernel.table().lawful();
    kernel.entries().len() as u32
}

/// The table of a kernel and the events of its history, which make its very state anew. It fails only
/// for want of memory.
fn table_and_events<S: Store>(
    alloc: Global,
    kernel: Kernel<S>,
) -> Result<(Table, Vec<Event>), AllocError>
    ensures table { IfOk result (λ parts. parts.0 ≡ kernel.table) }
    ensures events { IfOk result (λ parts. parts.1.items ≡ events_of kernel.machine.history) }
    ensures replays { replay kernel.table kernel.machine.history ≡ kernel.machine }
    ensures ranges { All (IsWithin kernel.table.cores) (events_of kernel.machine.history) }
    ensures within { length kernel.machine.history ≤ kernel.table.limit }
{
    kernel.holds();
    let events = events_in(alloc, &kernel)?;
    Ok((kernel.into_table(), events))
}

/// A kernel of the table that has made these events.
fn kernel_after(
    alloc: Global,
    table: Table,
    events: &[Event],
) -> Result<Kernel<QueueStore>, AllocError>
    requires { All (IsWithin table.cores) events.now }
    ensures table { IfOk result (λ kernel. kernel.table ≡ table) }
    ensures machine { IfOk result
        (λ kernel. kernel.machine ≡ run table (opening table) events.now) }
{
    let mut kernel = booted(alloc, table)?;
    // Events for which the history has no room change nothing.
    let _ran = kernel.run(events);
    Ok(kernel)
}

/// The place of the latest mark with this name.
fn place_of(marks: &[Mark], name: &[u8]) -> Option<usize>
    ensures { result ≡ position (is_kept_as name.now) marks.now }
{
    marks.iter().position(|mark| mark.name.as_slice() == name)
}

/// The marks from this place on: this one, and the older ones.
fn from_place(mut marks: Vec<Mark>, place: usize) -> Vec<Mark>
    requires { place < vec_len marks }
    ensures { result.items ≡ drop place marks.items }
{
    marks.drain(..place);
    marks
}

impl Session {
    /// The session of the table before any command. It fails only for want of memory.
    pub fn new(alloc: Global, table: Table) -> Result<Session, AllocError>
        ensures { IfOk result (λ session. session ≡ opening_session table) }
    {
        Ok(Session {
            kernel: booted(alloc, table)?,
            marks: Vec::new(alloc),
        })
    }

    /// Its kernel.
    pub fn kernel(&self) -> &Kernel<QueueStore>
        ensures table { result.now.table ≡ self.now.table }
        ensures machine { result.now.machine ≡ self.now.machine }
    {
        &self.kernel
    }

    /// Makes the events of the items, up to the first for which the history has no room, and says
    /// whether it had room for all.
    pub(crate) fn make(&mut self, items: &[Item]) -> bool
        requires { are_cores_below self.old.table.cores items.now ≡ true }
        ensures session { self.new ≡ after_events self.old (events_of_items items.now) }
        ensures room { result ≡ has_room_for (events_of_items items.now) self.old }
    {
        run_items(&mut self.kernel, items).is_ok()
    }

    /// Marks the present state with a name.
    pub(crate) fn mark(&mut self, alloc: Global, name: &[u8]) -> Result<(), AllocError>
        ensures { IfOk result (λ done. self.new ≡ marked name.now self.old) }
    {
        let entries = entry_count(&self.kernel);
        let mark = Mark::new(alloc, name, entries)?;
        put_mark(&mut self.marks, mark)
    }

    /// Goes back to the latest mark with this name, whose events are made anew. Without such a mark
    /// the session stays as it was.
    pub(crate) fn back(self, alloc: Global, name: &[u8]) -> Result<(Session, bool), AllocError>
        ensures { IfOk result (λ back. HasGoneBack name.now self back.1 back.0) }
    {
        let Some(place) = place_of(self.marks.as_slice(), name) else {
            return Ok((self, false));
        };
        let Session { kernel, marks } = self;
        let (table, events) = table_and_events(alloc, kernel)?;
        let marks = from_place(marks, place);
        let entries = marks[0].entries as usize;
        let all = events.as_slice();
        let first = &all[..entries];
        let kernel = kernel_after(alloc, table, first)?;
        Ok((Session { kernel, marks }, true))
    }
}
