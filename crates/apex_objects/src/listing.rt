//! The status listing of a partition as objects, section by section.
ghost use Rattle.std.specs.Prelude.{◌≡◌, ◌+◌, ◌<◌, ◌≤◌, ◌++◌, [], length, IfErr, OnErr, OnOk};
ghost use Rattle.std.specs.Io.KnownBytes.{Appends};
ghost use Rattle.arrayvec.specs.ArrayVec.{array_vec_len};
ghost use Rattle.apex_machine.specs.processes.Owners.{owner};
ghost use Rattle.apex_machine.specs.text.Listing.{owned_depth};
ghost use Rattle.apex_history.specs.Counted.{inner_of, failures_of, AppendsBeginning, CountsFailure, IsOfWrite};
ghost use Rattle.apex_history.specs.Page.{Passes};
ghost use Rattle.apex_objects.specs.Listing.{blackboard_listed, buffer_listed, core_listed, event_flag_listed, head_objects, listing_objects, listing_objects_of, mutex_listed, process_listed, semaphore_listed};
ghost use Rattle.apex_objects.specs.Sections.{section_text, thing_count, thing_text};
ghost use Rattle.apex_objects.specs.declared.lines.TheConstants.{MOST_OBJECT, OBJECTS_ROOM};

use crate::lines::ObjectLines;
use crate::rows::{
    put_blackboard, put_buffer, put_core, put_event_flag, put_history, put_mode, put_mutex,
    put_process_row, put_semaphore, put_time,
};
use crate::writing::{hand_on, make_room};
use apex_configs::Table;
use apex_dispatch::Kernel;
use apex_history::{Counted, Sink};
use apex_machine::Queue;
use apex_services::{Objects, waiters_in};
use apex_store::{Object, Store};
use apex_types::{BlackboardId, BufferId, CoreId, EventId, MutexId, ProcessId, SemaphoreId};
use std::io::Result;
use std::marker::Model;

/// The sections of the listing, in their order.
#[derive(Clone, Copy)]
pub(crate) enum Section {
    /// The time, the mode and the number of entries.
    Head,
    Cores,
    Processes,
    Semaphores,
    Buffers,
    Blackboards,
    EventFlags,
    Mutexes,
}

/// All sections, in their order.
const SECTIONS: [Section; 8] = [
    Section::Head,
    Section::Cores,
    Section::Processes,
    Section::Semaphores,
    Section::Buffers,
    Section::Blackboards,
    Section::EventFlags,
    Section::Mutexes,
];

/// All that is listed of a partition.
#[derive(Drop)]
struct Listing<'a, S: Store> {
    table: &'a Table,
    store: &'a S,
    objects: &'a Objects,
    /// The number of entries that the history has.
    entries: u32,
}

impl<'a, S: Store> Model for Listing<'a, S> {
    ghost use Rattle.apex_services.specs.Sections.{Listed, IsListable};

    ghost Value = { Listed };

    ghost view = { λ l. record {
      table = l.table.now;
      roster = S.roster l.store.now;
      objects = l.objects.now;
      entries = l.entries;
    } };

    ghost invariant = { λ l. IsListable (record {
      table = l.table.now;
      roster = S.roster l.store.now;
      objects = l.objects.now;
      entries = l.entries;
    }) };
}

impl<'a, S: Store> Listing<'a, S> {
    /// The number of things that the section lists, created or not.
    fn count(&self, section: Section) -> usize
        ensures { result ≡ thing_count self.now section }
    {
        match section {
            Section::Head => 1,
            Section::Cores => usize::from(self.store.cores()),
            Section::Processes => self.table.process_count(),
            Section::Semaphores => self.table.semaphore_count(),
            Section::Buffers => self.table.buffer_count(),
            Section::Blackboards => self.table.blackboard_count(),
            Section::EventFlags => self.table.event_flag_count(),
            Section::Mutexes => self.table.mutex_count(),
        }
    }

    /// Puts the time, the mode and the number of entries.
    #[tactic(auto, using(std::proofs::Common::append_assoc))]
    fn put_head(&self, line: &mut ObjectLines)
        requires { array_vec_len line.old + MOST_OBJECT ≤ OBJECTS_ROOM }
        ensures { line.new.items
            ≡ line.old.items ++ head_objects self.now.roster self.now.entries }
    {
        put_time(line, self.store.now());
        put_mode(line, &self.store.mode());
        put_history(line, self.entries);
    }

    /// Puts the core.
    fn put_core(&self, line: &mut ObjectLines, core: CoreId)
        requires { array_vec_len line.old + MOST_OBJECT ≤ OBJECTS_ROOM }
        ensures { line.new.items
            ≡ line.old.items ++ core_listed self.now.table self.now.roster core }
    {
        put_core(line, self.table, core, &self.store.chosen(core));
    }

    /// Puts the process, if it is created.
    fn put_process(&self, line: &mut ObjectLines, process: ProcessId)
        requires known { process < length self.now.table.processes }
        requires room { array_vec_len line.old + MOST_OBJECT ≤ OBJECTS_ROOM }
        ensures { line.new.items ≡ line.old.items
            ++ process_listed self.now.table self.now.roster self.now.objects process }
    {
        let objects = self.objects;
        if objects.processes[process.place()].is_created() {
            let (state, fields) = (self.store.state(process), self.store.record(process));
            put_process_row(line, self.table, process, &state, fields);
        }
    }

    /// Puts the semaphore, if it is created.
    fn put_semaphore(&self, line: &mut ObjectLines, semaphore: SemaphoreId)
        requires known { semaphore < length self.now.table.semaphores }
        requires room { array_vec_len line.old + MOST_OBJECT ≤ OBJECTS_ROOM }
        ensures { line.new.items ≡ line.old.items
            ++ semaphore_listed self.now.table self.now.roster self.now.objects semaphore }
    {
        let objects = self.objects;
        let object = &objects.semaphores[semaphore.place()];
        if object.is_created() {
            let waiting = waiters_in(self.store, &Queue::Semaphore(semaphore));
            put_semaphore(
                line,
                self.table,
                semaphore,
                object.value(),
                waiting.as_slice(),
            );
        }
    }

    /// Puts the buffer, if it is created.
    fn put_buffer(&self, line: &mut ObjectLines, buffer: BufferId)
        requires known { buffer < length self.now.table.buffers }
        requires room { array_vec_len line.old + MOST_OBJECT ≤ OBJECTS_ROOM }
        ensures { line.new.items ≡ line.old.items
            ++ buffer_listed self.now.table self.now.roster self.now.objects buffer }
    {
        let objects = self.objects;
        let object = &objects.buffers[buffer.place()];
        if object.is_created() {
            let waiting = waiters_in(self.store, &Queue::Buffer(buffer));
            put_buffer(
                line,
                self.table,
                buffer,
                object.messages(),
                waiting.as_slice(),
            );
        }
    }

    /// Puts the blackboard, if it is created.
    fn put_blackboard(&self, line: &mut ObjectLines, blackboard: BlackboardId)
        requires known { blackboard < length self.now.table.blackboards }
        requires room { array_vec_len line.old + MOST_OBJECT ≤ OBJECTS_ROOM }
        ensures { line.new.items ≡ line.old.items
            ++ blackboard_listed self.now.table self.now.roster self.now.objects blackboard }
    {
        let objects = self.objects;
        let object = &objects.blackboards[blackboard.place()];
        if object.is_created() {
            let waiting = waiters_in(self.store, &Queue::Blackboard(blackboard));
            put_blackboard(
                line,
                self.table,
                blackboard,
                &object.message(),
                waiting.as_slice(),
            );
        }
    }

    /// Puts the event flag, if it is created.
    fn put_event_flag(&self, line: &mut ObjectLines, event_flag: EventId)
        requires known { event_flag < length self.now.table.event_flags }
        requires room { array_vec_len line.old + MOST_OBJECT ≤ OBJECTS_ROOM }
        ensures { line.new.items ≡ line.old.items
            ++ event_flag_listed self.now.table self.now.roster self.now.objects event_flag }
    {
        let objects = self.objects;
        let object = &objects.event_flags[event_flag.place()];
        if object.is_created() {
            let waiting = waiters_in(self.store, &Queue::EventFlag(event_flag));
            put_event_flag(
                line,
                self.table,
                event_flag,
                object.is_up(),
                waiting.as_slice(),
            );
        }
    }

    /// The depth at which the mutex is owned. 0 if it is free.
    fn depth(&self, mutex: MutexId) -> u8
        ensures { result ≡ owned_depth self.now.roster mutex (owner self.now.roster mutex) }
    {
        let Some(process) = self.store.owner(mutex) else {
            return 0;
        };
        match self.store.record(process).owned.holding_of(mutex) {
            Some(holding) => holding.depth,
            None => 0,
        }
    }

    /// Puts the mutex, if it is created.
    fn put_mutex(&self, line: &mut ObjectLines, mutex: MutexId)
        requires known { mutex < length self.now.table.mutexes }
        requires room { array_vec_len line.old + MOST_OBJECT ≤ OBJECTS_ROOM }
        ensures { line.new.items ≡ line.old.items
            ++ mutex_listed self.now.table self.now.roster self.now.objects mutex }
    {
        let objects = self.objects;
        if objects.mutexes[mutex.place()].is_created() {
            let waiting = waiters_in(self.store, &Queue::Mutex(mutex));
            let (owner, depth) = (self.store.owner(mutex), self.depth(mutex));
            put_mutex(line, self.table, mutex, &owner, depth, waiting.as_slice());
        }
    }

    /// Puts the thing at this place of the section, if it is created.
    fn put(&self, line: &mut ObjectLines, section: Section, place: usize)
        requires known { place < thing_count self.now section }
        requires room { array_vec_len line.old + MOST_OBJECT ≤ OBJECTS_ROOM }
        ensures { line.new.items ≡ line.old.items ++ thing_text self.now section place }
    {
        self.table.lawful();
        match section {
            Section::Head => self.put_head(line),
            Section::Cores => self.put_core(line, CoreId::new(place as u8)),
            Section::Processes => self.put_process(line, ProcessId::at(place as u8)),
            Section::Semaphores => self.put_semaphore(line, SemaphoreId::at(place as u8)),
            Section::Buffers => self.put_buffer(line, BufferId::at(place as u8)),
            Section::Blackboards => self.put_blackboard(line, BlackboardId::at(place as u8)),
            Section::EventFlags => self.put_event_flag(line, EventId::at(place as u8)),
            Section::Mutexes => self.put_mutex(line, MutexId::at(place as u8)),
        }
    }

    /// Gathers the section.
    fn gather<W: Sink>(
        &self,
        section: Section,
        line: &mut ObjectLines,
        writer: &mut Counted<W>,
    ) -> Result<()>
        requires { array_vec_len line.old + MOST_OBJECT ≤ OBJECTS_ROOM }
        ensures ok { OnOk result
            (Passes (W.contents (inner_of writer.old)) (W.contents (inner_of writer.new))
            (line.old.items ++ section_text self.now section) line.new.items) }
        ensures room { OnOk result (array_vec_len line.new + MOST_OBJECT ≤ OBJECTS_ROOM) }
        ensures err { OnErr result
            (AppendsBeginning (W.contents (inner_of writer.old)) (W.contents (inner_of writer.new))
            (line.old.items ++ section_text self.now section)) }
        ensures empty { OnErr result (line.new.items ≡ []) }
        ensures counted { CountsFailure result (failures_of writer.old) (failures_of writer.new) }
        ensures failed { IfErr result (IsOfWrite W.accepts (inner_of writer.new)) }
    {
        for place in 0..self.count(section) {
            self.put(line, section, place);
            make_room(line, writer)?;
        }
        Ok(())
    }

    /// Writes the listing, many of its objects with one write.
    fn print<W: Sink>(&self, line: &mut ObjectLines, writer: &mut Counted<W>) -> Result<()>
        ensures ok { OnOk result
            (Appends (W.contents (inner_of writer.old)) (W.contents (inner_of writer.new))
            (listing_objects_of self.now.table self.now.roster self.now.objects self.now.entries)) }
        ensures err { OnErr result
            (AppendsBeginning (W.contents (inner_of writer.old)) (W.contents (inner_of writer.new))
            (listing_objects_of self.now.table self.now.roster self.now.objects self.now.entries)) }
        ensures empty { line.new.items ≡ [] }
        ensures counted { CountsFailure result (failures_of writer.old) (failures_of writer.new) }
        ensures failed { IfErr result (IsOfWrite W.accepts (inner_of writer.new)) }
    {
        line.clear();
        for section in SECTIONS {
            self.gather(section, line, writer)?;
        }
        hand_on(line, writer)
    }
}

/// All that is listed of a kernel.
fn listing_in<S: Store>(kernel: &Kernel<S>) -> Listing<'_, S>
    ensures { listing_objects_of result.table result.roster result.objects result.entries
        ≡ listing_objects kernel.now.table kernel.now.machine }
{
    kernel.holds();
    let situation = kernel.situation();
    let store = situation.store();
    let _cores = store.cores();
    Listing {
        table: kernel.table(),
        store,
        objects: situation.objects(),
        entries: kernel.entries().len() as u32,
    }
}

/// Writes the status listing of the present state as objects, a line for each of its rows, many of
/// them with one write (this profile). Takes no memory: they are gathered in `lines`.
///
/// If a write failed, a prefix of the text was written. What the lines held before is forgotten.
pub fn print_listing_objects<S: Store, W: Sink>(
    kernel: &Kernel<S>,
    lines: &mut ObjectLines,
    writer: &mut Counted<W>,
) -> Result<()>
    ensures ok { OnOk result
        (Appends (W.contents (inner_of writer.old)) (W.contents (inner_of writer.new))
        (listing_objects kernel.now.table kernel.now.machine)) }
    ensures err { OnErr result
        (AppendsBeginning (W.contents (inner_of writer.old)) (W.contents (inner_of writer.new))
        (listing_objects kernel.now.table kernel.now.machine)) }
    ensures empty { lines.new.items ≡ [] }
    ensures counted { CountsFailure result (failures_of writer.old) (failures_of writer.new) }
    ensures failed { IfErr result (IsOfWrite W.accepts (inner_of writer.new)) }
{
    listing_in(kernel).print(lines, writer)
}
