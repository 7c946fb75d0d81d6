//! The status listing of a partition, section by section.
ghost use Rattle.std.specs.Prelude.{◌≡◌, ◌<◌, ◌++◌, [], length, IfErr, OnOk, OnErr};
ghost use Rattle.std.specs.Io.KnownBytes.{Appends};
ghost use Rattle.apex_machine.specs.declared.records.Queue.TheVariants as queues;
ghost use Rattle.apex_machine.specs.processes.Owners.{owner};
ghost use Rattle.apex_machine.specs.text.Listing.{listing_of, waiters, owned_depth, core_listing, process_listing, semaphore_listing, buffer_listing, blackboard_listing, event_flag_listing, mutex_listing};
ghost use Rattle.apex_history.specs.Counted.{inner_of, failures_of, CountsFailure, AppendsBeginning, IsOfWrite};
ghost use Rattle.apex_history.specs.Page.{Passes};
ghost use Rattle.apex_history.specs.StatusRows.{row_text};
ghost use Rattle.apex_services.specs.Sections.{Tells, thing_count, thing_text, section_text, waiting_at};

use crate::objects::Objects;
use crate::waiters::{Waiters, waiters_in};
use apex_configs::Table;
use apex_history::{Counted, Page, Sink, StatusRow, gather_row};
use apex_machine::Queue;
use apex_store::{Object, Store};
use apex_types::{
    BlackboardId, BufferId, CoreId, EventId, Message, MutexId, ProcessId, SemaphoreId,
};
use std::io::Result;
use std::marker::Model;

/// The sections of the listing, in their order.
#[derive(Clone, Copy, PartialEq, Eq)]
pub(crate) enum Section {
    Time,
    Mode,
    History,
    Cores,
    Processes,
    Semaphores,
    Buffers,
    Blackboards,
    EventFlags,
    Mutexes,
}

/// All sections, in their order.
const SECTIONS: [Section; 10] = [
    Section::Time,
    Section::Mode,
    Section::History,
    Section::Cores,
    Section::Processes,
    Section::Semaphores,
    Section::Buffers,
    Section::Blackboards,
    Section::EventFlags,
    Section::Mutexes,
];

/// All that is listed of a partition.
#[derive(Drop)]
pub struct Listing<'a, S: Store> {
    /// The table of the partition.
    pub table: &'a Table,
    /// The records of its processes, its mode and its time.
    pub store: &'a S,
    /// The running values of its objects.
    pub objects: &'a Objects,
    /// The number of entries that the history has.
    pub entries: u32,
}

impl<'a, S: Store> Model for Listing<'a, S> {
    ghost use Rattle.apex_services.specs.Sections.{Listed, IsListable};

    ghost Value = { Listed };

    ghost view = { λ l. record {
      table = l.table.now;
      roster = S.roster l.store.now;
      objects = l.objects.now;
      entries = l.entries;
    } };

    ghost invariant = { λ l. IsListable (record {
      table = l.table.now;
      roster = S.roster l.store.now;
      objects = l.objects.now;
      entries = l.entries;
    }) };
}

impl<'a, S: Store> Listing<'a, S> {
    /// The number of things that the section lists, created or not.
    fn count(&self, section: Section) -> usize
        ensures { result ≡ thing_count self.now section }
    {
        match section {
            Section::Time | Section::Mode | Section::History => 1,
            Section::Cores => usize::from(self.store.cores()),
            Section::Processes => self.table.process_count(),
            Section::Semaphores => self.table.semaphore_count(),
            Section::Buffers => self.table.buffer_count(),
            Section::Blackboards => self.table.blackboard_count(),
            Section::EventFlags => self.table.event_flag_count(),
            Section::Mutexes => self.table.mutex_count(),
        }
    }

    /// The waiters for the thing at this place of the section.
    fn waiting(&self, section: Section, place: usize) -> Waiters
        requires { place < thing_count self.now section }
        ensures { result ≡ waiting_at self.now section place }
    {
        match section {
            Section::Semaphores => waiters_in(
                self.store,
                &Queue::Semaphore(SemaphoreId::at(place as u8)),
            ),
            Section::Buffers => waiters_in(self.store, &Queue::Buffer(BufferId::at(place as u8))),
            Section::Blackboards => waiters_in(
                self.store,
                &Queue::Blackboard(BlackboardId::at(place as u8)),
            ),
            Section::EventFlags => waiters_in(
                self.store,
                &Queue::EventFlag(EventId::at(place as u8)),
            ),
            Section::Mutexes => waiters_in(self.store, &Queue::Mutex(MutexId::at(place as u8))),
            _ => Waiters::new(),
        }
    }

    /// The row of a process, if it is created.
    fn process(&self, process: ProcessId) -> Option<StatusRow<'a>>
        requires { process < length self.now.table.processes }
        ensures { Tells self.now.table result
            (process_listing self.now.table self.now.roster self.now.objects process) }
    {
        let _messages: &[Message] = &[];
        let objects = self.objects;
        if !objects.processes[process.place()].is_created() {
            return None;
        }
        Some(StatusRow::Process {
            process,
            state: self.store.state(process),
            record: *self.store.record(process),
        })
    }

    /// The row of a semaphore, if it is created.
    fn semaphore<'r>(&self, semaphore: SemaphoreId, waiting: &'r Waiters) -> Option<StatusRow<'r>>
        requires known { semaphore < length self.now.table.semaphores }
        requires waiting { waiting.now ≡ waiters self.now.roster (queues.Semaphore semaphore) }
        ensures { Tells self.now.table result
            (semaphore_listing self.now.table self.now.roster self.now.objects semaphore) }
    {
        let _messages: &[Message] = &[];
        let objects = self.objects;
        let object = &objects.semaphores[semaphore.place()];
        if !object.is_created() {
            return None;
        }
        Some(StatusRow::Semaphore {
            semaphore,
            value: object.value(),
            waiting: waiting.as_slice(),
        })
    }

    /// The row of a buffer, if it is created.
    fn buffer<'r>(&'r self, buffer: BufferId, waiting: &'r Waiters) -> Option<StatusRow<'r>>
        requires known { buffer < length self.now.table.buffers }
        requires waiting { waiting.now ≡ waiters self.now.roster (queues.Buffer buffer) }
        ensures { Tells self.now.table result
            (buffer_listing self.now.table self.now.roster self.now.objects buffer) }
    {
        let objects = self.objects;
        let object = &objects.buffers[buffer.place()];
        if !object.is_created() {
            return None;
        }
        Some(StatusRow::Buffer {
            buffer,
            messages: object.messages(),
            waiting: waiting.as_slice(),
        })
    }

    /// The row of a blackboard, if it is created.
    fn blackboard<'r>(
        &self,
        blackboard: BlackboardId,
        waiting: &'r Waiters,
    ) -> Option<StatusRow<'r>>
        requires known { blackboard < length self.now.table.blackboards }
        requires waiting { waiting.now ≡ waiters self.now.roster (queues.Blackboard blackboard) }
        ensures { Tells self.now.table result
            (blackboard_listing self.now.table self.now.roster self.now.objects blackboard) }
    {
        let _messages: &[Message] = &[];
        let objects = self.objects;
        let object = &objects.blackboards[blackboard.place()];
        if !object.is_created() {
            return None;
        }
        Some(StatusRow::Blackboard {
            blackboard,
            message: object.message(),
            waiting: waiting.as_slice(),
        })
    }

    /// The row of an event flag, if it is created.
    fn event_flag<'r>(&self, event_flag: EventId, waiting: &'r Waiters) -> Option<StatusRow<'r>>
        requires known { event_flag < length self.now.table.event_flags }
        requires waiting { waiting.now ≡ waiters self.now.roster (queues.EventFlag event_flag) }
        ensures { Tells self.now.table result
            (event_flag_listing self.now.table self.now.roster self.now.objects event_flag) }
    {
        let _messages: &[Message] = &[];
        let objects = self.objects;
        let object = &objects.event_flags[event_flag.place()];
        if !object.is_created() {
            return None;
        }
        Some(StatusRow::EventFlag {
            event_flag,
            up: object.is_up(),
            waiting: waiting.as_slice(),
        })
    }

    /// The depth at which the mutex is owned. 0 if it is free.
    fn depth(&self, mutex: MutexId) -> u8
        ensures { result ≡ owned_depth self.now.roster mutex (owner self.now.roster mutex) }
    {
        let Some(process) = self.store.owner(mutex) else {
            return 0;
        };
        match self.store.record(process).owned.holding_of(mutex) {
            Some(holding) => holding.depth,
            None => 0,
        }
    }

    /// The row of a mutex, if it is created.
    fn mutex<'r>(&self, mutex: MutexId, waiting: &'r Waiters) -> Option<StatusRow<'r>>
        requires known { mutex < length self.now.table.mutexes }
        requires waiting { waiting.now ≡ waiters self.now.roster (queues.Mutex mutex) }
        ensures { Tells self.now.table result
            (mutex_listing self.now.table self.now.roster self.now.objects mutex) }
    {
        let _messages: &[Message] = &[];
        let objects = self.objects;
        if !objects.mutexes[mutex.place()].is_created() {
            return None;
        }
        Some(StatusRow::Mutex {
            mutex,
            owner: self.store.owner(mutex),
            depth: self.depth(mutex),
            waiting: waiting.as_slice(),
        })
    }

    /// The row of a core.
    fn core(&self, core: CoreId) -> StatusRow<'a>
        ensures { row_text self.now.table result ≡ core_listing self.now.roster core }
    {
        let _messages: &[Message] = &[];
        StatusRow::Core {
            core,
            running: self.store.chosen(core),
        }
    }

    /// The row of the thing at this place of the section, for which these processes wait. None if
    /// it isn't created.
    fn row<'r>(
        &'r self,
        section: Section,
        place: usize,
        waiting: &'r Waiters,
    ) -> Option<StatusRow<'r>>
        requires known { place < thing_count self.now section }
        requires waiting { waiting.now ≡ waiting_at self.now section place }
        ensures { Tells self.now.table result (thing_text self.now section place) }
    {
        let _messages: &[Message] = &[];
        match section {
            Section::Time => Some(StatusRow::Time(self.store.now())),
            Section::Mode => Some(StatusRow::Mode(self.store.mode())),
            Section::History => Some(StatusRow::History(self.entries)),
            Section::Cores => Some(self.core(CoreId::new(place as u8))),
            Section::Processes => self.process(ProcessId::at(place as u8)),
            Section::Semaphores => self.semaphore(SemaphoreId::at(place as u8), waiting),
            Section::Buffers => self.buffer(BufferId::at(place as u8), waiting),
            Section::Blackboards => self.blackboard(BlackboardId::at(place as u8), waiting),
            Section::EventFlags => self.event_flag(EventId::at(place as u8), waiting),
            Section::Mutexes => self.mutex(MutexId::at(place as u8), waiting),
        }
    }

    /// Gathers the text of the thing at this place of the section.
    fn gather<W: Sink>(
        &self,
        section: Section,
        place: usize,
        page: &mut Page,
        writer: &mut Counted<W>,
    ) -> Result<()>
        requires { place < thing_count self.now section }
        ensures ok { OnOk result
            (Passes (W.contents (inner_of writer.old)) (W.contents (inner_of writer.new))
            (page.old ++ thing_text self.now section place) page.new) }
        ensures empty { OnErr result (page.new ≡ []) }
        ensures err { OnErr result
            (AppendsBeginning (W.contents (inner_of writer.old)) (W.contents (inner_of writer.new))
            (page.old ++ thing_text self.now section place)) }
        ensures counted { CountsFailure result (failures_of writer.old) (failures_of writer.new) }
        ensures failed { IfErr result (IsOfWrite W.accepts (inner_of writer.new)) }
    {
        let waiting = self.waiting(section, place);
        match self.row(section, place, &waiting) {
            Some(row) => gather_row(self.table, &row, page, writer),
            None => Ok(()),
        }
    }

    /// Gathers the section.
    fn gather_section<W: Sink>(
        &self,
        section: Section,
        page: &mut Page,
        writer: &mut Counted<W>,
    ) -> Result<()>
        ensures ok { OnOk result
            (Passes (W.contents (inner_of writer.old)) (W.contents (inner_of writer.new))
            (page.old ++ section_text self.now section) page.new) }
        ensures empty { OnErr result (page.new ≡ []) }
        ensures err { OnErr result
            (AppendsBeginning (W.contents (inner_of writer.old)) (W.contents (inner_of writer.new))
            (page.old ++ section_text self.now section)) }
        ensures counted { CountsFailure result (failures_of writer.old) (failures_of writer.new) }
        ensures failed { IfErr result (IsOfWrite W.accepts (inner_of writer.new)) }
    {
        for place in 0..self.count(section) {
            self.gather(section, place, page, writer)?;
        }
        Ok(())
    }

    /// Writes the listing, many of its lines with one write. The text that the page held before is
    /// forgotten.
    ///
    /// If a write failed, a prefix of the listing was written.
    pub fn print<W: Sink>(&self, page: &mut Page, writer: &mut Counted<W>) -> Result<()>
        ensures ok { OnOk result
            (Appends (W.contents (inner_of writer.old)) (W.contents (inner_of writer.new))
            (listing_of self.now.table self.now.roster self.now.objects self.now.entries)) }
        ensures err { OnErr result
            (AppendsBeginning (W.contents (inner_of writer.old)) (W.contents (inner_of writer.new))
            (listing_of self.now.table self.now.roster self.now.objects self.now.entries)) }
        ensures empty { page.new ≡ [] }
        ensures counted { CountsFailure result (failures_of writer.old) (failures_of writer.new) }
        ensures failed { IfErr result (IsOfWrite W.accepts (inner_of writer.new)) }
    {
        page.clear();
        for section in SECTIONS {
            self.gather_section(section, page, writer)?;
        }
        page.hand_on(writer)
    }
}
