//! A store that keeps the ready processes, the waiters and the timers in linked lists.
ghost use Rattle.std.specs.Prelude.{◌≡◌, ◌<◌, length, IfOk};
ghost use Rattle.apex_machine.specs.processes.Roster.{opening_roster};
ghost use Rattle.apex_machine.specs.processes.Running.{is_eligible};
ghost use Rattle.apex_process.specs.State.{AreListsOfState};

use crate::lists::Lists;
use crate::owners::Owners;
use apex_configs::Table;
use apex_machine::{Holding, Holdings, Queue, Record, Wait};
use apex_store::{PlainStore, Store, stays_level};
use apex_timeouts::Timers;
use apex_types::{CoreId, Message, Mode, MutexId, ProcessId};
use std::alloc::{AllocError, Global};
use std::marker::Model;

/// A store that answers each question in a few steps, however many processes there are. It keeps
/// the eligible processes of each core and priority, and those that wait in each queue, in a linked
/// list, the dues and the deadlines in the order of their instants, and the owner of each mutex.
///
/// A running process stays in its ready list, at the front of the highest that is not empty. No
/// call compares two stamps. A process that begins to wait in a queue of discipline PRIORITY walks
/// that queue, and one with a due or a deadline walks their line; only a mode other than NORMAL
/// walks all processes.
pub struct QueueStore {
    records: PlainStore,
    lists: Lists,
    timers: Timers,
    owners: Owners,
}

// Whoever owns a store lets it go in one step, and not in one for each field.
impl Drop for QueueStore {
    fn drop(self) {
        let QueueStore {
            records: _records,
            lists: _lists,
            timers: _timers,
            owners: _owners,
        } = self;
    }
}

impl Model for QueueStore {
    ghost use Rattle.apex_process.specs.Owners.{AreOwners};
    ghost use Rattle.apex_process.specs.Queued.{Queued, IsQueued};
    ghost use Rattle.apex_process.specs.Timed.{AreTimers};

    ghost Value = { Queued };

    ghost view = { λ s. record {
      roster = s.records;
      standings = s.lists;
      dues = s.timers.dues;
      deadlines = s.timers.deadlines;
      owners = s.owners;
    } };

    ghost invariant = { λ s. IsQueued s.records s.lists
        × AreTimers s.records s.timers.dues s.timers.deadlines × AreOwners s.records s.owners };
}

/// The process of this record is ready.
fn is_ready(records: &PlainStore, given: &Record) -> bool
    ensures { result ≡ is_eligible records.now.mode given.now }
{
    given.is_eligible(records.mode())
}

impl QueueStore {
    /// The processes of the table before any event, in COLD_START. Fails only for want of memory.
    pub fn new(alloc: Global, table: &Table) -> Result<QueueStore, AllocError>
        ensures { IfOk result (λ store. store.roster ≡ opening_roster table.now) }
    {
        let count = table.process_count() as u16;
        let owners = Owners::new(alloc)?;
        let timers = Timers::new(alloc, count)?;
        let lists = Lists::new(alloc, count)?;
        let records = PlainStore::new(alloc, table)?;
        Ok(QueueStore {
            records,
            lists,
            timers,
            owners,
        })
    }

    /// The lists that the store keeps are the lists of its state.
    pub fn holds(&self)
        ensures { AreListsOfState self.now }
    {
        self.lists.holds();
        self.timers.holds();
    }

    /// The number of records, and of nodes of lists, at which the calls, reading ones too, have
    /// looked since the store was made; it stays at the greatest `u64`.
    pub fn visits(&self) -> u64 {
        self.records
            .visits()
            .saturating_add(self.lists.visits())
            .saturating_add(self.timers.visits())
    }
}

impl Store for QueueStore {
    ghost roster = { λ s. s.roster };

    fn cores(&self) -> u8 {
        self.records.cores()
    }

    fn mode(&self) -> Mode {
        self.records.mode()
    }

    fn now(&self) -> u64 {
        self.records.now()
    }

    fn process_count(&self) -> usize {
        self.records.process_count()
    }

    fn record(&self, process: ProcessId) -> &Record {
        self.records.record(process)
    }

    fn records(&self) -> &[Record] {
        self.records.records()
    }

    fn chosen(&self, core: CoreId) -> Option<ProcessId> {
        self.lists.top(core)
    }

    fn first(&self, queue: Queue) -> Option<ProcessId> {
        self.lists.first(queue)
    }

    fn next_after(&self, _queue: Queue, process: ProcessId) -> Option<ProcessId> {
        self.lists.next(process)
    }

    fn waiting(&self, queue: Queue) -> u32 {
        self.lists.count(queue)
    }

    fn ceiling(&self, mutex: MutexId) -> u8 {
        self.records.ceiling(mutex)
    }

    fn most_owned(&self) -> usize {
        self.records.most_owned()
    }

    fn owner(&self, mutex: MutexId) -> Option<ProcessId> {
        self.owners.first(mutex)
    }

    fn next_instant(&self) -> Option<u64> {
        // For the proof: each line is in the order of its instants.
        self.timers.holds();
        self.timers.next_instant()
    }

    fn start(&mut self, process: ProcessId, delay: u32) {
        self.records.start(process, delay);
        let record = self.records.record(process);
        self.lists.put_newest(&self.records, process, record);
        self.timers.set_due(process, record.due);
        self.timers.set_deadline(process, record.deadline);
    }

    fn stop(&mut self, process: ProcessId) {
        let held = self.records.record(process).owned;
        self.records.stop(process);
        self.lists.leave(process);
        self.timers.set_due(process, None);
        self.timers.set_deadline(process, None);
        self.owners.leave(process, held.as_slice());
    }

    fn block(&mut self, process: ProcessId, wait: Wait, due: Option<u64>) {
        self.records.block(process, wait, due);
        let record = self.records.record(process);
        self.lists.put_newest(&self.records, process, record);
        self.timers.set_due(process, record.due);
    }

    fn unblock(&mut self, process: ProcessId) {
        self.records.unblock(process);
        let woken = self.records.record(process);
        self.lists.put_newest(&self.records, process, woken);
        self.timers.set_due(process, woken.due);
    }

    fn release(&mut self, process: ProcessId) {
        self.records.release(process);
        let record = self.records.record(process);
        self.lists.put_newest(&self.records, process, record);
        self.timers.set_due(process, record.due);
        self.timers.set_deadline(process, record.deadline);
    }

    fn suspend(&mut self, process: ProcessId) {
        let record = self.records.record(process);
        let is_ready = is_ready(&self.records, record);
        self.records.suspend(process);
        if is_ready {
            self.lists.leave(process);
        }
    }

    fn suspend_self(&mut self, process: ProcessId, due: Option<u64>) {
        self.records.suspend_self(process, due);
        self.lists.leave(process);
        self.timers.set_due(process, due);
    }

    fn resume(&mut self, process: ProcessId) {
        self.records.resume(process);
        let record = self.records.record(process);
        if record.wait.is_none() {
            self.lists.put_newest(&self.records, process, record);
            self.timers.set_due(process, record.due);
        }
    }

    fn set_priority(&mut self, process: ProcessId, base: u8) {
        let record = self.records.record(process);
        let moves = self.records.moves_at(record, base);
        self.records.set_priority(process, base);
        if moves {
            let moved = self.records.record(process);
            self.lists.put_newest(&self.records, process, moved);
        }
    }

    fn own(&mut self, process: ProcessId, owned: Holdings) {
        let record = self.records.record(process);
        let is_level = stays_level(record, record.base, &owned);
        self.owners
            .change(process, record.owned.as_slice(), owned.as_slice());
        self.records.own(process, owned);
        if !is_level {
            let moved = self.records.record(process);
            self.lists.put_oldest(process, moved);
        }
    }

    fn inherit(&mut self, process: ProcessId, holding: Holding) {
        let owned = self.records.record(process).owned;
        let mutex = holding.mutex;
        self.records.inherit(process, holding);
        self.owners.leave(process, owned.as_slice());
        self.owners.add(mutex, process);
        let record = self.records.record(process);
        self.lists.put_newest(&self.records, process, record);
        self.timers.set_due(process, record.due);
    }

    fn place_newest(&mut self, process: ProcessId) {
        self.records.place_newest(process);
        let record = self.records.record(process);
        self.lists.put_newest(&self.records, process, record);
    }

    fn advance_to(&mut self, instant: u64) {
        self.records.advance_to(instant);
    }

    fn set_deadline(&mut self, process: ProcessId, deadline: Option<u64>) {
        self.records.set_deadline(process, deadline);
        self.timers.set_deadline(process, deadline);
    }

    fn take_missed(&mut self) -> Option<ProcessId> {
        // For the proof: the line is in the order of its instants.
        self.timers.holds();
        let process = self.timers.pop_deadline_at(self.records.now())?;
        self.records.set_deadline(process, None);
        Some(process)
    }

    fn take_due(&mut self) -> Option<ProcessId> {
        // For the proof: the line is in the order of its instants.
        self.timers.holds();
        let process = self.timers.pop_due_at(self.records.now())?;
        self.records.clear_due(process);
        Some(process)
    }

    fn set_mode(&mut self, mode: Mode) {
        self.records.set_mode(mode);
        if !mode.is_normal() {
            self.lists.clear(self.records.process_count() as u8);
        }
    }

    fn set_core(&mut self, process: ProcessId, core: CoreId) {
        self.records.set_core(process, core);
    }

    fn receive(&mut self, process: ProcessId, message: Message) {
        self.records.receive(process, message);
    }

    fn set_step(&mut self, process: ProcessId, step: u8) {
        self.records.set_step(process, step);
    }
}
