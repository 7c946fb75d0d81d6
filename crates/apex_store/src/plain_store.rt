//! A store of one list of records, which answers each question by a scan.
ghost use Rattle.std.specs.Prelude.{◌≡◌, ◌<◌, ◌≤◌, ◌&&◌, ◌||◌, count_by, length, not, slice_index_or, IfOk};
ghost use Rattle.apex_types.specs.declared.limits.TheConstants.{MOST_PROCESSES};
ghost use Rattle.apex_types.specs.Limits.{latest};
ghost use Rattle.apex_machine.specs.processes.Owners.{owns_some};
ghost use Rattle.apex_machine.specs.processes.Roster.{opening_roster, with_record};
ghost use Rattle.apex_machine.specs.processes.Running.{is_eligible};
ghost use Rattle.apex_machine.specs.processes.Dues.{HasTime};
ghost use Rattle.apex_machine.specs.processes.Periods.{deadline_from};
ghost use Rattle.apex_types.specs.declared.modes.Discipline.TheVariants.{Fifo};
ghost use Rattle.apex_machine.specs.processes.Stamps as stamps;
ghost use Rattle.apex_machine.specs.processes.Waiters.{discipline_of, goes_by_priority, queue_in, waits_in};

use crate::dues::{earliest, first_due, first_missed};
use crate::opening::{
    buffer_disciplines, ceilings, mutex_disciplines, opening_records, semaphore_disciplines,
};
use crate::orders::waits_in;
use crate::owners::first_owner;
use crate::scan::{Behind, Runnable, Waiting, first_of};
use crate::store::Store;
use apex_configs::Table;
use apex_links::Visits;
use apex_machine::{Holding, Holdings, Queue, Record, Suspender, Wait};
use apex_types::{CoreId, Discipline, Message, Mode, MutexId, ProcessId};
use std::alloc::{AllocError, Global};
use std::marker::Model;

/// A store that keeps one list of records, and answers each question by a scan of it.
///
/// It counts each record at which a call looks, and each one once for each look.
#[derive(Drop)]
pub struct PlainStore {
    cores: u8,
    mode: Mode,
    time: u64,
    records: Vec<Record>,
    next_young: i64,
    next_old: i64,
    /// The discipline of each semaphore's queue, of each buffer's and of each mutex's.
    semaphores: Vec<Discipline>,
    buffers: Vec<Discipline>,
    mutexes: Vec<Discipline>,
    ceilings: Vec<u8>,
    /// How many mutexes a process may own at once.
    may_own: usize,
    visits: Visits,
}

impl Model for PlainStore {
    ghost use Rattle.std.specs.Prelude.{◌≤◌, length};
    ghost use Rattle.apex_types.specs.declared.limits.TheConstants.{MOST_CORES, MOST_OWNED, MOST_PROCESSES};
    ghost use Rattle.apex_machine.specs.processes.Roster.{Roster};

    ghost Value = { Roster };

    ghost view = { λ a. record {
      cores = a.cores;
      mode = a.mode;
      now = a.time;
      records = a.records.items;
      young = a.next_young;
      old = a.next_old;
      disciplines = record {
        semaphores = a.semaphores.items;
        buffers = a.buffers.items;
        mutexes = a.mutexes.items;
      };
      rules = record { ceilings = a.ceilings.items; most_owned = a.may_own };
    } };

    ghost invariant = { λ a. (a.cores ≤ MOST_CORES) × (length a.records.items ≤ MOST_PROCESSES)
        × (a.may_own ≤ MOST_OWNED) };
}

/// A suspension by another process stays when the process wakes, and one by itself ends.
fn suspension_awake(suspended: Option<Suspender>) -> Option<Suspender>
    ensures { result ≡ stamps.suspension_awake suspended }
{
    match suspended {
        Some(Suspender::Other) => Some(Suspender::Other),
        Some(Suspender::Itself) | None => None,
    }
}

/// The record of a process that wakes: it waits for nothing, and is not suspended by itself.
fn awake(fields: Record) -> Record
    ensures { result ≡ stamps.awake fields }
{
    Record {
        suspended: suspension_awake(fields.suspended),
        wait: None,
        due: None,
        ..fields
    }
}

/// The instant, in ticks, at which the process's deadline passes if it begins to run at this one.
/// None if its capacity is infinite.
fn deadline_from(instant: u64, fields: &Record) -> Option<u64>
    requires { instant ≤ latest }
    ensures { result ≡ deadline_from instant fields.now }
{
    match fields.attributes.capacity {
        Some(capacity) => Some(instant + u64::from(capacity.ticks())),
        None => None,
    }
}

/// The record of a process that is released at this instant, in ticks: it waits for nothing, and
/// its deadline begins to run.
fn released_at(instant: u64, fields: Record) -> Record
    requires { instant ≤ latest }
    ensures { result ≡ stamps.released_at instant fields }
{
    let deadline = deadline_from(instant, &fields);
    Record {
        release: instant,
        deadline,
        ..awake(fields)
    }
}

/// The record of a process at its start: not suspended, at the table's priority and first step,
/// with an empty inbox.
fn reset(fields: Record) -> Record
    ensures { result ≡ stamps.reset fields }
{
    Record {
        base: fields.attributes.priority,
        started: true,
        suspended: None,
        step: 0,
        inbox: None,
        ..fields
    }
}

/// The current priority of this record stays with this base priority and these mutexes.
pub fn stays_level(fields: &Record, base: u8, owned: &Holdings) -> bool
    ensures { result
        ≡ stamps.is_level (record fields.now { base = base; owned = owned.now }) fields.now }
{
    owned.raised(base) == fields.current_priority()
}

/// The discipline at this place, and FIFO past the end.
fn discipline_at(disciplines: &[Discipline], place: usize) -> Discipline
    ensures { result ≡ slice_index_or disciplines.now place Fifo }
{
    match disciplines.get(place) {
        Some(discipline) => *discipline,
        None => Discipline::Fifo,
    }
}

/// The number of records that wait in the queue.
#[tactic(auto, using(crate::proofs::Queues::few_wait))]
fn waiter_count(queue: Queue, records: &[Record]) -> u32
    requires { length records.now ≤ MOST_PROCESSES }
    ensures { result ≡ count_by (waits_in queue) records.now }
{
    records
        .iter()
        .filter(|fields| waits_in(queue, fields))
        .count() as u32
}

impl PlainStore {
    /// The processes of the table before any event, in COLD_START. Fails only for want of memory.
    pub fn new(alloc: Global, table: &Table) -> Result<PlainStore, AllocError>
        ensures { IfOk result (λ store. store ≡ opening_roster table.now) }
    {
        let records = opening_records(alloc, table)?;
        let semaphores = semaphore_disciplines(alloc, table)?;
        let buffers = buffer_disciplines(alloc, table)?;
        let mutexes = mutex_disciplines(alloc, table)?;
        let ceilings = ceilings(alloc, table)?;
        let next_young = records.len() as i64 + 1;
        Ok(PlainStore {
            cores: table.cores(),
            mode: Mode::ColdStart,
            time: 0,
            records,
            next_young,
            next_old: 0,
            semaphores,
            buffers,
            mutexes,
            ceilings,
            may_own: table.profile().owned(),
            visits: Visits::new(),
        })
    }

    /// The number of records at which the calls, reading ones too, have looked since the store was
    /// made; it stays at the greatest `u64`.
    pub fn visits(&self) -> u64 {
        self.visits.count()
    }

    /// The place of the process's record, at which the caller looks.
    fn look(&self, process: ProcessId) -> usize
        requires { process < length self.now.records }
        ensures { result ≡ process }
    {
        self.visits.note();
        process.place()
    }

    /// All records, at each of which the caller looks.
    fn scanned(&self) -> &[Record]
        ensures value { result.now ≡ self.now.records }
        ensures few_processes { length result.now ≤ MOST_PROCESSES }
    {
        self.visits.note_all(self.records.len());
        &self.records
    }

    /// The discipline of the queue: a semaphore's, a buffer's and a mutex's is the table's, and all
    /// others are first in, first out.
    pub fn discipline(&self, queue: &Queue) -> Discipline
        ensures { result ≡ discipline_of self.now queue.now }
    {
        match queue {
            Queue::Semaphore(semaphore) => discipline_at(&self.semaphores, semaphore.place()),
            Queue::Buffer(buffer) => discipline_at(&self.buffers, buffer.place()),
            Queue::Mutex(mutex) => discipline_at(&self.mutexes, mutex.place()),
            Queue::Normal | Queue::Blackboard(_) | Queue::EventFlag(_) => Discipline::Fifo,
        }
    }

    /// The process has no due from now on.
    pub fn clear_due(&mut self, process: ProcessId)
        requires { process < length self.old.records }
        ensures { self.new ≡ stamps.without_due self.old process }
    {
        let place = self.look(process);
        self.records[place].due = None;
    }

    /// There is a queue, and the more urgent comes first in it.
    fn goes_by_priority(&self, queue: Option<Queue>) -> bool
        ensures { result ≡ goes_by_priority self.now queue }
    {
        match queue {
            Some(queue) => self.discipline(&queue) == Discipline::Priority,
            None => false,
        }
    }

    /// The process of this record goes to another place as it gets this base priority.
    pub fn moves_at(&self, fields: &Record, base: u8) -> bool
        ensures { result ≡ ((is_eligible self.now.mode fields.now
            && not (owns_some fields.now
            && stamps.is_level (record fields.now { base = base }) fields.now))
            || goes_by_priority self.now (queue_in fields.now)) }
    {
        let stays = fields.owns_some() && stays_level(fields, base, &fields.owned);
        (fields.is_eligible(self.mode) && !stays) || self.goes_by_priority(fields.queue())
    }

    /// The mode and the time from now on, and the next stamps upwards and downwards.
    pub fn set_clock(&mut self, mode: Mode, time: u64, young: i64, old: i64)
        ensures { self.new ≡ record self.old { mode = mode; now = time; young = young; old = old } }
    {
        self.mode = mode;
        self.time = time;
        self.next_young = young;
        self.next_old = old;
    }

    /// The process has this record from now on.
    pub fn put(&mut self, process: ProcessId, fields: Record)
        requires { process < length self.old.records }
        ensures { self.new ≡ with_record self.old process fields }
    {
        let place = self.look(process);
        self.records[place] = fields;
    }

    /// The processes have the records of these others from now on.
    pub fn put_all(&mut self, others: &PlainStore)
        requires { length self.old.records ≡ length others.now.records }
        ensures { self.new ≡ record self.old { records = others.now.records } }
    {
        self.visits.note_all(self.records.len());
        self.records.copy_from_slice(others.scanned());
    }

    /// The process has this record with the next stamp upwards.
    fn put_newest(&mut self, process: ProcessId, fields: Record)
        requires known { process < length self.old.records }
        requires stamps { stamps.HasStamps self.old }
        ensures { self.new ≡ stamps.newest self.old process fields }
    {
        let stamp = self.next_young;
        self.next_young += 1;
        let place = self.look(process);
        self.records[place] = Record {
            since: stamp,
            ..fields
        };
    }

    /// The process has this record, and is the newest if the record is eligible.
    // Inlined, so that the record is built in its place.
    #[inline(always)]
    fn put_readied(&mut self, process: ProcessId, fields: Record)
        requires known { process < length self.old.records }
        requires stamps { stamps.HasStamps self.old }
        ensures { self.new ≡ stamps.readied self.old process fields }
    {
        if fields.is_eligible(self.mode) {
            self.put_newest(process, fields);
        } else {
            self.put(process, fields);
        }
    }

    /// The process begins to wait, until the due, an instant in ticks, if there is one.
    fn put_waiting(&mut self, process: ProcessId, wait: Wait, due: Option<u64>)
        requires known { process < length self.old.records }
        requires stamps { stamps.HasStamps self.old }
        ensures { self.new ≡ stamps.block self.old process wait due }
    {
        let stamp = self.next_young;
        self.next_young += 1;
        let place = self.look(process);
        let fields = &mut self.records[place];
        fields.suspended = suspension_awake(fields.suspended);
        fields.wait = Some(wait);
        fields.due = due;
        fields.since = stamp;
    }

    /// The start of the process begins after a delay in ticks.
    fn begin(&mut self, process: ProcessId, delay: u32)
        requires known { process < length self.old.records }
        requires stamps { stamps.HasStamps self.old }
        requires time { HasTime self.old }
        ensures { self.new ≡ stamps.begin self.old process delay }
    {
        if delay == 0 {
            self.release(process);
        } else {
            let due = self.time + u64::from(delay);
            self.put_waiting(process, Wait::Start, Some(due));
        }
    }
}

impl Store for PlainStore {
    ghost roster = { λ s. s };

    fn cores(&self) -> u8 {
        self.cores
    }

    fn mode(&self) -> Mode {
        self.mode
    }

    fn now(&self) -> u64 {
        self.time
    }

    fn process_count(&self) -> usize {
        self.records.len()
    }

    fn record(&self, process: ProcessId) -> &Record {
        &self.records[self.look(process)]
    }

    fn records(&self) -> &[Record] {
        self.scanned()
    }

    // Inlined, since each turn asks for it in one place.
    #[inline(always)]
    fn chosen(&self, core: CoreId) -> Option<ProcessId> {
        let order = Runnable {
            mode: self.mode,
            core,
        };
        first_of(&order, self.scanned())
    }

    // Inlined, so that the scan for a caller looks for the one kind of wait that it names.
    #[inline(always)]
    fn first(&self, queue: Queue) -> Option<ProcessId> {
        let order = Waiting {
            discipline: self.discipline(&queue),
            queue,
        };
        first_of(&order, self.scanned())
    }

    fn next_after(&self, queue: Queue, process: ProcessId) -> Option<ProcessId> {
        let order = Behind {
            discipline: self.discipline(&queue),
            queue,
            ahead: *self.record(process),
        };
        first_of(&order, self.scanned())
    }

    fn ceiling(&self, mutex: MutexId) -> u8 {
        match self.ceilings.get(mutex.place()) {
            Some(ceiling) => *ceiling,
            None => 0,
        }
    }

    fn most_owned(&self) -> usize {
        self.may_own
    }

    fn owner(&self, mutex: MutexId) -> Option<ProcessId> {
        first_owner(mutex, self.scanned())
    }

    fn next_instant(&self) -> Option<u64> {
        earliest(self.scanned())
    }

    fn waiting(&self, queue: Queue) -> u32 {
        waiter_count(queue, self.scanned())
    }

    fn start(&mut self, process: ProcessId, delay: u32) {
        let fields = *self.record(process);
        self.put(process, reset(fields));
        if self.mode.is_normal() {
            self.begin(process, delay);
        } else {
            self.put_waiting(process, Wait::Normal(delay), None);
        }
    }

    fn stop(&mut self, process: ProcessId) {
        let fields = *self.record(process);
        let stopped = Record {
            started: false,
            suspended: None,
            wait: None,
            due: None,
            deadline: None,
            owned: Holdings::none(),
            step: 0,
            inbox: None,
            ..fields
        };
        self.put(process, stopped);
    }

    fn block(&mut self, process: ProcessId, wait: Wait, due: Option<u64>) {
        self.put_waiting(process, wait, due);
    }

    fn unblock(&mut self, process: ProcessId) {
        let place = self.look(process);
        let fields = &mut self.records[place];
        fields.suspended = suspension_awake(fields.suspended);
        fields.wait = None;
        fields.due = None;
        let is_ready = fields.is_eligible(self.mode);
        if is_ready {
            fields.since = self.next_young;
            self.next_young += 1;
        }
    }

    fn release(&mut self, process: ProcessId) {
        let fields = *self.record(process);
        self.put_readied(process, released_at(self.time, fields));
    }

    fn suspend(&mut self, process: ProcessId) {
        let fields = *self.record(process);
        let suspended = Record {
            suspended: Some(Suspender::Other),
            ..fields
        };
        self.put(process, suspended);
    }

    fn suspend_self(&mut self, process: ProcessId, due: Option<u64>) {
        let fields = *self.record(process);
        let suspended = Record {
            suspended: Some(Suspender::Itself),
            wait: None,
            due,
            ..fields
        };
        self.put_newest(process, suspended);
    }

    fn resume(&mut self, process: ProcessId) {
        let fields = *self.record(process);
        if fields.is_suspended_by_itself() {
            self.put_readied(process, awake(fields));
        } else {
            let resumed = Record {
                suspended: None,
                ..fields
            };
            self.put_readied(process, resumed);
        }
    }

    fn set_priority(&mut self, process: ProcessId, base: u8) {
        let fields = *self.record(process);
        let changed = Record { base, ..fields };
        if self.moves_at(&fields, base) {
            self.put_newest(process, changed);
        } else {
            self.put(process, changed);
        }
    }

    fn own(&mut self, process: ProcessId, owned: Holdings) {
        let place = self.look(process);
        let fields = &mut self.records[place];
        let before = fields.current_priority();
        fields.owned = owned;
        if fields.current_priority() != before {
            fields.since = self.next_old;
            self.next_old -= 1;
        }
    }

    fn inherit(&mut self, process: ProcessId, holding: Holding) {
        let fields = *self.record(process);
        let owner = Record {
            owned: Holdings::one(holding),
            ..fields
        };
        self.put_readied(process, awake(owner));
    }

    fn place_newest(&mut self, process: ProcessId) {
        let placed = *self.record(process);
        self.put_newest(process, placed);
    }

    fn advance_to(&mut self, instant: u64) {
        self.time = instant;
    }

    fn set_deadline(&mut self, process: ProcessId, deadline: Option<u64>) {
        let place = self.look(process);
        self.records[place].deadline = deadline;
    }

    fn take_missed(&mut self) -> Option<ProcessId> {
        let process = first_missed(self.time, self.scanned())?;
        let place = self.look(process);
        self.records[place].deadline = None;
        Some(process)
    }

    fn take_due(&mut self) -> Option<ProcessId> {
        let process = first_due(self.time, self.scanned())?;
        self.clear_due(process);
        Some(process)
    }

    fn set_mode(&mut self, mode: Mode) {
        self.mode = mode;
    }

    fn set_core(&mut self, process: ProcessId, core: CoreId) {
        let place = self.look(process);
        self.records[place].core = core;
    }

    fn receive(&mut self, process: ProcessId, message: Message) {
        let place = self.look(process);
        self.records[place].inbox = Some(message);
    }

    fn set_step(&mut self, process: ProcessId, step: u8) {
        let place = self.look(process);
        self.records[place].step = step;
    }
}
