//! The value under the lock.
ghost use Rattle.std.specs.Prelude.{◌≡◌, ◌<◌, ◌≤◌, ◌↔◌, length, All, IfOk, IfErr, IfSome, OnOk, OnErr, IsOk, None, Some, slice_get};
ghost use Rattle.std.specs.List.{last_or};
ghost use Rattle.apex_types.specs.declared.limits.TheConstants.{MOST_ENTRIES, MOST_TICKS};
ghost use Rattle.apex_calls.specs.Lines.{IsPrintable};
ghost use Rattle.apex_machine.specs.Machine.{events_of};
ghost use Rattle.apex_machine.specs.processes.Running.{chosen, process_state};
ghost use Rattle.apex_machine.specs.Events.{IsWithin};
ghost use Rattle.apex_store.specs.Laws.{RunsMostUrgent};
ghost use Rattle.apex_board.specs.Fronts.{FitsWords, IsFrontAfter, front_of};
ghost use Rattle.apex_partition.specs.Headline.{Headline};
ghost use Rattle.apex_partition.specs.Steps.{IsFullAt, after_tick, after_turn, opened};

use apex_board::Front;
use apex_configs::Table;
use apex_dispatch::{Kernel, values_and_dues_are_in_range};
use apex_history::Entries;
use apex_process::QueueStore;
use apex_store::Store;
use apex_types::{CoreId, Full, LentEntry, ProcessId, State};
use arrayvec::ArrayVec;
use std::alloc::{AllocError, Global};
use std::marker::Model;

/// A partition over linked lists. Contracts see it as the state of its kernel and all that its store
/// keeps. The headline holds of every value of this type and of the lists that this very value
/// stores: so of the value that each holder of the lock gets, and of the one that it leaves.
#[derive(Drop)]
pub struct Partition {
    kernel: Kernel<QueueStore>,
}

impl Model for Partition {
    ghost use Rattle.apex_partition.specs.Headline.{Headline, PartitionState};

    ghost Value = { PartitionState };

    ghost view = { λ p. p.kernel };

    ghost invariant = { λ p. Headline p.kernel };
}

/// The headline holds of every kernel over linked lists, with the lists that its store keeps.
fn headline_holds(kernel: &Kernel<QueueStore>)
    ensures { Headline kernel.now }
{
    kernel.holds();
    values_and_dues_are_in_range(kernel);
    kernel.store().holds();
}

impl Partition {
    /// The partition before any event, which takes all the memory that events will fill. It fails
    /// only for want of memory.
    pub fn boot(alloc: Global, table: Table) -> Result<Partition, AllocError>
        ensures { IfOk result (λ partition. partition ≡ opened table partition.store) }
    {
        let store = QueueStore::new(alloc, &table)?;
        let kernel = Kernel::boot(alloc, table, store)?;
        headline_holds(&kernel);
        Ok(Partition { kernel })
    }

    /// One turn of the core, whole. `Full` if the history has no room for its entry, and then
    /// nothing changes.
    pub fn turn(&mut self, core: CoreId) -> Result<(), Full>
        requires { core < self.old.table.cores }
        ensures accepted { IsOk result ↔ (length self.old.machine.history < self.old.table.limit) }
        ensures done { OnOk result (self.new ≡ after_turn self.old core self.new.store) }
        ensures refused { OnErr result (self.new ≡ self.old) }
        ensures full { IfErr result (λ e. IsFullAt self.old e.entries) }
    {
        let result = self.kernel.turn(core);
        headline_holds(&self.kernel);
        result
    }

    /// One tick, whole: time goes on by `n` ticks, but not past the next instant at which a wait
    /// ends by itself or a deadline passes. `Full` if the history has no room for its entry, and
    /// then nothing changes.
    pub fn tick(&mut self, n: u32) -> Result<(), Full>
        requires range { (1 ≤ n) × (n ≤ MOST_TICKS) }
        ensures accepted { IsOk result ↔ (length self.old.machine.history < self.old.table.limit) }
        ensures done { OnOk result (self.new ≡ after_tick self.old n self.new.store) }
        ensures refused { OnErr result (self.new ≡ self.old) }
        ensures full { IfErr result (λ e. IsFullAt self.old e.entries) }
    {
        let result = self.kernel.tick(n);
        headline_holds(&self.kernel);
        result
    }

    /// The process that the core runs: its highest-priority, longest-ready one, which is the first
    /// of its highest ready list that is not empty.
    pub fn chosen(&self, core: CoreId) -> Option<ProcessId>
        ensures value { result ≡ chosen self.now.machine.roster core }
        ensures known { IfSome result (λ p. p < length self.now.machine.roster.records) }
        ensures urgent { RunsMostUrgent self.now.machine.roster core }
    {
        self.store().chosen(core)
    }

    /// The state of the process.
    pub fn state(&self, process: ProcessId) -> State
        requires known { process < length self.now.machine.roster.records }
        ensures { result ≡ process_state self.now.machine.roster process }
    {
        self.store().state(process)
    }

    /// The front of the partition: how many entries its history has, the time, and which process
    /// each core runs.
    pub fn front(&self) -> Front
        ensures shown { result ≡ front_of self.now.table self.now.machine }
        ensures after { IsFrontAfter self.now.table self.now.machine.history result }
        ensures fits { FitsWords result }
    {
        self.kernel.holds();
        let mut chosen = ArrayVec::new();
        for core in 0..self.table().cores() {
            chosen.push(self.chosen(CoreId::new(core)));
        }
        Front {
            entries: self.entries().len() as u32,
            now: self.kernel.now(),
            chosen,
        }
    }

    /// The store in which the partition keeps its processes. The headline holds of the partition,
    /// with the lists of this store.
    pub fn store(&self) -> &QueueStore
        ensures stored { result.now ≡ self.now.store }
        ensures roster { result.now.roster ≡ self.now.machine.roster }
        ensures headline { Headline self.now }
    {
        self.kernel.store()
    }

    /// The history so far, the oldest entry first.
    pub fn entries(&self) -> Entries<'_>
        ensures { result ≡ self.now.machine.history }
    {
        self.kernel.entries()
    }

    /// The entry at this place of the history, counted from 0.
    pub(crate) fn entry(&self, place: usize) -> LentEntry<'_>
        requires { place < length self.now.machine.history }
        ensures { slice_get self.now.machine.history place ≡ Some result }
    {
        self.kernel.entry(place)
    }

    /// The last entry of the history, which has one.
    pub(crate) fn latest(&self) -> LentEntry<'_>
        requires { 0 < length self.now.machine.history }
        ensures { last_or None self.now.machine.history ≡ Some result }
    {
        match self.kernel.entries().latest() {
            Some(entry) => entry,
            None => unreachable!(),
        }
    }

    /// The history is within its limit, which is small enough to be counted; its events are of the
    /// table's cores and of the ticker; and it can be printed.
    pub(crate) fn stays_within(&self)
        ensures room { length self.now.machine.history ≤ self.now.table.limit }
        ensures few_entries { self.now.table.limit ≤ MOST_ENTRIES }
        ensures events { All (IsWithin self.now.table.cores) (events_of self.now.machine.history) }
        ensures printable { All (IsPrintable self.now.table) self.now.machine.history }
    {
        self.kernel.holds();
    }

    /// The table that the partition was booted with.
    pub fn table(&self) -> &Table
        ensures { result.now ≡ self.now.table }
    {
        self.kernel.table()
    }

    /// Each entry of the history can be printed: the things that it names are the table's.
    pub fn printable(&self)
        ensures { All (IsPrintable self.now.table) self.now.machine.history }
    {
        self.kernel.holds();
    }

    /// The headline: whenever the partition's lock is free, each core's running process is the
    /// highest-priority, longest-ready one bound to it, every process is in exactly one state and
    /// at most one queue, each semaphore's value is its start plus accepted signals less satisfied
    /// waits, and the stored history replays on the one-thread machine with the same return codes
    /// and releases. It speaks of the lists that this partition stores; [`Partition::store`] lends
    /// them.
    pub fn holds(&self)
        ensures { Headline self.now }
    {
        let _entries = self.kernel.entries();
    }
}
