//! The kernel of one partition: boot, turn, tick and run.
ghost use Rattle.std.specs.Prelude.{◌≡◌, ◌<◌, ◌≤◌, ◌↔◌, ◌+◌, ◌^◌, [], ◌∷◌, ◌++◌, length, ◌&&◌, ◌==◌, if◌then◌else◌, Some, slice_get, All, IfOk, IfErr, OnOk, OnErr, IsOk};
ghost use Rattle.std.specs.Io.KnownBytes.{Appends};
ghost use Rattle.apex_types.specs.declared.limits.TheConstants.{MOST_ENTRIES, MOST_TICKS};
ghost use Rattle.apex_types.specs.Limits.{latest};
ghost use Rattle.apex_machine.specs.processes.Roster.{opening_roster};
ghost use Rattle.apex_calls.specs.Lines.{IsPrintable, lines_of};
ghost use Rattle.apex_machine.specs.text.Listing.{listing, listing_of};
ghost use Rattle.apex_machine.specs.Machine.{opening, accept, turn, tick, run, replay, events_of, situation_of};
ghost use Rattle.apex_machine.specs.table.Table.{IsLawful};
ghost use Rattle.apex_machine.specs.processes.Distinct.{HasDistinctStamps};
ghost use Rattle.apex_history.specs.Counted.{inner_of, failures_of, CountsFailure, AppendsBeginning, IsOfWrite};
ghost use Rattle.apex_machine.specs.Events.{IsWithin};
ghost use Rattle.apex_dispatch.specs.Kernel.{kernel_in};
ghost use Rattle.apex_dispatch.specs.Situations.{situation_in};

use crate::deeds::Deed;
use crate::situations::Situation;
use apex_configs::Table;
use apex_history::{Counted, Entries, Log, Page, Sink, print_history};
use apex_services::Listing;
use apex_store::Store;
use apex_types::{CoreId, Event, Full, LentEntry, Notices, Who};
use std::alloc::{AllocError, Global};
use std::io;
use std::marker::Model;

/// The kernel of one partition, over any store of its processes: its situation, and a log.
pub struct Kernel<S: Store> {
    table: Table,
    situation: Situation<S>,
    log: Log,
    /// The notices of the latest event.
    notices: Notices,
}

// Whoever owns a kernel lets it go in one step, and not in one for each field.
impl<S: Store> Drop for Kernel<S> {
    fn drop(self) {
        let Kernel {
            table: _table,
            situation: _situation,
            log: _log,
            notices: _notices,
        } = self;
    }
}

impl<S: Store> Model for Kernel<S> {
    ghost use Rattle.apex_dispatch.specs.Kernel.{KernelState, kernel_with, IsKept};
    ghost use Rattle.apex_dispatch.specs.Situations.{situation_in};

    ghost Value = { KernelState S };

    ghost view = { λ k. kernel_with k.table (situation_in k.situation) k.log.entries
        k.situation.store };

    ghost invariant = { λ k. IsKept
        (kernel_with k.table (situation_in k.situation) k.log.entries k.situation.store)
        (situation_in k.situation) k.log.limit };
}

/// Refuses an event if the history has no room for its entry.
fn refuse_full(log: &Log) -> Result<(), Full>
    ensures accepted { IsOk result ↔ (length log.now.entries < log.now.limit) }
    ensures full { IfErr result (λ e. (e.entries ≡ length log.now.entries)
        × (e.entries ≡ log.now.limit)) }
{
    if log.is_full() {
        Err(Full {
            entries: log.limit(),
        })
    } else {
        Ok(())
    }
}

/// Adds the entry of a deed that was done at this time.
#[inline(always)]
fn append(log: &mut Log, now: u64, who: Who, deed: Deed, notices: &Notices)
    requires room { length log.old.entries < log.old.limit }
    requires few_entries { log.old.limit ≤ MOST_ENTRIES }
    ensures entries { log.new.entries ≡ log.old.entries ++ record {
      number = length log.old.entries + 1;
      now = now;
      who = who;
      process = deed.caller;
      call = deed.call;
      reply = deed.reply;
      notices = notices.now;
    } ∷ [] }
    ensures limit { log.new.limit ≡ log.old.limit }
{
    let number = log.len() as u32 + 1;
    log.push(&LentEntry {
        number,
        now,
        who,
        process: deed.caller,
        call: deed.call,
        reply: deed.reply,
        notices: notices.as_slice(),
    });
}

impl<S: Store> Kernel<S> {
    /// The kernel before any event, which takes all the memory that events will fill. It fails
    /// only for want of memory.
    pub fn boot(alloc: Global, table: Table, store: S) -> Result<Kernel<S>, AllocError>
        requires { S.roster store ≡ opening_roster table }
        ensures { IfOk result (λ kernel. kernel ≡ kernel_in table (opening table) kernel.store) }
    {
        table.lawful();
        let situation = Situation::opening(alloc, &table, store)?;
        let log = Log::new(alloc, table.limit())?;
        Ok(Kernel {
            table,
            situation,
            log,
            notices: Notices::new(),
        })
    }

    /// One turn of the core, whole. `Full` if the history has no room for its entry, and then
    /// nothing changes.
    pub fn turn(&mut self, core: CoreId) -> Result<(), Full>
        requires { core < self.old.table.cores }
        ensures accepted { IsOk result ↔ (length self.old.machine.history < self.old.table.limit) }
        ensures done { OnOk result
            (self.new ≡ kernel_in self.old.table (turn self.old.table self.old.machine core)
            self.new.store) }
        ensures refused { OnErr result (self.new ≡ self.old) }
        ensures full { IfErr result (λ e. (e.entries ≡ length self.old.machine.history)
            × (e.entries ≡ self.old.table.limit)) }
    {
        refuse_full(&self.log)?;
        let done = self
            .situation
            .turn_unless_idle(&self.table, core, &mut self.notices);
        let (now, who) = (self.situation.now(), Who::Core(core));
        match done {
            Some(deed) => append(&mut self.log, now, who, deed, &self.notices),
            None => append(&mut self.log, now, who, Deed::idle(), &self.notices),
        }
        Ok(())
    }

    /// One tick, whole: time goes on by `n` ticks, but not past the next instant at which a wait
    /// ends by itself or a deadline passes. `Full` if the history has no room for its entry, and
    /// then nothing changes.
    pub fn tick(&mut self, n: u32) -> Result<(), Full>
        requires range { (1 ≤ n) × (n ≤ MOST_TICKS) }
        ensures accepted { IsOk result ↔ (length self.old.machine.history < self.old.table.limit) }
        ensures done { OnOk result
            (self.new ≡ kernel_in self.old.table (tick self.old.table self.old.machine n)
            self.new.store) }
        ensures refused { OnErr result (self.new ≡ self.old) }
        ensures full { IfErr result (λ e. (e.entries ≡ length self.old.machine.history)
            × (e.entries ≡ self.old.table.limit)) }
    {
        refuse_full(&self.log)?;
        let deed = self.situation.tick(&self.table, n, &mut self.notices);
        let now = self.situation.now();
        append(&mut self.log, now, Who::Ticker, deed, &self.notices);
        Ok(())
    }

    /// The event, if the history has room for it: its turn or its tick. Otherwise it is answered
    /// `Full`, and nothing changes.
    #[tactic(auto, using(crate::proofs::Accepted::accepts))]
    pub fn accept(&mut self, event: Event) -> Result<(), Full>
        requires { IsWithin self.old.table.cores event }
        ensures accepted { IsOk result ↔ (length self.old.machine.history < self.old.table.limit) }
        ensures done { self.new
            ≡ kernel_in self.old.table (accept self.old.table self.old.machine event)
            self.new.store }
        ensures refused { OnErr result (self.new ≡ self.old) }
        ensures full { IfErr result (λ e. (e.entries ≡ length self.old.machine.history)
            × (e.entries ≡ self.old.table.limit)) }
    {
        self.holds();
        match event {
            Event::Turn(core) => self.turn(core),
            Event::Tick(n) => self.tick(n),
        }
    }

    /// The events, one after the other, up to the first for which the history has no room, which is
    /// answered `Full`; those before it are done. So the state is that after the events of the
    /// history and these.
    pub fn run(&mut self, events: &[Event]) -> Result<(), Full>
        requires { All (IsWithin self.old.table.cores) events.now }
        ensures done { self.new ≡ kernel_in self.old.table
            (run self.old.table (opening self.old.table)
            (events_of self.old.machine.history ++ events.now)) self.new.store }
        ensures accepted { IsOk result ↔ (length self.old.machine.history + length events.now
            ≤ self.old.table.limit) }
        ensures full { IfErr result (λ e. e.entries ≡ self.old.table.limit) }
    {
        self.holds();
        for event in events {
            self.accept(*event)?;
        }
        Ok(())
    }

    /// The facts about every kernel: its running values are those that its history gives; the
    /// events that its history records are in range and, run anew, give its very state; it has a
    /// record for each process of the table, and no two of them have the same stamp; its history is
    /// within the table's limit; its time is at most 2^36 ticks; and the ids that its entries name
    /// are the table's.
    pub fn holds(&self)
        ensures values { self.now ≡ kernel_in self.now.table self.now.machine self.now.store }
        ensures replays { replay self.now.table self.now.machine.history ≡ self.now.machine }
        ensures events { All (IsWithin self.now.table.cores) (events_of self.now.machine.history) }
        ensures records { length self.now.machine.roster.records ≡ length self.now.table.processes }
        ensures within { length self.now.machine.history ≤ self.now.table.limit }
        ensures time { self.now.machine.roster.now ≤ latest }
        ensures lawful { IsLawful self.now.table }
        ensures stamps { HasDistinctStamps self.now.machine.roster }
        ensures printable { All (IsPrintable self.now.table) self.now.machine.history }
    {
        let _entries = self.log.len();
    }

    /// The history so far, the oldest entry first.
    pub fn entries(&self) -> Entries<'_>
        ensures { result ≡ self.now.machine.history }
    {
        self.log.entries()
    }

    /// The entry at this place of the history, counted from 0.
    pub fn entry(&self, place: usize) -> LentEntry<'_>
        requires { place < length self.now.machine.history }
        ensures { slice_get self.now.machine.history place ≡ Some result }
    {
        self.log.entry(place)
    }

    /// The listing of the partition.
    fn listing(&self) -> Listing<'_, S>
        ensures { listing_of result.table result.roster result.objects result.entries
            ≡ listing self.now.table self.now.machine }
    {
        let store = self.situation.store();
        let _cores = store.cores();
        Listing {
            table: &self.table,
            store,
            objects: self.situation.objects(),
            entries: self.log.len() as u32,
        }
    }

    /// Writes the status listing of the present state, many of its lines with one write (this
    /// profile). Takes no memory: the lines are gathered in the page.
    ///
    /// If a write failed, a prefix of the listing was written. The text that the page held before
    /// is forgotten.
    pub fn print_status<W: Sink>(&self, page: &mut Page, writer: &mut Counted<W>) -> io::Result<()>
        ensures ok { OnOk result
            (Appends (W.contents (inner_of writer.old)) (W.contents (inner_of writer.new))
            (listing self.now.table self.now.machine)) }
        ensures err { OnErr result
            (AppendsBeginning (W.contents (inner_of writer.old)) (W.contents (inner_of writer.new))
            (listing self.now.table self.now.machine)) }
        ensures empty { page.new ≡ [] }
        ensures counted { CountsFailure result (failures_of writer.old) (failures_of writer.new) }
        ensures failed { IfErr result (IsOfWrite W.accepts (inner_of writer.new)) }
    {
        self.listing().print(page, writer)
    }

    /// Writes the lines of the history so far, many of them with one write. Takes no memory: the lines
    /// are gathered in the page.
    ///
    /// If a write failed, a prefix of the lines was written. The text that the page held before is
    /// forgotten.
    pub fn print_history<W: Sink>(&self, page: &mut Page, writer: &mut Counted<W>) -> io::Result<()>
        ensures ok { OnOk result
            (Appends (W.contents (inner_of writer.old)) (W.contents (inner_of writer.new))
            (lines_of self.now.table self.now.machine.history)) }
        ensures err { OnErr result
            (AppendsBeginning (W.contents (inner_of writer.old)) (W.contents (inner_of writer.new))
            (lines_of self.now.table self.now.machine.history)) }
        ensures empty { page.new ≡ [] }
        ensures counted { CountsFailure result (failures_of writer.old) (failures_of writer.new) }
        ensures failed { IfErr result (IsOfWrite W.accepts (inner_of writer.new)) }
    {
        self.holds();
        print_history(&self.table, self.entries(), page, writer)
    }

    /// The time in ticks.
    pub fn now(&self) -> u64
        ensures { result ≡ self.now.machine.roster.now }
    {
        self.situation.now()
    }

    /// The store of its processes.
    pub fn store(&self) -> &S
        ensures value { result.now ≡ self.now.store }
        ensures roster { S.roster result.now ≡ self.now.machine.roster }
    {
        self.situation.store()
    }

    /// The situation that the history has led to.
    pub fn situation(&self) -> &Situation<S>
        ensures { situation_in result.now ≡ situation_of self.now.table self.now.machine }
    {
        &self.situation
    }

    /// The table of its partition.
    pub fn table(&self) -> &Table
        ensures { result.now ≡ self.now.table }
    {
        &self.table
    }

    /// The table, for another kernel of it.
    pub fn into_table(self) -> Table
        ensures { result ≡ self.table }
    {
        let Kernel {
            table,
            situation: _situation,
            log: _log,
            notices: _notices,
        } = self;
        table
    }
}
