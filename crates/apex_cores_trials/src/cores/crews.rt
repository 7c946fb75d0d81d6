//! Threads: one for each core, one for the ticker, and one for a reader.

use super::reading::{await_told, reads_in_order};
use super::workers::makes_ticks;
use crate::openings::Open;
use apex_cores::{CoreReport, Gate, run_core};
use apex_partition::{Naming, Seat, Shared, Ticker};
use apex_types::{CoreId, MOST_CORES, ProcessId};
use crossbeam_utils::Backoff;
use std::alloc::Global;
use std::process::Abort;
use std::sync::Wait;
use std::sync::atomic::{AtomicU64, Ordering};
use std::thread::Threads;
use std::{mem, thread};

/// The turns of each core, half of them before the middle of the storm.
pub const TURNS: u32 = 500;

/// The ticks of the ticker, half of them before the middle of the storm.
pub const TICKS: u32 = 100;

/// The entries of the whole crew.
pub const ALL: u32 = MOST_CORES * TURNS + TICKS;

/// The reads of a reader beside a storm, half before its middle and half behind it.
pub const READS: u64 = 10_000;

/// The cores, the ticker and, if there is one, the reader of a storm, each of which begins its work
/// once all have begun; and a gate that backs off in each work. Beside a reader the others rest in
/// the middle of the storm until it has read there.
#[derive(Drop)]
pub struct Crew {
    /// The number of times that the gate backs off.
    pauses: u32,
    /// The number of the cores' threads and the ticker's.
    workers: u64,
    has_reader: bool,
    begun: AtomicU64,
    /// The number of workers that have come to the middle.
    halfway: AtomicU64,
    /// The number of fronts that the reader has read.
    reads: AtomicU64,
    /// The number of waits for other threads that gave up.
    alone: AtomicU64,
}

impl Crew {
    /// A crew of this number of workers, none of which has begun.
    fn new(pauses: u32, workers: u64, has_reader: bool) -> Crew {
        Crew {
            pauses,
            workers,
            has_reader,
            begun: AtomicU64::new(0),
            halfway: AtomicU64::new(0),
            reads: AtomicU64::new(0),
            alone: AtomicU64::new(0),
        }
    }

    /// Waits until the word has this value, at most for all polls.
    fn await_others(&self, word: &AtomicU64, wanted: u64) {
        if !await_told(word, wanted) {
            self.alone.fetch_add(1, Ordering::SeqCst);
        }
    }

    /// Begins, and waits until all have begun.
    pub fn begin(&self) {
        self.begun.fetch_add(1, Ordering::SeqCst);
        let readers = u64::from(self.has_reader);
        self.await_others(&self.begun, self.workers.saturating_add(readers));
    }

    /// Rests in the middle of the storm, until the reader, if there is one, has read there.
    fn rest_halfway(&self) {
        if self.has_reader {
            self.halfway.fetch_add(1, Ordering::SeqCst);
            self.await_others(&self.reads, READS / 2 + 1);
        }
    }

    /// Waits until all workers rest in the middle of the storm.
    pub fn await_middle(&self) {
        self.await_others(&self.halfway, self.workers);
    }

    /// Notes a front that the reader has read.
    pub fn note_read(&self) {
        self.reads.fetch_add(1, Ordering::SeqCst);
    }

    /// Whether no thread gave up a wait for others.
    fn is_whole(&self) -> bool {
        self.alone.load(Ordering::SeqCst) == 0
    }
}

impl Gate for Crew {
    ghost use Rattle.std.specs.Prelude.{⊤};

    type Token = ();

    ghost enters = { λ _ _. ⊤ };

    ghost does = { λ _ _ _ _ _. ⊤ };

    fn enter(&self, _core: CoreId) {}

    fn work(&self, _token: &mut (), _core: CoreId, _process: ProcessId, _ticks: u32) {
        let backoff = Backoff::new();
        for _ in 0..self.pauses {
            backoff.snooze();
        }
    }

    fn leave(&self, _token: ()) {}
}

/// The turns of a core, once all of the crew have begun, with a rest in their middle.
fn run_seat<P: Naming, R: Wait>(
    rt: &R,
    shared: &Shared<P>,
    crew: &Crew,
    seat: Seat<P>,
) -> CoreReport<P> {
    crew.begin();
    let report = run_core(rt, shared, seat, TURNS / 2, crew, &mut ());
    crew.rest_halfway();
    run_core(rt, shared, report.seat, TURNS / 2, crew, &mut ())
}

/// Whether the ticker makes all its ticks, once all of the crew have begun, with a rest in their
/// middle.
fn makes_all_ticks<P: Naming, R: Abort + Wait>(
    rt: &R,
    shared: &Shared<P>,
    crew: &Crew,
    ticker: &mut Option<Ticker<P>>,
) -> bool {
    crew.begin();
    let has_begun = makes_ticks(rt, shared, ticker, TICKS / 2, TICKS / 2);
    crew.rest_halfway();
    makes_ticks(rt, shared, ticker, TICKS / 2, TICKS / 2) && has_begun
}

/// Puts the seat of a worker back, and keeps its last receipt: the number of its turns, and whether
/// a full history stopped it.
pub fn put_back<P: Naming, R: Abort>(
    rt: &R,
    open: &mut Open<P>,
    report: CoreReport<P>,
) -> (u32, bool) {
    let CoreReport {
        seat,
        turns,
        last,
        full,
    } = report;
    open.seats.push(seat).expect(rt, "memory");
    let receipt = last.expect(rt, "there were turns");
    open.receipts.push(receipt).expect(rt, "memory");
    (turns, full)
}

/// The reports of the cores, in the order of their seats.
fn run_cores<P: Naming + Send + Sync, R: Abort + Threads + Wait + Sync>(
    rt: &R,
    shared: &Shared<P>,
    crew: &Crew,
    seats: Vec<Seat<P>>,
) -> Vec<CoreReport<P>> {
    let reports = thread::map_vec(rt, seats, &|seat| run_seat(rt, shared, crew, seat));
    reports.expect(rt, "memory")
}

/// Whether the ticker made all its ticks, and the reports of the cores.
fn run_workers<P: Naming + Send + Sync, R: Abort + Threads + Wait + Sync>(
    rt: &R,
    shared: &Shared<P>,
    crew: &Crew,
    seats: Vec<Seat<P>>,
    ticker: &mut Option<Ticker<P>>,
) -> (bool, Vec<CoreReport<P>>) {
    thread::join(
        rt,
        move || makes_all_ticks(rt, shared, crew, ticker),
        move || run_cores(rt, shared, crew, seats),
    )
}

/// Whether all cores and the ticker make their events, each in a thread of its own that has seen
/// all others begin, and the reader, if there is one, sees neither the entries nor the time go
/// back, and in the middle all entries of the first half.
pub fn is_weathered<P: Naming + Send + Sync, R: Abort + Threads + Wait + Sync>(
    rt: &R,
    alloc: Global,
    open: &mut Open<P>,
    pauses: u32,
) -> bool {
    let seats = mem::replace(&mut open.seats, Vec::new(alloc));
    let all = Crew::new(pauses, seats.len() as u64 + 1, open.reader.is_some());
    let crew = &all;
    let shared = &open.shared;
    let reader = &mut open.reader;
    let ticker = &mut open.ticker;
    let (is_in_order, (has_ticked, reports)) = thread::join(
        rt,
        move || reads_in_order(rt, crew, reader),
        move || run_workers(rt, shared, crew, seats, ticker),
    );
    for report in reports {
        let made = put_back(rt, open, report);
        assert!(rt; made == (TURNS / 2, false));
    }
    has_ticked && is_in_order && all.is_whole()
}
