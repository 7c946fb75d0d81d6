//! The steps that a test takes with an open partition, each with the answer that it must have.

use crate::cores::{Shift, is_weathered, makes_ticks, makes_turns, reads_beside_holder};
use crate::openings::Open;
use apex_partition::{Front, Naming, Partition, Reader, Receipt};
use apex_types::{Full, MOST_TICKS, ProcessId};
use std::alloc::Global;
use std::process::Abort;
use std::sync::Wait;
use std::thread::Threads;

/// What the front of two cores shows: the entries, the time, and the number of the process that
/// each core runs, which is 0 if it runs none.
#[derive(Clone, Copy)]
pub struct Shown {
    pub entries: u32,
    pub now: u64,
    pub running: [u32; 2],
}

/// A step, with its answer.
pub enum Step {
    /// A turn of the seat at this place, and the place of its receipt.
    Turn(usize, Result<u32, Full>),
    /// A tick, and the place of its receipt.
    Tick(u32, Result<u32, Full>),
    /// A look, with the last receipt and without one, and the number of entries that it sees.
    Look(usize),
    /// A reading, and what it shows.
    Read(Shown),
    /// Two readings while another thread holds the lock.
    ReadBesideHolder,
    /// The turns of the worker of the last core.
    Shift(Shift),
    /// The ticks for which the ticker's worker is asked, and those that it makes.
    Ticks(u32, u32),
    /// A storm, in which the gate backs off this number of times in each work.
    Storm(u32),
    /// The seat at this place: its core, the number of its entries, and whether it knows that the
    /// history is full.
    Seat(usize, (u8, u32, bool)),
    /// The ticker: the number of its entries, the ticks that they ask for, and whether it knows
    /// that the history is full.
    Ticker((u32, u64, bool)),
}

impl Shown {
    /// Whether the front shows this.
    pub fn is_in(&self, front: &Front) -> bool {
        let chosen = front.chosen.as_slice();
        let [first, second] = self.running;
        let is_there = runs(chosen.get(0), first)
            && runs(chosen.get(1), second)
            && chosen.len() == 2;
        front.entries == self.entries && front.now == self.now && is_there
    }
}

/// Whether a core runs the process of this number, or none if it is 0.
fn runs(running: Option<&Option<ProcessId>>, number: u32) -> bool {
    match running {
        Some(Some(process)) => process.number() == number,
        Some(None) => number == 0,
        None => false,
    }
}

/// Keeps the receipt of an event: its place.
fn keep<P: Naming, R: Abort>(
    rt: &R,
    receipts: &mut Vec<Receipt<P>>,
    got: Result<Receipt<P>, Full>,
) -> Result<u32, Full> {
    match got {
        Ok(receipt) => {
            let place = receipt.place();
            receipts.push(receipt).expect(rt, "memory");
            Ok(place)
        }
        Err(full) => Err(full),
    }
}

/// One turn of the seat at this place.
fn turn<P: Naming, R: Abort + Wait>(rt: &R, open: &mut Open<P>, place: usize) -> Result<u32, Full> {
    let seat = open.seats.get_mut(place).expect(rt, "the core has a seat");
    let got = open.shared.turn(rt, seat);
    keep(rt, &mut open.receipts, got)
}

/// One tick.
fn tick<P: Naming, R: Abort + Wait>(rt: &R, open: &mut Open<P>, ticks: u32) -> Result<u32, Full> {
    assert!(rt; 1 <= ticks && ticks <= MOST_TICKS);
    let ticker = open.ticker.as_mut().expect(rt, "the ticker is not at work");
    let got = open.shared.tick(rt, ticker, ticks);
    keep(rt, &mut open.receipts, got)
}

fn entry_count(partition: &Partition) -> usize {
    partition.entries().len()
}

/// The number of entries that a look sees, with a receipt or without one.
fn look<'a, P: Naming, R: Wait>(
    rt: &'a R,
    open: &'a Open<P>,
    receipt: Option<&'a Receipt<P>>,
) -> usize {
    open.shared
        .look(rt, receipt, |partition| entry_count(partition))
}

/// Whether a look sees this number of entries, with the last receipt and without one.
fn is_seen<'a, P: Naming, R: Wait>(rt: &'a R, open: &'a Open<P>, entries: usize) -> bool {
    look(rt, open, open.receipts.as_slice().last()) == entries && look(rt, open, None) == entries
}

/// Whether the reader, which is there, sees this.
fn is_read<P: Naming, R: Wait>(rt: &R, reader: &mut Option<Reader<P>>, shown: &Shown) -> bool {
    match reader {
        Some(reader) => shown.is_in(&reader.read(rt)),
        None => false,
    }
}

/// Whether the seat at this place is as a step has it.
fn is_seat<P: Naming>(open: &Open<P>, place: usize, wanted: (u8, u32, bool)) -> bool {
    match open.seats.get(place) {
        Some(seat) => (seat.core().number(), seat.count(), seat.told_full()) == wanted,
        None => false,
    }
}

/// Whether the ticker is as a step has it.
fn is_ticker<P: Naming>(open: &Open<P>, wanted: (u32, u64, bool)) -> bool {
    match &open.ticker {
        Some(ticker) => (ticker.count(), ticker.sum(), ticker.told_full()) == wanted,
        None => false,
    }
}

/// Takes the step; whether it has its answer.
fn take_step<P: Naming + Send + Sync, R: Abort + Threads + Wait + Sync>(
    rt: &R,
    alloc: Global,
    open: &mut Open<P>,
    step: &Step,
) -> bool {
    match step {
        Step::Turn(place, answer) => turn(rt, open, *place) == *answer,
        Step::Tick(ticks, answer) => tick(rt, open, *ticks) == *answer,
        Step::Look(entries) => is_seen(rt, open, *entries),
        Step::Read(shown) => is_read(rt, &mut open.reader, shown),
        Step::ReadBesideHolder => reads_beside_holder(rt, open),
        Step::Shift(shift) => makes_turns(rt, open, *shift),
        Step::Ticks(asked, made) => {
            makes_ticks(rt, &open.shared, &mut open.ticker, *asked, *made)
        }
        Step::Storm(pauses) => is_weathered(rt, alloc, open, *pauses),
        Step::Seat(place, wanted) => is_seat(open, *place, *wanted),
        Step::Ticker(wanted) => is_ticker(open, *wanted),
    }
}

/// Takes the steps, each of which has its answer.
pub fn take_steps<P: Naming + Send + Sync, R: Abort + Threads + Wait + Sync>(
    rt: &R,
    alloc: Global,
    open: &mut Open<P>,
    steps: &[Step],
) {
    for step in steps {
        let is_answered = take_step(rt, alloc, open, step);
        assert!(rt; is_answered);
    }
}
