//! Partitions that tests close.
ghost use Rattle.std.specs.Prelude.{◌≡◌, IsTrue, length};
ghost use Rattle.apex_partition.specs.Seats.{IsSeated};

use crate::openings::Open;
use apex_history::{Counted, Page, print_history};
use apex_partition::{Closed, Front, Naming, Partition, Reader, Receipt, Seat};
use apex_types::Who;
use std::alloc::Global;
use std::mem::drop;
use std::process::Abort;
use std::sync::Wait;

/// A receipt that the closed history has confirmed.
#[derive(Clone, Copy)]
pub struct Confirmed {
    /// The maker of its entry.
    pub who: Who,
    /// The number of its entry.
    pub number: u32,
    /// Its place.
    pub place: u32,
}

/// What is left of a partition that was closed.
#[derive(Drop)]
pub struct Outcome {
    pub partition: Partition,
    /// The receipts, in the order in which they were handed out.
    pub receipts: Vec<Confirmed>,
    /// The front of which the reader was told, and the one that it saw from then on; none without a
    /// reader.
    pub fronts: Option<(Front, Front)>,
}

/// Whether these are the seats of `cores` cores, in the order of their numbers.
fn are_seats<P: Naming>(seats: &[Seat<P>], cores: usize) -> bool
    ensures seated { IsTrue result → IsSeated seats.now }
    ensures each { IsTrue result → length seats.now ≡ cores }
{
    let mut rest = seats;
    let mut core = 0usize;
    while let Some((seat, behind)) = rest.split_first() {
        if usize::from(seat.core().number()) != core {
            return false;
        }
        core += 1;
        rest = behind;
    }
    core == cores
}

/// The receipts, as the closed history confirms them.
fn confirm<P: Naming, R: Abort>(
    rt: &R,
    alloc: Global,
    closed: &Closed<P>,
    receipts: &[Receipt<P>],
) -> Vec<Confirmed> {
    let mut confirmed = Vec::new(alloc);
    for receipt in receipts {
        let entry = closed.confirm(receipt);
        assert!(rt; entry.number == receipt.entry().number);
        let receipt = Confirmed {
            who: entry.who,
            number: entry.number,
            place: receipt.place(),
        };
        confirmed.push(receipt).expect(rt, "memory");
    }
    confirmed
}

/// The front of which the reader is told, and the one that it sees from then on; none without a
/// reader.
fn tell<P: Naming, R: Wait>(
    rt: &R,
    closed: &mut Closed<P>,
    reader: Option<Reader<P>>,
) -> Option<(Front, Front)> {
    let Some(reader) = reader else {
        return None;
    };
    let (told, mut reader) = closed.tell(rt, reader);
    let seen = reader.read(rt);
    drop(reader);
    Some((told, seen))
}

/// Tells the reader of the whole history, and confirms the receipts.
fn look_back<P: Naming, R: Abort + Wait>(
    rt: &R,
    alloc: Global,
    mut closed: Closed<P>,
    reader: Option<Reader<P>>,
    receipts: Vec<Receipt<P>>,
) -> Outcome {
    let fronts = tell(rt, &mut closed, reader);
    let confirmed = confirm(rt, alloc, &closed, receipts.as_slice());
    drop(receipts);
    Outcome {
        partition: closed.into_partition(),
        receipts: confirmed,
        fronts,
    }
}

/// Closes a partition whose table has `cores` cores. The seats of all of them are there, in their
/// order.
pub fn close<P: Naming, R: Abort + Wait>(
    rt: &R,
    alloc: Global,
    open: Open<P>,
    cores: usize,
) -> Outcome
    requires { cores ≡ P.table.cores }
{
    let Open {
        shared,
        seats,
        ticker,
        reader,
        receipts,
    } = open;
    let is_whole = are_seats(seats.as_slice(), cores);
    assert!(rt; is_whole);
    let ticker = ticker.expect(rt, "the ticker is not at work");
    look_back(rt, alloc, shared.close(seats, ticker), reader, receipts)
}

/// The lines of the partition's history.
pub fn lines_of<R: Abort>(rt: &R, alloc: Global, partition: &Partition) -> Vec<u8> {
    partition.printable();
    let mut lines = Vec::new(alloc);
    let mut page = Page::new(alloc).expect(rt, "memory");
    let mut writer = Counted::new(&mut lines);
    let printed = print_history(
        partition.table(),
        partition.entries(),
        &mut page,
        &mut writer,
    );
    printed.expect(rt, "memory");
    lines
}

/// The number of entries of a partition, which is let go.
// If the end of a scope lets go a partition, the proof of its function is some ten times as long.
pub fn entry_count(partition: Partition) -> usize {
    let count = partition.entries().len();
    drop(partition);
    count
}
