//! Readers in threads of their own, beside a storm and beside a holder of the lock.

use super::crews::{ALL, Crew, READS};
use crate::openings::Open;
use crate::partition::{Scene, act_out};
use crate::steps::{Shown, Step};
use crate::tables::WAITER_AND_SIGNALLER;
use apex_partition::{Naming, Partition, Reader, Receipt, Shared};
use crossbeam_utils::Backoff;
use std::process::Abort;
use std::sync::Wait;
use std::sync::atomic::{AtomicU64, Ordering};
use std::thread;
use std::thread::Threads;

/// The most times that a thread asks whether another one has done its part.
const POLLS: u32 = 1_000_000;

/// The number of entries, and the time, that the reader sees.
fn read_once<P: Naming, R: Wait>(rt: &R, reader: &mut Reader<P>) -> (u32, u64) {
    let front = reader.read(rt);
    (front.entries, front.now)
}

/// What a reader saw beside a storm.
#[derive(Clone, Copy)]
struct Readings {
    /// The entries and the time of the last front.
    entries: u32,
    now: u64,
    /// Whether neither the entries nor the time ever went back.
    is_forward: bool,
}

impl Readings {
    /// A reader has read nothing.
    fn new() -> Readings {
        Readings {
            entries: 0,
            now: 0,
            is_forward: true,
        }
    }

    /// Reads once beside the crew.
    fn read<P: Naming, R: Wait>(&mut self, rt: &R, crew: &Crew, reader: &mut Reader<P>) {
        let (entries, now) = read_once(rt, reader);
        self.is_forward = self.is_forward && self.entries <= entries && self.now <= now;
        self.entries = entries;
        self.now = now;
        crew.note_read();
    }

    /// Makes half of the reads, one after the other.
    fn read_half<P: Naming, R: Wait>(&mut self, rt: &R, crew: &Crew, reader: &mut Reader<P>) {
        for _time in 0..READS / 2 {
            self.read(rt, crew, reader);
        }
    }
}

/// Makes half of the reads once all of the crew have begun, one in the middle of the storm, for
/// which the others wait, and the other half from then on. Whether nothing goes back, and the front
/// in the middle has all entries of the first half, and no others. Without a reader there is none.
pub fn reads_in_order<P: Naming, R: Wait>(
    rt: &R,
    crew: &Crew,
    reader: &mut Option<Reader<P>>,
) -> bool {
    let Some(reader) = reader else {
        return true;
    };
    let mut readings = Readings::new();
    crew.begin();
    readings.read_half(rt, crew, reader);
    crew.await_middle();
    readings.read(rt, crew, reader);
    let middle = readings.entries;
    readings.read_half(rt, crew, reader);
    readings.is_forward && middle == ALL / 2
}

/// The words between the holder of the lock and the reader's thread: whether the lock is held, and
/// the number of reads since then.
#[derive(Drop)]
struct Told {
    held: AtomicU64,
    reads: AtomicU64,
}

impl Told {
    /// The lock is not held.
    fn new() -> Told {
        Told {
            held: AtomicU64::new(0),
            reads: AtomicU64::new(0),
        }
    }
}

/// Waits until the word has this value or a greater one, at most for all polls; whether it has.
pub fn await_told(word: &AtomicU64, wanted: u64) -> bool {
    let backoff = Backoff::new();
    for _time in 0..POLLS {
        if word.load(Ordering::SeqCst) >= wanted {
            return true;
        }
        backoff.snooze();
    }
    false
}

/// Reads twice as soon as the lock is held; whether it was held.
fn read_twice<P: Naming, R: Wait>(rt: &R, told: &Told, reader: &mut Reader<P>) -> bool {
    let is_held = await_told(&told.held, 1);
    for reads in 1..3u64 {
        let _seen = read_once(rt, reader);
        told.reads.store(reads, Ordering::SeqCst);
    }
    is_held
}

/// Holds the lock until a reader has read twice; whether it has.
fn hold_until_read(_partition: &Partition, told: &Told) -> bool {
    told.held.store(1, Ordering::SeqCst);
    await_told(&told.reads, 2)
}

/// Holds the lock of the partition; whether a reader has read meanwhile.
fn hold<'a, P: Naming, R: Wait>(rt: &'a R, shared: &'a Shared<P>, told: &'a Told) -> bool {
    let unseen: Option<&'a Receipt<P>> = None;
    shared.look(rt, unseen, |partition| hold_until_read(partition, told))
}

/// Whether the partition's reader reads twice while another thread holds the lock.
pub fn reads_beside_holder<P: Naming + Send + Sync, R: Abort + Threads + Wait + Sync>(
    rt: &R,
    open: &mut Open<P>,
) -> bool {
    let words = Told::new();
    let told = &words;
    let shared = &open.shared;
    let reader = open
        .reader
        .as_mut()
        .expect(rt, "the partition has one reader");
    let (is_held, is_read) = thread::join(
        rt,
        move || read_twice(rt, told, reader),
        move || hold(rt, shared, told),
    );
    is_held && is_read
}

/// A reader reads twice under the lock, which is held before any event.
const HELD: Scene<'static> = Scene {
    table: WAITER_AND_SIGNALLER,
    steps: &[Step::ReadBesideHolder],
    last: Shown {
        entries: 0,
        now: 0,
        running: [0, 0],
    },
    lines: &[],
};

// If a reader took the lock, it could not read while another thread holds it.
#[test]
fn a_reader_reads_while_another_thread_holds_the_lock(rt: HostRuntime) {
    act_out(&rt, rt.alloc(), &HELD);
}
