//! Scenes: the steps of two seats and a ticker that share a partition, and what they leave.

use super::alone::{ALONE, FULL};
use crate::closings::{Outcome, lines_of};
use crate::openings::{Audience, open_and_play};
use crate::steps::{Shown, Step};
use crate::tables::{STARTED, WAITER_AND_SIGNALLER};
use std::alloc::Global;
use std::mem::drop;
use std::process::Abort;
use std::sync::Wait;
use std::thread::Threads;

/// The steps on a table of two cores, with one reader, and what they leave.
#[derive(Clone, Copy)]
pub struct Scene<'a> {
    pub table: &'a str,
    pub steps: &'a [Step],
    /// The front of the closed partition.
    pub last: Shown,
    /// The lines of the history, one text behind the other.
    pub lines: &'a [&'a str],
}

/// Whether each receipt is confirmed by the entry of its number, and each entry has one.
fn are_in_order(outcome: &Outcome) -> bool {
    let mut number = 0u32;
    for receipt in &outcome.receipts {
        number = number.saturating_add(1);
        if receipt.number != number {
            return false;
        }
    }
    outcome.receipts.len() == outcome.partition.entries().len()
}

/// Whether the reader is told of this front, and sees it from then on.
fn is_told(outcome: &Outcome, last: &Shown) -> bool {
    match &outcome.fronts {
        Some((told, seen)) => last.is_in(told) && last.is_in(seen),
        None => false,
    }
}

/// Whether the bytes are these texts, one behind the other.
fn are_texts(bytes: &[u8], texts: &[&str]) -> bool {
    let mut rest = bytes;
    for text in texts {
        match rest.strip_prefix(text.as_bytes()) {
            Some(behind) => rest = behind,
            None => return false,
        }
    }
    rest.is_empty()
}

/// Plays the scene, and looks at what it leaves.
pub fn act_out<R: Abort + Threads + Wait + Sync>(rt: &R, alloc: Global, scene: &Scene<'_>) {
    let outcome = open_and_play(rt, alloc, scene.table, Audience::OneReader, scene.steps);
    assert!(rt; outcome.partition.table().cores() == 2);
    assert!(rt; are_in_order(&outcome));
    assert!(rt; is_told(&outcome, &scene.last));
    let lines = lines_of(rt, alloc, &outcome.partition);
    drop(outcome);
    assert!(rt; are_texts(lines.as_slice(), scene.lines));
}

/// Nine turns of core 0, and one of core 1, in which the signal wakes the waiter.
const TEN_TURNS: Scene<'static> = Scene {
    table: WAITER_AND_SIGNALLER,
    steps: &[
        Step::Turn(0, Ok(1)),
        Step::Turn(0, Ok(2)),
        Step::Turn(0, Ok(3)),
        Step::Turn(0, Ok(4)),
        Step::Turn(0, Ok(5)),
        Step::Turn(0, Ok(6)),
        Step::Turn(0, Ok(7)),
        Step::Turn(0, Ok(8)),
        Step::Turn(0, Ok(9)),
        Step::Turn(1, Ok(1)),
        Step::Look(10),
        Step::Seat(0, (0, 9, false)),
        Step::Seat(1, (1, 1, false)),
        Step::Ticker((0, 0, false)),
    ],
    last: Shown {
        entries: 10,
        now: 0,
        running: [1, 2],
    },
    lines: &[
        STARTED,
        "9 0 core0 1 WAIT_SEMAPHORE S infinite -> BLOCKED\n",
        "10 0 core1 2 SIGNAL_SEMAPHORE S -> NO_ERROR | woken 1 NO_ERROR\n",
    ],
};

#[test]
fn look_sees_the_ten_turns_of_two_seats(rt: HostRuntime) {
    act_out(&rt, rt.alloc(), &TEN_TURNS);
}

/// A turn, a tick and a turn fill the history. Core 1 and the ticker ask twice for more; core 0
/// does not.
const FILLED: Scene<'static> = Scene {
    table: ALONE,
    steps: &[
        Step::Turn(0, Ok(1)),
        Step::Tick(3, Ok(1)),
        Step::Turn(0, Ok(2)),
        Step::Turn(1, Err(FULL)),
        Step::Tick(4, Err(FULL)),
        Step::Turn(1, Err(FULL)),
        Step::Tick(4, Err(FULL)),
        Step::Seat(0, (0, 2, false)),
        Step::Seat(1, (1, 0, true)),
        Step::Ticker((1, 3, true)),
    ],
    last: Shown {
        entries: 3,
        now: 3,
        running: [0, 0],
    },
    lines: &[
        "1 0 core0 init CREATE_PROCESS P -> NO_ERROR\n",
        "2 3 ticker - tick 3 -> ADVANCED 3\n",
        "3 3 core0 init INITIALIZE_PROCESS_CORE_AFFINITY P 0 -> NO_ERROR\n",
    ],
};

#[test]
fn a_seat_that_was_told_full_is_told_so_again(rt: HostRuntime) {
    act_out(&rt, rt.alloc(), &FILLED);
}

/// The turns of `TEN_TURNS`, with what the reader sees before them, before the last one and after
/// it.
const READ_BETWEEN: Scene<'static> = Scene {
    table: WAITER_AND_SIGNALLER,
    steps: &[
        Step::Read(Shown {
            entries: 0,
            now: 0,
            running: [0, 0],
        }),
        Step::Turn(0, Ok(1)),
        Step::Turn(0, Ok(2)),
        Step::Turn(0, Ok(3)),
        Step::Turn(0, Ok(4)),
        Step::Turn(0, Ok(5)),
        Step::Turn(0, Ok(6)),
        Step::Turn(0, Ok(7)),
        Step::Turn(0, Ok(8)),
        Step::Turn(0, Ok(9)),
        Step::Read(Shown {
            entries: 9,
            now: 0,
            running: [0, 2],
        }),
        Step::Turn(1, Ok(1)),
        Step::Read(Shown {
            entries: 10,
            now: 0,
            running: [1, 2],
        }),
        Step::Seat(0, (0, 9, false)),
        Step::Seat(1, (1, 1, false)),
        Step::Ticker((0, 0, false)),
    ],
    last: Shown {
        entries: 10,
        now: 0,
        running: [1, 2],
    },
    lines: &[
        STARTED,
        "9 0 core0 1 WAIT_SEMAPHORE S infinite -> BLOCKED\n",
        "10 0 core1 2 SIGNAL_SEMAPHORE S -> NO_ERROR | woken 1 NO_ERROR\n",
    ],
};

#[test]
fn front_of_two_seats(rt: HostRuntime) {
    act_out(&rt, rt.alloc(), &READ_BETWEEN);
}
