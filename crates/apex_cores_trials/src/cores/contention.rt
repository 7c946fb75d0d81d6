//! Eight cores in contention, by threads of their own.

use super::crews::{ALL, TICKS, TURNS};
use super::values::{is_value_by_run, value_by_entries, value_by_lines};
use crate::closings::{Outcome, lines_of};
use crate::openings::{Audience, open_and_play};
use crate::steps::Step;
use apex_history::Entries;
use apex_types::{MOST_CORES, Who};
use std::alloc::Global;
use std::mem::drop;
use std::process::Abort;
use std::str;
use std::sync::Wait;
use std::thread::Threads;

/// The table of a storm. On each of these cores a process takes a semaphore, a mutex and a place of
/// a buffer, and one stops, starts and moves the processes of the next core and of the one after
/// it.
macro_rules! storm_table {
    ($(($core:literal, $next:literal, $after:literal))*) => {
        concat!(
            "cores = 8\nhistory = 8192\n",
            $(
                "\n[[process]]\nname = \"W",
                $core,
                "\"\npriority = 10\ncore = ",
                $core,
                r#"
loop = true
start = true
script = ["WAIT_SEMAPHORE S 2", "ACQUIRE_MUTEX M 0", "RELEASE_MUTEX M", "SEND_BUFFER B 01 0",
    "RECEIVE_BUFFER B 0", "SIGNAL_SEMAPHORE S", "work 1"]
"#,
                "\n[[process]]\nname = \"K",
                $core,
                "\"\npriority = 20\ncore = ",
                $core,
                "\nloop = true\nstart = true\nscript = [\"STOP W",
                $next,
                "\", \"START W",
                $next,
                "\", \"SET_PRIORITY W",
                $after,
                " 30\", \"SET_PRIORITY W",
                $after,
                " 10\", \"TIMED_WAIT 1\"]\n",
            )*
            r#"
[[semaphore]]
name = "S"
initial = 2
maximum = 8
discipline = "FIFO"

[[mutex]]
name = "M"
ceiling = 50
discipline = "PRIORITY"

[[buffer]]
name = "B"
length = 4
capacity = 2
discipline = "PRIORITY"
"#,
        )
    };
}

const TABLE: &str = storm_table! {
    (0, 1, 2)
    (1, 2, 3)
    (2, 3, 4)
    (3, 4, 5)
    (4, 5, 6)
    (5, 6, 7)
    (6, 7, 0)
    (7, 0, 1)
};

/// The number of the last entry of a core or of the ticker.
fn last_number(entries: Entries<'_>, who: Who) -> u32 {
    let mut number = 0;
    for entry in entries {
        if entry.who == who {
            number = entry.number;
        }
    }
    number
}

/// Whether there is a receipt of the last turn of each core.
fn are_last(outcome: &Outcome) -> bool {
    for receipt in &outcome.receipts {
        let last = last_number(outcome.partition.entries(), receipt.who);
        if receipt.place != TURNS || receipt.number != last {
            return false;
        }
    }
    outcome.receipts.len() == MOST_CORES as usize
}

/// Whether the reader, if there is one, was told of all entries.
fn is_told(outcome: &Outcome) -> bool {
    match &outcome.fronts {
        Some((told, seen)) => told.entries == ALL && seen.entries == ALL,
        None => true,
    }
}

/// All ways to read the value of S from these lines of a storm agree with its value by the entries.
fn agrees<R: Abort>(rt: &R, alloc: Global, lines: &[u8], value: u64) {
    let history = str::from_utf8(lines).expect(rt, "the lines are text");
    assert!(rt; history.lines().count() == ALL as usize);
    assert!(rt; value_by_lines(history) == Some(value));
    assert!(rt; is_value_by_run(rt, alloc, TABLE, history, value));
}

/// The history has all entries that were planned, and the value of S is the same by its lines, by
/// its entries, and in the listing of a kernel that makes its events anew.
fn look_at<R: Abort>(rt: &R, alloc: Global, outcome: Outcome) {
    assert!(rt; are_last(&outcome) && is_told(&outcome));
    let value = value_by_entries(outcome.partition.entries());
    let lines = lines_of(rt, alloc, &outcome.partition);
    drop(outcome);
    let value = value.expect(rt, "no more waits than units");
    agrees(rt, alloc, lines.as_slice(), value);
}

/// The ticker, when it has made all its ticks.
const TICKED: Step = Step::Ticker((TICKS, TICKS as u64, false));

/// A storm, and one in which work takes time.
const STORM: &[Step] = &[Step::Storm(0), TICKED];

const SLOW_STORM: &[Step] = &[Step::Storm(10), TICKED];

/// Weathers a storm before this audience.
fn weather<R: Abort + Threads + Wait + Sync>(
    rt: &R,
    alloc: Global,
    storm: &[Step],
    audience: Audience,
) {
    look_at(rt, alloc, open_and_play(rt, alloc, TABLE, audience, storm));
}

#[test]
fn twenty_storms_are_weathered(rt: HostRuntime) {
    for _storm in 0..20u32 {
        weather(&rt, rt.alloc(), STORM, Audience::Nobody);
    }
}

// While a process backs off at the gate, others move it and stop it, so that much of its work is
// lost.
#[test]
fn a_storm_is_weathered_where_work_takes_time(rt: HostRuntime) {
    weather(&rt, rt.alloc(), SLOW_STORM, Audience::Nobody);
}

// Neither the entries nor the time go back while eight cores and the ticker are at work; and in the
// middle of the storm the reader sees the half of the history that is there.
#[test]
fn ten_thousand_reads_beside_a_storm(rt: HostRuntime) {
    weather(&rt, rt.alloc(), STORM, Audience::OneReader);
}
