//! Runs of which a thread is refused, and the ticker's thread beside the cores.
ghost use Rattle.std.specs.Prelude.{◌≡◌, None, length};
ghost use Rattle.apex_receipts.specs.Receipts.{IsNamedAfter};

use super::gates::Counter;
use crate::closings::entry_count;
use apex_configs::Table;
use apex_cores::{RunFault, RunPlan, Starts, run_partition_with};
use apex_partition::{Closed, Naming, Opened};
use apex_table::read_table;
use std::alloc::Global;
use std::marker::Brand;
use std::process::Abort;
use std::sync::Wait;
use std::thread::Threads;

/// Core 0 makes the four turns of the init list and then works in every second turn; the others are
/// idle.
const THREE_CORES: &str = r#"
cores = 3
history = 8000

[[process]]
name = "P"
priority = 10
loop = true
start = true
script = ["work 1"]
"#;

/// Four turns for the init list, and 1,000 pairs of turns for work.
const PLAN: RunPlan = RunPlan {
    turns: 2004,
    ticks: 5,
};

/// The number of core 0's turns that begin work.
const WORKS: u64 = 1000;

/// Refuses the thread of this number, and counts the threads for which it is asked.
#[derive(Clone, Copy)]
struct AllBut {
    refused: u32,
    asked: u32,
    is_in_turn: bool,
}

impl Starts for AllBut {
    ghost use Rattle.std.specs.Prelude.{⊤};

    ghost asks = { λ _ _ _ _. ⊤ };

    fn may(&mut self, thread: u32) -> bool {
        self.is_in_turn = self.is_in_turn && thread == self.asked;
        self.asked = self.asked.saturating_add(1);
        thread != self.refused
    }
}

/// The result of a run: its entries or its fault, the threads that were asked for, and the gate's
/// calls.
#[derive(Drop)]
struct Outcome {
    entries: Result<usize, RunFault>,
    starts: AllBut,
    works: u64,
}

/// The number of entries of a run of a partition that is named after this book, or its fault.
fn run_named<P: Naming + Send + Sync, R: Abort + Threads + Wait + Sync>(
    rt: &R,
    alloc: Global,
    table: Table,
    opened: Opened,
    plan: RunPlan,
    starts: &mut AllBut,
    gate: &Counter,
) -> Result<usize, RunFault>
    requires table { P.table ≡ table }
    requires named { IsNamedAfter P.book P.scribe P.voice opened }
    requires cores { length opened.cores ≡ table.cores }
    requires cell { P.cell ≡ None }
{
    let closed: Closed<P> = run_partition_with(rt, alloc, table, opened, plan, starts, gate)?;
    Ok(entry_count(closed.into_partition()))
}

/// Runs the partition of this table, of which the thread of this number is refused.
fn run_without<R: Abort + Threads + Wait + Sync>(
    rt: &R,
    alloc: Global,
    text: &str,
    plan: RunPlan,
    refused: u32,
) -> Outcome {
    let table = read_table(alloc, text.as_bytes()).expect(rt, "the table is lawful");
    let opened = Opened::new(alloc, u32::from(table.cores())).expect(rt, "memory");
    let gate = Counter::new();
    let mut starts = AllBut {
        refused,
        asked: 0,
        is_in_turn: true,
    };
    let entries = run_named::<Brand, R>(rt, alloc, table, opened, plan, &mut starts, &gate);
    Outcome {
        entries,
        starts,
        works: gate.calls(),
    }
}

/// Whether the run answers that the thread of this number was refused, once those before it have
/// ended.
fn is_told_of_refusal(run: &Outcome, refused: u32) -> bool {
    // The threads that had begun have come to their end when the run has, so that all work of core
    // 0 was done.
    let works = if refused == 0 { 0 } else { WORKS };
    run.entries == Err(RunFault::NoThread)
        && run.starts.asked == refused.saturating_add(1)
        && run.starts.is_in_turn
        && run.works == works
}

#[test]
fn a_refused_thread_is_told_once_the_others_have_ended(rt: HostRuntime) {
    for refused in 0..4u32 {
        let run = run_without(&rt, rt.alloc(), THREE_CORES, PLAN, refused);
        assert!(rt; is_told_of_refusal(&run, refused), "thread {refused}");
    }
}

#[test]
fn no_thread_is_refused_where_all_may_start(rt: HostRuntime) {
    let run = run_without(&rt, rt.alloc(), THREE_CORES, PLAN, 4);
    assert!(rt; run.entries == Ok(6017));
    assert!(rt; run.starts.asked == 4 && run.starts.is_in_turn);
    assert!(rt; run.works == WORKS);
}

/// The process works once a tick has come after its wait began.
const WAITER_FOR_TIME: &str = r#"
cores = 1
history = 65536

[[process]]
name = "P"
priority = 10
start = true
script = ["TIMED_WAIT 1", "work 1"]
"#;

/// As many runs, since a machine may let one thread come to its end before it lets the other begin.
const MOST_RUNS: u32 = 50;

// If the ticker's thread began only once the core's had ended, no work would ever begin.
#[test]
fn the_ticker_ticks_while_the_core_takes_turns(rt: HostRuntime) {
    let plan = RunPlan {
        turns: 30_000,
        ticks: 30_000,
    };
    let mut has_worked = false;
    for _ in 0..MOST_RUNS {
        if !has_worked {
            let run = run_without(&rt, rt.alloc(), WAITER_FOR_TIME, plan, 2);
            assert!(rt; run.entries == Ok(60_000));
            has_worked = run.works == 1;
        }
    }
    assert!(rt; has_worked);
}
