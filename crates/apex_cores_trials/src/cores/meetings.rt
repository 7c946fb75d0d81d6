//! Two cores, each of which works only if the other one does, too.
ghost use Rattle.std.specs.Prelude.{◌≡◌, None, length};
ghost use Rattle.apex_receipts.specs.Receipts.{IsNamedAfter};

use crate::closings::entry_count;
use apex_configs::Table;
use apex_cores::{Gate, RunFault, RunPlan, run_partition};
use apex_partition::{Closed, Naming, Opened};
use apex_table::read_table;
use apex_types::{CoreId, ProcessId};
use crossbeam_utils::Backoff;
use std::alloc::Global;
use std::marker::Brand;
use std::process::Abort;
use std::sync::Wait;
use std::sync::atomic::{AtomicBool, Ordering};
use std::thread::Threads;

const TABLE: &str = r#"
cores = 2
history = 65536

[[process]]
name = "A"
priority = 10
core = 0
start = true
script = ["work 1"]

[[process]]
name = "B"
priority = 10
core = 1
start = true
script = ["work 1"]
"#;

/// The number of times that a core asks whether the other one's work has begun.
const POLLS: u32 = 1_000_000;

/// A gate that holds each core's work until the other one's has begun.
#[derive(Drop)]
struct Meeting {
    first: AtomicBool,
    second: AtomicBool,
    missed: AtomicBool,
}

impl Gate for Meeting {
    ghost use Rattle.std.specs.Prelude.{⊤};

    type Token = ();

    ghost enters = { λ _ _. ⊤ };

    ghost does = { λ _ _ _ _ _. ⊤ };

    fn enter(&self, _core: CoreId) {}

    fn work(&self, _token: &mut (), core: CoreId, _process: ProcessId, _ticks: u32) {
        let (mine, other) = if core.number() == 0 {
            (&self.first, &self.second)
        } else {
            (&self.second, &self.first)
        };
        mine.store(true, Ordering::SeqCst);
        let backoff = Backoff::new();
        for _ in 0..POLLS {
            if other.load(Ordering::SeqCst) {
                return;
            }
            backoff.snooze();
        }
        self.missed.store(true, Ordering::SeqCst);
    }

    fn leave(&self, _token: ()) {}
}

/// The turns of each core.
const TURNS: u32 = 30_000;

/// The plan of both cores.
const PLAN: RunPlan = RunPlan {
    turns: TURNS,
    ticks: 0,
};

/// The number of entries of a run over this gate, of a partition that is named after this book.
fn run_named<P: Naming + Send + Sync, R: Abort + Threads + Wait + Sync>(
    rt: &R,
    alloc: Global,
    table: Table,
    opened: Opened,
    gate: &Meeting,
) -> usize
    requires table { P.table ≡ table }
    requires named { IsNamedAfter P.book P.scribe P.voice opened }
    requires cores { length opened.cores ≡ table.cores }
    requires cell { P.cell ≡ None }
{
    let ran: Result<Closed<P>, RunFault> = run_partition(rt, alloc, table, opened, PLAN, gate);
    entry_count(ran.expect(rt, "threads and memory").into_partition())
}

/// The number of entries of a run over this gate.
fn run_over<R: Abort + Threads + Wait + Sync>(rt: &R, alloc: Global, gate: &Meeting) -> usize {
    let table = read_table(alloc, TABLE.as_bytes()).expect(rt, "the table is lawful");
    let opened = Opened::new(alloc, u32::from(table.cores())).expect(rt, "memory");
    run_named::<Brand, R>(rt, alloc, table, opened, gate)
}

// If one thread served both cores, or held the lock while it worked, or never came to the gate,
// they would not meet.
#[test]
fn two_cores_work_at_once(rt: HostRuntime) {
    let gate = Meeting {
        first: AtomicBool::new(false),
        second: AtomicBool::new(false),
        missed: AtomicBool::new(false),
    };
    let entries = run_over(&rt, rt.alloc(), &gate);
    assert!(rt; entries == 2 * TURNS as usize);
    let (first, second) = (
        gate.first.load(Ordering::SeqCst),
        gate.second.load(Ordering::SeqCst),
    );
    assert!(rt; first && second && !gate.missed.load(Ordering::SeqCst));
}
