//! A partition that is opened, run and closed.
ghost use Rattle.std.specs.Prelude.{◌≡◌, ◌+◌, IfOk, None, length, vec_len};
ghost use Rattle.apex_receipts.specs.Receipts.{IsNamedAfter};
ghost use Rattle.apex_cores.specs.Plans.{IsRunByThreads, plan_of};
ghost use Rattle.apex_cores.specs.Starts.{AreAsked};
ghost use Rattle.apex_cores.specs.Threads.{AreNew};

use crate::faults::RunFault;
use crate::gates::Gate;
use crate::plans::RunPlan;
use crate::pool::{Setting, Workers, run_all};
use crate::starts::{EveryThread, Starts};
use apex_configs::Table;
use apex_partition::{Closed, Naming, NewBoard, Opened, Reader, Shared, open, open_read};
use std::alloc::Global;
use std::sync::Wait;
use std::thread::Threads;

/// Has the cores and the ticker of a new partition at work, and closes it.
fn run_to_close<P: Naming + Send + Sync, S: Starts, G: Gate + Sync, R: Threads + Wait + Sync>(
    run: &Setting<'_, G, R>,
    shared: Shared<P>,
    workers: Workers<P>,
    starts: &mut S,
) -> Result<Closed<P>, RunFault>
    requires new { AreNew (vec_len workers.seats) workers.seats.items workers.ticker }
    requires each { vec_len workers.seats ≡ P.table.cores }
    ensures ran { IfOk result (λ closed.
        IsRunByThreads P.table (plan_of P.table.cores run.now.plan) closed) }
    ensures asked { AreAsked S.asks (P.table.cores + 1) result starts.old starts.new }
{
    let Workers { seats, ticker } = run_all(run, &shared, workers, starts)?;
    let closed = shared.close(seats, ticker);
    closed.holds();
    Ok(closed)
}

/// Opens the partition of this table, which is named after this book and has no readers, and runs
/// it: a thread for each core makes the planned turns of it, one for the ticker the planned ticks,
/// each of 1, and then the partition is closed.
///
/// Before each thread starts, `starts` is asked for it, the cores' first and then the ticker's. The
/// errors: `NoThread` if `starts` or the system refuses a thread, and `Memory` if memory is refused
/// before any thread starts. The threads that have begun are joined before, and no partition is
/// left.
pub fn run_partition_with<
    P: Naming + Send + Sync,
    S: Starts,
    G: Gate + Sync,
    R: Threads + Wait + Sync,
>(
    rt: &R,
    alloc: Global,
    table: Table,
    opened: Opened,
    plan: RunPlan,
    starts: &mut S,
    gate: &G,
) -> Result<Closed<P>, RunFault>
    requires table { P.table ≡ table }
    requires named { IsNamedAfter P.book P.scribe P.voice opened }
    requires cores { length opened.cores ≡ table.cores }
    requires cell { P.cell ≡ None }
    ensures ran { IfOk result (λ closed.
        IsRunByThreads table (plan_of table.cores plan) closed) }
    ensures asked { AreAsked S.asks (table.cores + 1) result starts.old starts.new }
{
    let (shared, seats, ticker) = open::<P>(alloc, table, opened)?;
    let run = Setting {
        rt,
        alloc,
        plan,
        gate,
    };
    run_to_close(&run, shared, Workers { seats, ticker }, starts)
}

/// Runs the partition of this table as `run_partition_with` does, and lets every thread start.
pub fn run_partition<P: Naming + Send + Sync, G: Gate + Sync, R: Threads + Wait + Sync>(
    rt: &R,
    alloc: Global,
    table: Table,
    opened: Opened,
    plan: RunPlan,
    gate: &G,
) -> Result<Closed<P>, RunFault>
    requires table { P.table ≡ table }
    requires named { IsNamedAfter P.book P.scribe P.voice opened }
    requires cores { length opened.cores ≡ table.cores }
    requires cell { P.cell ≡ None }
    ensures { IfOk result (λ closed. IsRunByThreads table (plan_of table.cores plan) closed) }
{
    run_partition_with(rt, alloc, table, opened, plan, &mut EveryThread, gate)
}

/// Runs the partition of this table as `run_partition` does, with the one reader of this board. The
/// answer is the closed partition, and the reader, which has seen its whole history.
pub fn run_partition_read<P: Naming + Send + Sync, G: Gate + Sync, R: Threads + Wait + Sync>(
    rt: &R,
    alloc: Global,
    table: Table,
    opened: Opened,
    board: NewBoard,
    plan: RunPlan,
    gate: &G,
) -> Result<(Closed<P>, Reader<P>), RunFault>
    requires table { P.table ≡ table }
    requires named { IsNamedAfter P.book P.scribe P.voice opened }
    requires cores { length opened.cores ≡ table.cores }
    requires cell { P.cell ≡ board.cell }
    requires reader { board.readers ≡ 1 }
    ensures ran { IfOk result (λ ran. IsRunByThreads table (plan_of table.cores plan) ran.0) }
    ensures read { IfOk result (λ ran. ran.1 ≡ ran.0) }
{
    let (shared, seats, ticker, mut board) = open_read::<P>(alloc, table, opened, board)?;
    let Some(reader) = board.take() else {
        unreachable!();
    };
    let run = Setting {
        rt,
        alloc,
        plan,
        gate,
    };
    let mut closed = run_to_close(&run, shared, Workers { seats, ticker }, &mut EveryThread)?;
    let (_front, reader) = closed.tell(rt, reader);
    Ok((closed, reader))
}
