//! A run by threads.
ghost use Rattle.std.specs.Prelude.{◌≡◌, All, IfOk, IfErr, None, OnOk, OnErr, length};
ghost use Rattle.apex_board.specs.Fronts.{IsFrontAfter};
ghost use Rattle.apex_calls.specs.Lines.{IsPrintable};
ghost use Rattle.apex_table.specs.Reading.{table_of};
ghost use Rattle.apex_history.specs.Counted.{failures_of, CountsFailure};
ghost use Rattle.apex_console.specs.Faults.{fault_in};
ghost use Rattle.apex_cli.specs.FrontLines.{front_text};
ghost use Rattle.apex_receipts.specs.Receipts.{IsNamedAfter};
ghost use Rattle.apex_cores.specs.Plans.{HasRunByThreads, plan_of};
ghost use Rattle.apex_cli.specs.Runs.{FrontAsked, IsRunOf, RefusesRun, Runs, fault_of_plan, fault_of_run, text_of};
ghost use Rattle.apex_console.specs.Streams.{HasWritten, HasWrittenSome, ports_of};

use crate::fronts::front_text;
use apex_configs::Table;
use apex_console::CliFault;
use apex_cores::{Gate, RunFault, RunPlan, run_partition, run_partition_read};
use apex_history::{Counted, Page, Sink, Source, print_history, read_all};
use apex_partition::{Closed, Front, Naming, NewBoard, Opened, Partition, Reader};
use apex_table::read_table;
use apex_types::{CoreId, ProcessId};
use std::alloc::Global;
use std::io;
use std::io::Write;
use std::marker::Brand;
use std::sync::Wait;
use std::thread::Threads;

/// The gate of the program, whose work is done at once.
struct AtOnce;

impl Gate for AtOnce {
    ghost use Rattle.std.specs.Prelude.{⊤};

    type Token = ();

    ghost enters = { λ _ _. ⊤ };

    ghost does = { λ _ _ _ _ _. ⊤ };

    fn enter(&self, _core: CoreId) {}

    fn work(&self, _token: &mut (), _core: CoreId, _process: ProcessId, _ticks: u32) {}

    fn leave(&self, _token: ()) {}
}

/// A run by threads whose history is to be written.
#[derive(Drop)]
struct ThreadRun {
    partition: Partition,
    /// The front after its last event, if it is to be written.
    front: Option<Front>,
    /// The buffer for the lines of the history.
    page: Page,
    /// `HistoryFull` if more was planned.
    fault: Option<CliFault>,
}

/// `HistoryFull` if more is planned than the history of the table may have.
fn fault_of_plan(table: &Table, plan: RunPlan) -> Option<CliFault>
    ensures { result ≡ fault_of_plan table.now (plan_of table.now.cores plan) }
{
    let turns = u64::from(table.cores()) * u64::from(plan.turns);
    if turns + u64::from(plan.ticks) <= u64::from(table.limit()) {
        None
    } else {
        Some(CliFault::HistoryFull(table.limit()))
    }
}

/// The fault of the threads.
fn fault_of_run(fault: RunFault) -> CliFault
    ensures { result ≡ fault_of_run fault }
{
    match fault {
        RunFault::Memory => CliFault::Memory,
        RunFault::NoThread => CliFault::NoThread,
    }
}

/// Runs the plan on this table, in a partition that is named after this book.
fn run_named<P: Naming + Send + Sync, T: Threads + Wait + Sync>(
    rt: &T,
    alloc: Global,
    table: Table,
    opened: Opened,
    plan: RunPlan,
) -> Result<Partition, RunFault>
    requires table { P.table ≡ table }
    requires named { IsNamedAfter P.book P.scribe P.voice opened }
    requires cores { length opened.cores ≡ table.cores }
    requires cell { P.cell ≡ None }
    ensures { IfOk result (λ partition. HasRunByThreads table plan partition) }
{
    let closed: Closed<P> = run_partition(rt, alloc, table, opened, plan, &AtOnce)?;
    Ok(closed.into_partition())
}

/// Runs the plan as `run_named` does, beside the one reader of this board: the partition, and the
/// front after its last event.
fn run_read<P: Naming + Send + Sync, T: Threads + Wait + Sync>(
    rt: &T,
    alloc: Global,
    table: Table,
    opened: Opened,
    board: NewBoard,
    plan: RunPlan,
) -> Result<(Partition, Front), RunFault>
    requires table { P.table ≡ table }
    requires named { IsNamedAfter P.book P.scribe P.voice opened }
    requires cores { length opened.cores ≡ table.cores }
    requires cell { P.cell ≡ board.cell }
    requires reader { board.readers ≡ 1 }
    ensures ran { IfOk result (λ ran. HasRunByThreads table plan ran.0) }
    ensures front { IfOk result (λ ran. IsFrontAfter table ran.0.machine.history ran.1) }
{
    let ran: (Closed<P>, Reader<P>) = run_partition_read(
        rt, alloc, table, opened, board, plan, &AtOnce,
    )?;
    let (mut closed, reader) = ran;
    let (front, _reader) = closed.tell(rt, reader);
    Ok((closed.into_partition(), front))
}

/// Runs the plan on this table, with the front after the last event, if it is asked for.
fn run_plan<T: Threads + Wait + Sync>(
    rt: &T,
    alloc: Global,
    table: Table,
    plan: RunPlan,
    with_front: bool,
) -> Result<(Partition, Option<Front>), RunFault>
    ensures ran { IfOk result (λ ran. HasRunByThreads table plan ran.0) }
    ensures front { IfOk result (λ ran. FrontAsked table ran.0.machine.history with_front ran.1) }
{
    table.lawful();
    let opened = Opened::new(alloc, u32::from(table.cores()))?;
    if with_front {
        let board = NewBoard::new(alloc, 1)?;
        let (partition, front) = run_read::<Brand, T>(rt, alloc, table, opened, board, plan)?;
        return Ok((partition, Some(front)));
    }
    let partition = run_named::<Brand, T>(rt, alloc, table, opened, plan)?;
    Ok((partition, None))
}

/// Runs the plan on the table of this text, by a thread for each core and one for the ticker.
///
/// The errors in the order of the checks: the table's fault, `NoThread` if a thread is refused;
/// `Memory` at any point at which memory is refused.
fn thread_run_of<T: Threads + Wait + Sync>(
    rt: &T,
    alloc: Global,
    plan: RunPlan,
    with_front: bool,
    text: &[u8],
) -> Result<ThreadRun, CliFault>
    ensures ran { IfOk result (λ run. IsRunOf text.now plan.turns plan.ticks with_front
        run.partition.table run.partition.machine.history run.front) }
    ensures fault { IfOk result (λ run. run.fault
        ≡ fault_of_plan run.partition.table (plan_of run.partition.table.cores plan)) }
    ensures printable { IfOk result (λ run.
        All (IsPrintable run.partition.table) run.partition.machine.history) }
    ensures err { IfErr result (λ fault. RefusesRun fault (table_of text.now)) }
{
    let table = read_table(alloc, text)?;
    let fault = fault_of_plan(&table, plan);
    let page = Page::new(alloc)?;
    let (partition, front) = match run_plan(rt, alloc, table, plan, with_front) {
        Ok(ran) => ran,
        Err(fault) => return Err(fault_of_run(fault)),
    };
    partition.printable();
    Ok(ThreadRun {
        partition,
        front,
        page,
        fault,
    })
}

/// Writes the line of the front, if there is one. Takes no memory.
///
/// If the write failed, a prefix of the line was written.
fn write_front<W: Sink>(front: &Option<Front>, writer: &mut Counted<W>) -> io::Result<()>
    ensures ok { OnOk result (HasWritten W.contents writer.old writer.new
        (front_text front.entry.now)) }
    ensures err { OnErr result (HasWrittenSome W.contents writer.old writer.new
        (front_text front.entry.now)) }
    ensures counted { CountsFailure result (failures_of writer.old) (failures_of writer.new) }
{
    let text = front_text(front);
    writer.write_all(text.as_str().as_bytes())
}

/// Writes the lines of the run's history, and the line of the front behind them, if it is asked
/// for. Takes no memory.
///
/// If a write failed, a prefix of this text was written.
fn write_run<W: Sink>(run: &mut ThreadRun, writer: &mut Counted<W>) -> io::Result<()>
    requires { All (IsPrintable run.old.partition.table) run.old.partition.machine.history }
    ensures ok { OnOk result (HasWritten W.contents writer.old writer.new
        (text_of run.old.partition.table run.old.partition.machine.history run.old.front)) }
    ensures err { OnErr result (HasWrittenSome W.contents writer.old writer.new
        (text_of run.old.partition.table run.old.partition.machine.history run.old.front)) }
    ensures fault { run.new.fault ≡ run.old.fault }
    ensures counted { CountsFailure result (failures_of writer.old) (failures_of writer.new) }
{
    let partition = &run.partition;
    print_history(
        partition.table(),
        partition.entries(),
        &mut run.page,
        writer,
    )?;
    write_front(&run.front, writer)
}

/// Runs the plan, by threads, on the table that the reader gives, and writes the lines of its
/// history and, if it is asked for, the line of the front after it.
pub fn run_threads<T: Threads + Wait + Sync, R: Source, W: Sink>(
    rt: &T,
    alloc: Global,
    plan: RunPlan,
    with_front: bool,
    reader: &mut Counted<R>,
    writer: &mut Counted<W>,
) -> Result<(), CliFault>
    ensures { Runs plan.turns plan.ticks with_front
        (ports_of R.remaining W.contents reader.old writer.old)
        (fault_in result) (ports_of R.remaining W.contents reader.new writer.new) }
{
    let text = read_all(alloc, reader)?;
    let mut ran = thread_run_of(rt, alloc, plan, with_front, text.as_slice())?;
    match write_run(&mut ran, writer) {
        Ok(()) => match ran.fault {
            None => Ok(()),
            Some(fault) => Err(fault),
        },
        Err(_) => Err(CliFault::Write),
    }
}
