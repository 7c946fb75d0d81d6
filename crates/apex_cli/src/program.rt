//! The program: it does what the words ask for over a reader and two writers.
ghost use Rattle.std.specs.Prelude.{◌≡◌, MatchResult, Option, map, string_bytes};
ghost use Rattle.apex_history.specs.Counted.{inner_of, failures_of};
ghost use Rattle.apex_console.specs.declared.CliFault.{CliFault};
ghost use Rattle.apex_console.specs.Faults.{fault_in, fault_line};
ghost use Rattle.apex_console.specs.Streams.{Told, ports_of};
ghost use Rattle.apex_cli.specs.Requests.{asked_by};
ghost use Rattle.apex_cli.specs.Exits.{Ends, EndsAtOnce, Reports};
ghost use Rattle.apex_cli.specs.Statuses.{status_in};

use crate::runs::run_threads;
use crate::tasks::{Task, task_asked};
use apex_check::{Verdict, check};
use apex_console::{CliFault, Report, fault_line, run_of, write_error, write_report};
use apex_history::{Counted, Page, Sink, Source, read_all};
use apex_schedules::Item;
use std::alloc::Global;
use std::sync::Wait;
use std::thread::Threads;

/// The end of the program if it meets no fault.
#[derive(Clone, Copy, PartialEq, Eq)]
pub enum Ending {
    /// All was done, or the history is legal.
    Done,
    /// The history departs from the lines that the machine prints.
    Departed,
}

/// The end of the program.
#[derive(Clone, Copy, PartialEq, Eq)]
pub struct Exit {
    /// The exit status.
    pub status: u8,
    /// The fault that is reported on standard error.
    pub fault: Option<CliFault>,
}

impl Exit {
    /// The end of the program with this outcome.
    pub fn of(outcome: Result<Ending, CliFault>) -> Exit
        ensures fault { result.fault ≡ fault_in outcome }
        ensures status { result.status ≡ status_in outcome }
    {
        match outcome {
            Ok(Ending::Done) => Exit {
                status: 0,
                fault: None,
            },
            Ok(Ending::Departed) => Exit {
                status: 1,
                fault: None,
            },
            Err(fault) => Exit {
                status: fault.status(),
                fault: Some(fault),
            },
        }
    }
}

/// Reports the run for these items of the table that the reader gives.
fn report_run<R: Source, W: Sink>(
    alloc: Global,
    report: Report,
    items: &[Item],
    reader: &mut Counted<R>,
    writer: &mut Counted<W>,
) -> Result<(), CliFault>
    ensures { Reports report items.now (ports_of R.remaining W.contents reader.old writer.old)
        (fault_in result) (ports_of R.remaining W.contents reader.new writer.new) }
{
    let text = read_all(alloc, reader)?;
    let mut page = Page::new(alloc)?;
    let ran = run_of(alloc, items, text.as_slice())?;
    match write_report(report, &ran, &mut page, writer) {
        Ok(()) => match ran.fault {
            None => Ok(()),
            Some(fault) => Err(fault),
        },
        Err(_) => Err(CliFault::Write),
    }
}

fn carry_out<T: Threads + Wait + Sync, R: Source, W: Sink>(
    rt: &T,
    alloc: Global,
    words: &[String],
    reader: &mut Counted<R>,
    writer: &mut Counted<W>,
) -> Result<Ending, CliFault>
    ensures { Ends (asked_by (map string_bytes words.now))
        (ports_of R.remaining W.contents reader.old writer.old)
        (status_in result) (fault_in result)
        (ports_of R.remaining W.contents reader.new writer.new) }
{
    match task_asked(alloc, words)? {
        Task::Report(report, items) => {
            report_run(alloc, report, items.as_slice(), reader, writer)?;
            Ok(Ending::Done)
        }
        Task::Check => match check(alloc, reader, writer) {
            Ok(Verdict::Legal(_)) => Ok(Ending::Done),
            Ok(Verdict::DepartsAt(..)) => Ok(Ending::Departed),
            Err(fault) => Err(CliFault::from(fault)),
        },
        Task::Run { plan, with_front } => {
            run_threads(rt, alloc, plan, with_front, reader, writer)?;
            Ok(Ending::Done)
        }
    }
}

/// Does what the words ask for, and says how the program ends.
///
/// The first word is the program's name. For `replay --schedule S` and `status --schedule S` the
/// table comes from the reader, and the lines of the history, or the listing of the last state, go
/// to the writer. The checks come in this order: the words and the schedule's form, the reading of
/// the bytes, the table, the schedule's cores, then memory; then all events are made, and then the
/// report is written. Where a check fails nothing is written. A history that is full is reported.
///
/// For `check` a table, the line `%%` and the lines of a history come from the reader, and the
/// verdict goes to the writer.
///
/// For `run --turns N --ticks K` the table comes from the reader. A thread for each core and one
/// for the ticker run it, and then the lines of their history go to the writer, with `--front` also
/// the line of the front after its last event.
pub fn run_on<T: Threads + Wait + Sync, R: Source, W: Sink>(
    rt: &T,
    alloc: Global,
    words: &[String],
    reader: &mut Counted<R>,
    writer: &mut Counted<W>,
) -> Exit
    ensures { Ends (asked_by (map string_bytes words.now))
        (ports_of R.remaining W.contents reader.old writer.old)
        result.status result.fault (ports_of R.remaining W.contents reader.new writer.new) }
{
    Exit::of(carry_out(rt, alloc, words, reader, writer))
}

/// Writes the line of the fault, if there is one, on the error writer.
fn tell<E: Sink>(fault: Option<CliFault>, error_writer: &mut Counted<E>)
    ensures { Told (fault_line fault)
        (E.contents (inner_of error_writer.old)) (E.contents (inner_of error_writer.new))
        (failures_of error_writer.old) (failures_of error_writer.new) }
{
    let line = fault_line(fault);
    write_error(line.as_str().as_bytes(), error_writer);
}

/// The whole program: does what the words ask for, writes the line of the fault on the error
/// writer, and gives the exit status. If the words were not fetched, that fault is reported.
pub fn serve<T: Threads + Wait + Sync, R: Source, W: Sink, E: Sink>(
    rt: &T,
    alloc: Global,
    words: Result<Vec<String>, CliFault>,
    reader: &mut Counted<R>,
    writer: &mut Counted<W>,
    error_writer: &mut Counted<E>,
) -> u8
    ensures { let before = ports_of R.remaining W.contents reader.old writer.old in
        let after = ports_of R.remaining W.contents reader.new writer.new in
        (fault : Option CliFault) × Told (fault_line fault)
        (E.contents (inner_of error_writer.old)) (E.contents (inner_of error_writer.new))
        (failures_of error_writer.old) (failures_of error_writer.new)
        × MatchResult words
        (λ given. Ends (asked_by (map string_bytes given.items)) before result fault after)
        (λ found. EndsAtOnce found before result fault after) }
{
    let exit = match words {
        Ok(words) => run_on(rt, alloc, words.as_slice(), reader, writer),
        Err(fault) => Exit::of(Err(fault)),
    };
    tell(exit.fault, error_writer);
    exit.status
}
