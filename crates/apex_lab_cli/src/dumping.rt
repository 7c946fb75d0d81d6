//! The value changes of a run.
ghost use Rattle.std.specs.Prelude.{◌≡◌, IfOk};
ghost use Rattle.apex_history.specs.Counted.{inner_of, failures_of};
ghost use Rattle.apex_console.specs.Streams.{ports_of};
ghost use Rattle.apex_views.specs.Departures.{departure_said};
ghost use Rattle.apex_showings.specs.Showings.{source_said};
ghost use Rattle.apex_views.specs.Shows.{outcome_with, parts};
ghost use Rattle.apex_lab_cli.specs.Dumps.{DumpEnds, IsDumpOf, OutcomeDumpEnds, RunDumpEnds, end_behind, end_with};
ghost use Rattle.apex_lab_cli.specs.Ends.{end_in};

use crate::ends::Ending;
use crate::faults::LabFault;
use crate::listed::{Listed, listed_by};
use apex_console::{CliFault, Run, booted};
use apex_dispatch::{Kernel, events_in};
use apex_history::{Counted, Sink, Source};
use apex_process::QueueStore;
use apex_showings::RunSource;
use apex_types::Event;
use apex_views::Departure;
use apex_waves::{Sheet, print_waves};
use std::alloc::{AllocError, Global};

/// What a dump needs: a kernel before any event, the events of the run, and room for text.
#[derive(Drop)]
struct Dump {
    kernel: Kernel<QueueStore>,
    events: Vec<Event>,
    sheet: Sheet,
}

/// Takes all memory for the dump of a kernel's history.
fn dump_of(alloc: Global, kernel: Kernel<QueueStore>) -> Result<Dump, AllocError>
    ensures { IfOk result (IsDumpOf kernel.table kernel.machine) }
{
    kernel.holds();
    let events = events_in(alloc, &kernel)?;
    let sheet = Sheet::new(alloc)?;
    let kernel = booted(alloc, kernel.into_table())?;
    Ok(Dump {
        kernel,
        events,
        sheet,
    })
}

/// The end behind a dump that was written, by the fault of the run.
fn ending_with(fault: Option<CliFault>) -> Result<Ending, LabFault>
    ensures { end_in result ≡ end_with fault }
{
    match fault {
        None => Ok(Ending::Complete),
        Some(fault) => Err(LabFault::Common(fault)),
    }
}

/// Writes the value changes of a run. It takes all its memory before it writes.
fn write_dump<W: Sink>(alloc: Global, run: Run, writer: &mut Counted<W>) -> Result<Ending, LabFault>
    ensures { RunDumpEnds run.kernel.table run.kernel.machine run.fault
        (W.contents (inner_of writer.old)) (failures_of writer.old) (end_in result)
        (W.contents (inner_of writer.new)) (failures_of writer.new) }
{
    let Ok(mut dump) = dump_of(alloc, run.kernel) else {
        return Err(LabFault::Common(CliFault::Memory));
    };
    let events = dump.events.as_slice();
    match print_waves(&mut dump.kernel, events, &mut dump.sheet, writer) {
        Ok(()) => ending_with(run.fault),
        Err(_) => Err(LabFault::Common(CliFault::Write)),
    }
}

/// The end behind the dump of a run before a departure.
fn behind(ending: Result<Ending, LabFault>, departure: Departure) -> Result<Ending, LabFault>
    ensures { end_in result ≡ end_behind (departure_said departure) (end_in ending) }
{
    match ending {
        Ok(Ending::Complete) => Ok(Ending::Departed(departure.verdict)),
        ending => ending,
    }
}

/// Writes the value changes of a run before a departure.
fn dump_before<W: Sink>(
    alloc: Global,
    kernel: Kernel<QueueStore>,
    departure: Departure,
    writer: &mut Counted<W>,
) -> Result<Ending, LabFault>
    ensures { OutcomeDumpEnds (W.contents (inner_of writer.old)) (failures_of writer.old)
        (parts kernel.table kernel.machine (departure_said departure)) (end_in result)
        (W.contents (inner_of writer.new)) (failures_of writer.new) }
{
    let run = Run {
        kernel,
        fault: None,
    };
    let ending = write_dump(alloc, run, writer);
    behind(ending, departure)
}

/// Writes the value changes of a run that a source gave as a listing.
fn dump_given<W: Sink>(
    alloc: Global,
    run: Run,
    departure: Option<Departure>,
    writer: &mut Counted<W>,
) -> Result<Ending, LabFault>
    ensures { OutcomeDumpEnds (W.contents (inner_of writer.old)) (failures_of writer.old)
        (outcome_with departure run.kernel.table run.kernel.machine run.fault) (end_in result)
        (W.contents (inner_of writer.new)) (failures_of writer.new) }
{
    match departure {
        None => write_dump(alloc, run, writer),
        Some(departure) => dump_before(alloc, run.kernel, departure, writer),
    }
}

/// Writes the value changes of the run that the source gives; of a history that departs, those before
/// the departure. Nothing is written if the source is at fault.
pub fn run_dump<R: Source, W: Sink>(
    alloc: Global,
    source: RunSource,
    reader: &mut Counted<R>,
    writer: &mut Counted<W>,
) -> Result<Ending, LabFault>
    ensures { DumpEnds (source_said source)
        (ports_of R.remaining W.contents reader.old writer.old) (end_in result)
        (ports_of R.remaining W.contents reader.new writer.new) }
{
    let Listed { run, departure } = listed_by(alloc, source, reader)?;
    dump_given(alloc, run, departure, writer)
}
