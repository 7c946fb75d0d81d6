//! The reason of one entry of a run.
ghost use Rattle.std.specs.Prelude.{◌≡◌, ◌++◌, codes, OnErr, OnOk};
ghost use Rattle.apex_history.specs.Counted.{inner_of, failures_of, CountsFailure};
ghost use Rattle.apex_console.specs.Streams.{HasWritten, HasWrittenSome, ports_of};
ghost use Rattle.apex_showings.specs.Showings.{source_said};
ghost use Rattle.apex_lab_cli.specs.Ends.{end_in};
ghost use Rattle.apex_views.specs.Shows.{outcome_with};
ghost use Rattle.apex_lab_cli.specs.Whys.{AnswerEnds, OutcomeWhyEnds, WhyEnds};

use crate::ends::Ending;
use crate::faults::LabFault;
use crate::listed::{Listed, listed_by};
use apex_console::{CliFault, Run};
use apex_departures::why;
use apex_history::{Counted, Sink, Source};
use apex_tasks::Why;
use apex_views::Departure;
use std::alloc::Global;
use std::io;
use std::io::Write;

/// Writes a reason, and a line feed.
fn print_reason<W: Sink>(reason: &[u8], writer: &mut Counted<W>) -> io::Result<()>
    ensures ok { OnOk result (HasWritten W.contents writer.old writer.new
        (reason.now ++ codes "\n")) }
    ensures err { OnErr result (HasWrittenSome W.contents writer.old writer.new
        (reason.now ++ codes "\n")) }
    ensures counted { CountsFailure result (failures_of writer.old) (failures_of writer.new) }
{
    writer.write_all(reason)?;
    writer.write_all(b"\n")
}

/// Writes the reason of the entry of this number in a run. It takes all its memory before it writes.
fn answer<W: Sink>(
    alloc: Global,
    run: Run,
    entry: u32,
    writer: &mut Counted<W>,
) -> Result<Ending, LabFault>
    ensures { AnswerEnds run.kernel.table run.kernel.machine entry
        (W.contents (inner_of writer.old)) (failures_of writer.old) (end_in result)
        (W.contents (inner_of writer.new)) (failures_of writer.new) }
{
    match why(alloc, run.kernel, entry) {
        Ok(Some(reason)) => match print_reason(&reason, writer) {
            Ok(()) => Ok(Ending::Complete),
            Err(_) => Err(LabFault::Common(CliFault::Write)),
        },
        Ok(None) => Err(LabFault::NoEntry(entry)),
        Err(_) => Err(LabFault::Common(CliFault::Memory)),
    }
}

/// Writes the reason of the entry of this number in a run that a source gave; nothing, if there is a
/// departure behind it.
fn answer_given<W: Sink>(
    alloc: Global,
    run: Run,
    departure: Option<Departure>,
    entry: u32,
    writer: &mut Counted<W>,
) -> Result<Ending, LabFault>
    ensures { OutcomeWhyEnds entry (W.contents (inner_of writer.old)) (failures_of writer.old)
        (outcome_with departure run.kernel.table run.kernel.machine run.fault) (end_in result)
        (W.contents (inner_of writer.new)) (failures_of writer.new) }
{
    match departure {
        None => answer(alloc, run, entry, writer),
        Some(departure) => Ok(Ending::Departed(departure.verdict)),
    }
}

/// Writes the reason of an entry of the run that the source gives, and a line feed. Nothing is
/// written if the source is at fault, or if its history departs.
pub fn run_why<R: Source, W: Sink>(
    alloc: Global,
    asked: Why,
    reader: &mut Counted<R>,
    writer: &mut Counted<W>,
) -> Result<Ending, LabFault>
    ensures { WhyEnds (source_said asked.source) asked.entry
        (ports_of R.remaining W.contents reader.old writer.old) (end_in result)
        (ports_of R.remaining W.contents reader.new writer.new) }
{
    let Why { source, entry } = asked;
    let Listed { run, departure } = listed_by(alloc, source, reader)?;
    answer_given(alloc, run, departure, entry, writer)
}
