//! A history that is checked, and explained if it departs.
ghost use Rattle.std.specs.Prelude.{◌≡◌};
ghost use Rattle.apex_console.specs.Streams.{ports_of};
ghost use Rattle.apex_lab_cli.specs.Checks.{CheckEnds, end_of_verdict};
ghost use Rattle.apex_lab_cli.specs.Ends.{end_in};

use crate::ends::Ending;
use crate::faults::LabFault;
use apex_check::{CheckFault, Verdict};
use apex_console::CliFault;
use apex_departures::explain;
use apex_history::{Counted, Sink, Source};
use apex_json::Form;
use std::alloc::Global;

/// The end of the program with this verdict.
fn ending_of(verdict: Result<Verdict, CheckFault>) -> Result<Ending, LabFault>
    ensures { end_in result ≡ end_of_verdict verdict }
{
    match verdict {
        Ok(Verdict::Legal(_)) => Ok(Ending::Complete),
        Ok(Verdict::DepartsAt(..)) => Ok(Ending::Explained),
        Err(fault) => Err(LabFault::Common(CliFault::from(fault))),
    }
}

/// Checks the history that the reader has behind its table, which may have comments, and writes the
/// verdict in this form, with its explanation if the history departs.
pub fn run_check<R: Source, W: Sink>(
    alloc: Global,
    form: Form,
    comments: bool,
    reader: &mut Counted<R>,
    writer: &mut Counted<W>,
) -> Result<Ending, LabFault>
    ensures { CheckEnds form comments (ports_of R.remaining W.contents reader.old writer.old)
        (end_in result) (ports_of R.remaining W.contents reader.new writer.new) }
{
    ending_of(explain(alloc, form, comments, reader, writer))
}
