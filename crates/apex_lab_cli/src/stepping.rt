//! A session that answers commands.
ghost use Rattle.std.specs.Prelude.{◌≡◌};
ghost use Rattle.apex_console.specs.Streams.{ports_of};
ghost use Rattle.apex_lab_cli.specs.Ends.{end_in};
ghost use Rattle.apex_lab_cli.specs.Steps.{StepEnds, fault_of_steps};

use crate::ends::Ending;
use crate::faults::LabFault;
use apex_console::CliFault;
use apex_history::{Counted, Sink, Source};
use apex_json::Form;
use apex_steps::{StepFault, serve_steps};
use std::alloc::Global;

/// The program's fault, by that of a session.
fn fault_of(fault: StepFault) -> CliFault
    ensures { result ≡ fault_of_steps fault }
{
    match fault {
        StepFault::Memory => CliFault::Memory,
        StepFault::Table(fault) => CliFault::Table(fault),
        StepFault::NoSeparator => CliFault::NoSeparator,
        StepFault::Read => CliFault::Read,
        StepFault::Write => CliFault::Write,
    }
}

/// Answers the commands that the reader has behind a table in this form, each before the next one is
/// read.
pub fn run_steps<R: Source, W: Sink>(
    alloc: Global,
    form: Form,
    reader: &mut Counted<R>,
    writer: &mut Counted<W>,
) -> Result<Ending, LabFault>
    ensures { StepEnds form (ports_of R.remaining W.contents reader.old writer.old) (end_in result)
        (ports_of R.remaining W.contents reader.new writer.new) }
{
    match serve_steps(alloc, form, reader, writer) {
        Ok(()) => Ok(Ending::Complete),
        Err(fault) => Err(LabFault::Common(fault_of(fault))),
    }
}
