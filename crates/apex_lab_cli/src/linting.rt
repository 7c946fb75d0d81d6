//! A table that is linted.
ghost use Rattle.std.specs.Prelude.{◌≡◌};
ghost use Rattle.apex_console.specs.Streams.{ports_of};
ghost use Rattle.apex_lab_cli.specs.Ends.{end_in};
ghost use Rattle.apex_lab_cli.specs.Lints.{LintEnds, end_with};
ghost use Rattle.apex_tasks.specs.Lints.{lint_said};

use crate::ends::Ending;
use crate::faults::LabFault;
use apex_console::CliFault;
use apex_history::{Counted, Sink, Source, read_all};
use apex_lint::{LintVerdict, report_on};
use apex_tasks::Lint;
use std::alloc::Global;
use std::io::Write;

fn ending_with(verdict: LintVerdict) -> Result<Ending, LabFault>
    ensures { end_in result ≡ end_with verdict }
{
    match verdict {
        LintVerdict::Accepted => Ok(Ending::Complete),
        LintVerdict::Warned => Ok(Ending::Warned),
        LintVerdict::Refused => Ok(Ending::Refused),
    }
}

/// Writes the report on the table that the reader has. It takes all its memory before it writes.
pub fn run_lint<R: Source, W: Sink>(
    alloc: Global,
    lint: &Lint<'_>,
    reader: &mut Counted<R>,
    writer: &mut Counted<W>,
) -> Result<Ending, LabFault>
    ensures { LintEnds (lint_said lint.now)
        (ports_of R.remaining W.contents reader.old writer.old)
        (end_in result) (ports_of R.remaining W.contents reader.new writer.new) }
{
    let text = read_all(alloc, reader)?;
    let report = report_on(alloc, lint.form, lint.file, &lint.allowed, text.as_slice())?;
    match writer.write_all(report.text.as_slice()) {
        Ok(()) => ending_with(report.verdict),
        Err(_) => Err(LabFault::Common(CliFault::Write)),
    }
}
