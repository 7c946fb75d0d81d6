//! A run of a table for the items of a schedule, and its report.
ghost use Rattle.std.specs.Prelude.{◌≡◌, IfOk, IfErr, OnOk, OnErr};
ghost use Rattle.apex_history.specs.Counted.{failures_of, CountsFailure};
ghost use Rattle.apex_console.specs.Reports.{answer_of, report_text, runs_to, Refuses};
ghost use Rattle.apex_console.specs.Streams.{HasWritten, HasWrittenSome};

use crate::faults::CliFault;
use crate::kernels::{kernel_for, ran};
use apex_dispatch::Kernel;
use apex_history::{Counted, Page, Sink};
use apex_process::QueueStore;
use apex_schedules::Item;
use std::alloc::Global;
use std::io;

/// The report on a run.
#[derive(Clone, Copy, PartialEq, Eq)]
pub enum Report {
    /// The lines of its history.
    History,
    /// The listing of its last state.
    Status,
}

/// A run that was made.
#[derive(Drop)]
pub struct Run {
    /// The kernel that made it.
    pub kernel: Kernel<QueueStore>,
    /// `HistoryFull` if there were more events.
    pub fault: Option<CliFault>,
}

/// Runs the items on the table of this text. Its errors are those of [`kernel_for`], before the
/// first event.
pub fn run_of(alloc: Global, items: &[Item], text: &[u8]) -> Result<Run, CliFault>
    ensures ok { IfOk result (λ run. answer_of items.now text.now
        ≡ runs_to run.kernel.table run.kernel.machine run.fault) }
    ensures err { IfErr result (λ fault. Refuses fault (answer_of items.now text.now)) }
{
    let mut kernel = kernel_for(alloc, items, text)?;
    let fault = ran(&mut kernel, items);
    Ok(Run { kernel, fault })
}

/// Writes the report of the run, whose lines are gathered in the page. Takes no memory.
///
/// If a write failed, a prefix of the report was written.
pub fn write_report<W: Sink>(
    report: Report,
    run: &Run,
    page: &mut Page,
    writer: &mut Counted<W>,
) -> io::Result<()>
    ensures ok { OnOk result (HasWritten W.contents writer.old writer.new
        (report_text report run.now.kernel.table run.now.kernel.machine)) }
    ensures err { OnErr result (HasWrittenSome W.contents writer.old writer.new
        (report_text report run.now.kernel.table run.now.kernel.machine)) }
    ensures counted { CountsFailure result (failures_of writer.old) (failures_of writer.new) }
{
    match report {
        Report::History => run.kernel.print_history(page, writer),
        Report::Status => run.kernel.print_status(page, writer),
    }
}
