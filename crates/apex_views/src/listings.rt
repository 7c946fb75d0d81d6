//! The listings of a run, written from the kernel that made it.
ghost use Rattle.std.specs.Prelude.{◌≡◌, ◌++◌, List, Option, codes, OnErr, OnOk};
ghost use Rattle.apex_json.specs.declared.Form.TheVariants.{Text, Json};
ghost use Rattle.apex_history.specs.Counted.{inner_of, failures_of, CountsFailure};
ghost use Rattle.apex_console.specs.Faults.{fault_in};
ghost use Rattle.apex_console.specs.Streams.{HasWritten, HasWrittenSome};
ghost use Rattle.apex_console.specs.declared.CliFault.{CliFault as CliFaultOf};
ghost use Rattle.apex_report.specs.Texts.{IsOfTable, IsReportOf};
ghost use Rattle.apex_schedules.specs.Printing.{schedule_text};
ghost use Rattle.apex_types.specs.declared.entries.Entry.{Entry};
ghost use Rattle.apex_views.specs.Shows.{Shows, first_fault};
ghost use Rattle.apex_views.specs.Plans.{report_in};
ghost use Rattle.apex_showings.specs.Showings.{listed};
ghost use Rattle.apex_showings.specs.declared.Listing.TheVariants.{Lines, Status, Report as ReportIn, Schedule};

use crate::faults::first_fault;
use apex_configs::Table;
use apex_console::{CliFault, Run};
use apex_dispatch::{Kernel, events_in};
use apex_history::{Counted, Page, Sink};
use apex_json::Form;
use apex_objects::{ObjectLines, print_history_objects, print_listing_objects};
use apex_report::{Report, print_report, print_report_json, report_of};
use apex_schedules::print_schedule;
use apex_showings::Listing;
use apex_store::Store;
use apex_types::Event;
use std::alloc::Global;
use std::io;
use std::io::Write;

/// Writes the lines of a kernel's history, which are gathered in the page.
fn print_lines<S: Store, W: Sink>(
    kernel: &Kernel<S>,
    page: &mut Page,
    writer: &mut Counted<W>,
) -> Result<(), CliFault>
    ensures { Shows (listed (Lines Text)) kernel.now.table kernel.now.machine None
        (W.contents (inner_of writer.old)) (failures_of writer.old) (fault_in result)
        (W.contents (inner_of writer.new)) (failures_of writer.new) }
{
    match kernel.print_history(page, writer) {
        Ok(()) => Ok(()),
        Err(_) => Err(CliFault::Write),
    }
}

/// Writes the lines of a kernel's history.
fn write_lines<S: Store, W: Sink>(
    alloc: Global,
    kernel: &Kernel<S>,
    writer: &mut Counted<W>,
) -> Result<(), CliFault>
    ensures { Shows (listed (Lines Text)) kernel.now.table kernel.now.machine None
        (W.contents (inner_of writer.old)) (failures_of writer.old) (fault_in result)
        (W.contents (inner_of writer.new)) (failures_of writer.new) }
{
    let mut page = Page::new(alloc)?;
    print_lines(kernel, &mut page, writer)
}

/// Writes the entries of a kernel's history as objects.
fn write_history_objects<S: Store, W: Sink>(
    kernel: &Kernel<S>,
    writer: &mut Counted<W>,
) -> Result<(), CliFault>
    ensures { Shows (listed (Lines Json)) kernel.now.table kernel.now.machine None
        (W.contents (inner_of writer.old)) (failures_of writer.old) (fault_in result)
        (W.contents (inner_of writer.new)) (failures_of writer.new) }
{
    let mut objects = ObjectLines::new();
    kernel.holds();
    match print_history_objects(kernel.table(), kernel.entries(), &mut objects, writer) {
        Ok(()) => Ok(()),
        Err(_) => Err(CliFault::Write),
    }
}

/// Writes the last state of a kernel.
fn write_status<S: Store, W: Sink>(
    alloc: Global,
    kernel: &Kernel<S>,
    writer: &mut Counted<W>,
) -> Result<(), CliFault>
    ensures { Shows (listed (Status Text)) kernel.now.table kernel.now.machine None
        (W.contents (inner_of writer.old)) (failures_of writer.old) (fault_in result)
        (W.contents (inner_of writer.new)) (failures_of writer.new) }
{
    let mut page = Page::new(alloc)?;
    match kernel.print_status(&mut page, writer) {
        Ok(()) => Ok(()),
        Err(_) => Err(CliFault::Write),
    }
}

/// Writes the last state of a kernel as objects.
fn write_status_objects<S: Store, W: Sink>(
    kernel: &Kernel<S>,
    writer: &mut Counted<W>,
) -> Result<(), CliFault>
    ensures { Shows (listed (Status Json)) kernel.now.table kernel.now.machine None
        (W.contents (inner_of writer.old)) (failures_of writer.old) (fault_in result)
        (W.contents (inner_of writer.new)) (failures_of writer.new) }
{
    let mut objects = ObjectLines::new();
    match print_listing_objects(kernel, &mut objects, writer) {
        Ok(()) => Ok(()),
        Err(_) => Err(CliFault::Write),
    }
}

/// Writes a report in this form.
fn print_in<W: Sink>(
    form: Form,
    table: &Table,
    report: &Report,
    writer: &mut Counted<W>,
) -> io::Result<()>
    requires { IsOfTable table.now report.now }
    ensures ok { (history : List Entry) → IsReportOf table.now history report.now → OnOk result
        (HasWritten W.contents writer.old writer.new (report_in form table.now history)) }
    ensures err { (history : List Entry) → IsReportOf table.now history report.now → OnErr result
        (HasWrittenSome W.contents writer.old writer.new (report_in form table.now history)) }
    ensures counted { CountsFailure result (failures_of writer.old) (failures_of writer.new) }
{
    match form {
        Form::Text => print_report(table, report, writer),
        Form::Json => print_report_json(table, report, writer),
    }
}

/// Writes the report of a kernel's history, in this form.
fn write_report<S: Store, W: Sink>(
    alloc: Global,
    form: Form,
    kernel: &Kernel<S>,
    writer: &mut Counted<W>,
) -> Result<(), CliFault>
    ensures { Shows (listed (ReportIn form)) kernel.now.table kernel.now.machine None
        (W.contents (inner_of writer.old)) (failures_of writer.old) (fault_in result)
        (W.contents (inner_of writer.new)) (failures_of writer.new) }
{
    kernel.holds();
    let report = report_of(alloc, kernel.table(), kernel.entries())?;
    match print_in(form, kernel.table(), &report, writer) {
        Ok(()) => Ok(()),
        Err(_) => Err(CliFault::Write),
    }
}

/// Writes the text of the schedule of the events, and a line feed.
fn print_events<W: Sink>(events: &[Event], writer: &mut Counted<W>) -> io::Result<()>
    ensures ok { OnOk result (HasWritten W.contents writer.old writer.new
        (schedule_text events.now ++ codes "\n")) }
    ensures err { OnErr result (HasWrittenSome W.contents writer.old writer.new
        (schedule_text events.now ++ codes "\n")) }
    ensures counted { CountsFailure result (failures_of writer.old) (failures_of writer.new) }
{
    print_schedule(events, writer)?;
    writer.write_all(b"\n")
}

/// Writes the schedule of a kernel's events.
fn write_schedule<S: Store, W: Sink>(
    alloc: Global,
    kernel: &Kernel<S>,
    writer: &mut Counted<W>,
) -> Result<(), CliFault>
    ensures { Shows (listed Schedule) kernel.now.table kernel.now.machine None
        (W.contents (inner_of writer.old)) (failures_of writer.old) (fault_in result)
        (W.contents (inner_of writer.new)) (failures_of writer.new) }
{
    let events = events_in(alloc, kernel)?;
    match print_events(events.as_slice(), writer) {
        Ok(()) => Ok(()),
        Err(_) => Err(CliFault::Write),
    }
}

/// Writes the listing of a kernel. It takes all its memory before it writes.
fn write_listing<S: Store, W: Sink>(
    alloc: Global,
    listing: Listing,
    kernel: &Kernel<S>,
    writer: &mut Counted<W>,
) -> Result<(), CliFault>
    ensures { Shows (listed listing) kernel.now.table kernel.now.machine None
        (W.contents (inner_of writer.old)) (failures_of writer.old) (fault_in result)
        (W.contents (inner_of writer.new)) (failures_of writer.new) }
{
    match listing {
        Listing::Lines(Form::Text) => write_lines(alloc, kernel, writer),
        Listing::Lines(Form::Json) => write_history_objects(kernel, writer),
        Listing::Status(Form::Text) => write_status(alloc, kernel, writer),
        Listing::Status(Form::Json) => write_status_objects(kernel, writer),
        Listing::Report(form) => write_report(alloc, form, kernel, writer),
        Listing::Schedule => write_schedule(alloc, kernel, writer),
    }
}

/// Writes the listing of a run, and answers the run's fault once it is written.
pub fn list<W: Sink>(
    alloc: Global,
    listing: Listing,
    run: Run,
    writer: &mut Counted<W>,
) -> Result<(), CliFault>
    ensures { (fault : Option CliFaultOf)
        × Shows (listed listing) run.kernel.table run.kernel.machine None
        (W.contents (inner_of writer.old)) (failures_of writer.old)
        fault (W.contents (inner_of writer.new)) (failures_of writer.new)
        × (fault_in result ≡ first_fault fault run.fault) }
{
    let shown = write_listing(alloc, listing, &run.kernel, writer);
    first_fault(shown, run.fault)
}
