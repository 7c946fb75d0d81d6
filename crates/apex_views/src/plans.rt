//! The pictures that are drawn of a run.
ghost use Rattle.std.specs.Prelude.{◌≡◌, [], true, All, IfOk, MatchOption, Ok, Option, option_map};
ghost use Rattle.apex_machine.specs.Machine.{opening, run};
ghost use Rattle.apex_machine.specs.Events.{IsWithin};
ghost use Rattle.apex_history.specs.Counted.{inner_of, failures_of};
ghost use Rattle.apex_console.specs.Faults.{fault_in};
ghost use Rattle.apex_schedules.specs.Schedule.{are_cores_below, events_of_items};
ghost use Rattle.apex_console.specs.declared.CliFault.{CliFault as CliFaultOf};
ghost use Rattle.apex_views.specs.Departures.{Departure as DepartureAt, departure_said};
ghost use Rattle.apex_views.specs.Shows.{Shows, first_fault};
ghost use Rattle.apex_drawing.specs.declared.Style.TheVariants.{Trace};
ghost use Rattle.apex_views.specs.Plans.{IsFrameOf, IsListOf, IsRunOf, IsStyleOf, columns_asked, excerpt_with, fault_of_drawing, machine_of};
ghost use Rattle.apex_views.specs.Rows.{rows_for};
ghost use Rattle.apex_showings.specs.Showings.{Picture as PictureAsked, chart_said, drawn};

use crate::departures::{Departure, extent_of, marked};
use crate::faults::first_fault;
use apex_configs::Table;
use apex_console::{CliFault, repeated};
use apex_dispatch::{Kernel, Situation, events_in};
use apex_drawing::{DrawFault, Style, draw};
use apex_history::{Counted, Sink};
use apex_pictures::{Excerpt, Frame};
use apex_process::QueueStore;
use apex_scales::TickLength;
use apex_schedules::Item;
use apex_showings::Chart;
use apex_store::Store;
use apex_types::{Event, ProcessId};
use std::alloc::{AllocError, Global};

/// A picture that is to be drawn: its style, and the events of which it is.
#[derive(Drop)]
pub struct Plan {
    /// As SVG, with its frame, or as a trace, with the length of a tick.
    pub style: Style,
    /// The table of the run.
    pub table: Table,
    /// The events of the run, for which the history has room.
    pub events: Vec<Event>,
    /// `HistoryFull` if there were more events.
    pub fault: Option<CliFault>,
}

impl Plan {
    /// What is drawn, if more was asked for.
    pub fn part(&self) -> Option<Excerpt>
        ensures { result ≡ excerpt_with self.now.style }
    {
        match &self.style {
            Style::Svg(frame) => frame.columns.excerpt,
            Style::Trace(_) => None,
        }
    }
}

/// The frame of a chart of a kernel's history, with rows for these processes, or for all; behind the
/// history there may be a departure. None if no entry of the history in the window has a column.
pub(crate) fn frame_for<S: Store>(
    alloc: Global,
    chart: &Chart,
    only: Option<&[ProcessId]>,
    departure: &Option<Departure>,
    kernel: &Kernel<S>,
) -> Result<Option<Frame>, AllocError>
    requires { rows_for kernel.now.table (chart_said chart.now).only
        ≡ Ok (option_map (λ list. list.now) only) }
    ensures { let history = kernel.now.machine.history in IfOk result
        (λ found. MatchOption found (columns_asked (chart_said chart.now) history ≡ [])
        (IsFrameOf (chart_said chart.now) kernel.now.table history
        (option_map departure_said departure.now))) }
{
    let Some(range) = chart.window.range_in(kernel) else {
        return Ok(None);
    };
    let entries = kernel.entries().len();
    let extent = extent_of(departure, entries, chart.fold, range);
    let frame = Frame::new(alloc, kernel, chart.axis, extent, only)?;
    if frame.columns.drawn.as_slice().is_empty() {
        return Ok(None);
    }
    let frame = marked(alloc, frame, departure, extent, entries)?;
    Ok(Some(frame))
}

/// The plan of a picture of a kernel's history in this style, with this fault.
pub fn plan_in<S: Store>(
    alloc: Global,
    style: Style,
    kernel: Kernel<S>,
    fault: Option<CliFault>,
) -> Result<Plan, AllocError>
    ensures table { IfOk result (λ plan. plan.table ≡ kernel.table) }
    ensures machine { IfOk result (λ plan. machine_of plan ≡ kernel.machine) }
    ensures fault { IfOk result (λ plan. plan.fault ≡ fault) }
    ensures style { IfOk result (λ plan. plan.style ≡ style) }
    ensures within { IfOk result (λ plan. All (IsWithin plan.table.cores) plan.events.items) }
{
    kernel.holds();
    let events = events_in(alloc, &kernel)?;
    Ok(Plan {
        style,
        table: kernel.into_table(),
        events,
        fault,
    })
}

/// The events for which items ask.
#[derive(Drop)]
struct EventList {
    events: Vec<Event>,
    /// Whether the items ask for more.
    is_cut: bool,
}

/// Lists the events for which the items ask, as many as the history of the table takes.
fn listed(alloc: Global, items: &[Item], table: &Table) -> Result<EventList, AllocError>
    requires { are_cores_below table.now.cores items.now ≡ true }
    ensures within { IfOk result (λ found. All (IsWithin table.now.cores) found.events.items) }
    ensures list { IfOk result (λ found. IsListOf table.now.limit (events_of_items items.now)
        found.events.items found.is_cut) }
{
    let limit = table.limit() as usize;
    let mut events = Vec::new(alloc);
    for item in items {
        let (event, times) = repeated(item);
        let many = events.len() + times as usize;
        events.resize(many.min(limit), event)?;
        if limit < many {
            return Ok(EventList {
                events,
                is_cut: true,
            });
        }
    }
    Ok(EventList {
        events,
        is_cut: false,
    })
}

/// The plan of a trace of the run of the items, on this table, with ticks of this length. Nothing is
/// run: a trace has no frame.
pub fn trace_plan(
    alloc: Global,
    tick: TickLength,
    items: &[Item],
    table: Table,
) -> Result<Plan, AllocError>
    requires { are_cores_below table.cores items.now ≡ true }
    ensures table { IfOk result (λ plan. plan.table ≡ table) }
    ensures run { IfOk result (λ plan. IsRunOf items.now table plan.events.items plan.fault) }
    ensures style { IfOk result (λ plan. plan.style ≡ Trace tick) }
{
    let found = listed(alloc, items, &table)?;
    let fault = if found.is_cut {
        Some(CliFault::HistoryFull(table.limit()))
    } else {
        None
    };
    Ok(Plan {
        style: Style::Trace(tick),
        table,
        events: found.events,
        fault,
    })
}

/// The fault of a drawing.
fn fault_of(fault: DrawFault) -> CliFault
    ensures { result ≡ fault_of_drawing fault }
{
    match fault {
        DrawFault::Memory => CliFault::Memory,
        DrawFault::Write => CliFault::Write,
    }
}

/// Draws the picture of the run of the events on a table in this style.
fn draw_run<W: Sink>(
    alloc: Global,
    style: &Style,
    table: &Table,
    events: &[Event],
    writer: &mut Counted<W>,
) -> Result<(), CliFault>
    requires { All (IsWithin table.now.cores) events.now }
    ensures { let machine = run table.now (opening table.now) events.now in
        (picture : PictureAsked) (departure : Option DepartureAt)
        → IsStyleOf picture table.now machine.history departure style.now
        → Shows (drawn picture) table.now machine departure
        (W.contents (inner_of writer.old)) (failures_of writer.old) (fault_in result)
        (W.contents (inner_of writer.new)) (failures_of writer.new) }
{
    let store = QueueStore::new(alloc, table)?;
    let situation = Situation::opening(alloc, table, store)?;
    match draw(alloc, style, table, situation, events, writer) {
        Ok(()) => Ok(()),
        Err(fault) => Err(fault_of(fault)),
    }
}

/// Draws the picture of a plan, whatever fault the plan has.
pub fn draw_plan<W: Sink>(
    alloc: Global,
    plan: Plan,
    writer: &mut Counted<W>,
) -> Result<(), CliFault>
    requires { All (IsWithin plan.table.cores) plan.events.items }
    ensures { (picture : PictureAsked) (departure : Option DepartureAt)
        → IsStyleOf picture plan.table (machine_of plan).history departure plan.style
        → Shows (drawn picture) plan.table (machine_of plan) departure
        (W.contents (inner_of writer.old)) (failures_of writer.old) (fault_in result)
        (W.contents (inner_of writer.new)) (failures_of writer.new) }
{
    let Plan {
        style,
        table,
        events,
        fault: _,
    } = plan;
    draw_run(alloc, &style, &table, events.as_slice(), writer)
}

/// Draws the picture of a plan, and answers its fault once it is drawn.
pub fn show<W: Sink>(alloc: Global, plan: Plan, writer: &mut Counted<W>) -> Result<(), CliFault>
    requires { All (IsWithin plan.table.cores) plan.events.items }
    ensures { (picture : PictureAsked) (departure : Option DepartureAt)
        → IsStyleOf picture plan.table (machine_of plan).history departure plan.style
        → (fault : Option CliFaultOf) × Shows (drawn picture) plan.table (machine_of plan)
        departure (W.contents (inner_of writer.old)) (failures_of writer.old)
        fault (W.contents (inner_of writer.new)) (failures_of writer.new)
        × (fault_in result ≡ first_fault fault plan.fault) }
{
    let fault = plan.fault;
    let shown = draw_plan(alloc, plan, writer);
    first_fault(shown, fault)
}
