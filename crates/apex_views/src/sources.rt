//! What a source gives: a run that is to be shown, and the departure behind it.
ghost use Rattle.std.specs.Prelude.{◌≡◌, ◌-◌, ◌⊎◌, IfOk, IfErr, Ok, Option, option_map, take};
ghost use Rattle.apex_machine.specs.Machine.{events_of, opening, run as after_events};
ghost use Rattle.apex_check.specs.Steps.{IsTellable};
ghost use Rattle.apex_check.specs.Verdicts.{HasFollowed};
ghost use Rattle.apex_console.specs.declared.CliFault.TheVariants.{Memory};
ghost use Rattle.apex_history.specs.Counted.{inner_of, failures_of};
ghost use Rattle.apex_console.specs.Reports.{Refuses, answer_of, runs_to};
ghost use Rattle.apex_views.specs.Departures.{Departure as DepartureAt, departure_said};
ghost use Rattle.apex_views.specs.Shows.{Gives, IsGivenFor, IsGivenTo, IsRunFor, IsRunTo, IsToldBy, fails, outcome_in, parts, stops};
ghost use Rattle.apex_views.specs.declared.faults.ShowFault.TheVariants.{Common};
ghost use Rattle.apex_views.specs.Plans.{IsStyleOf};
ghost use Rattle.apex_views.specs.Rows.{rows_for};
ghost use Rattle.apex_showings.specs.Showings.{Picture as PictureAsked, chart_said, drawn, history, paced, picture_said, schedule, schedule_read, source_said, svg, view_said};

use crate::departures::{Departure, kernel_before};
use crate::faults::ShowFault;
use crate::parts::parted;
use crate::plans::{Plan, frame_for, plan_in, trace_plan};
use crate::rows::{RowsAsked, rows_for};
use crate::runs::run_at_pace;
use apex_check::{Followed, Verdict, follow, verdict_text};
use apex_console::{CliFault, Run, run_of, table_for};
use apex_departures::{fault_in_memory, shown_lines};
use apex_dispatch::Kernel;
use apex_drawing::Style;
use apex_history::{Counted, Source, read_all};
use apex_pace::Pace;
use apex_process::QueueStore;
use apex_schedules::Item;
use apex_showings::{Chart, Listing, Picture, RunSource, Showing, View, Window, read_items};
use apex_types::{Name, ProcessId};
use std::alloc::{AllocError, Global};

/// A run that a source gives, as it is to be shown.
#[derive(Drop)]
pub enum GivenRun {
    /// A run of which a picture is to be drawn.
    Picture(Plan),
    /// A run of which a listing is to be written.
    Listing(Listing, Run),
    /// A run of which this window is to be drawn, with idle entries folded or not, and of which no entry
    /// in it has a column.
    Empty(Window, bool, Run),
    /// A run of which a picture is to have a row for a process of this name or number, which the table
    /// lacks.
    Lacking(Name, Run),
}

/// What a source gives.
#[derive(Drop)]
pub struct Given {
    /// The run; if the source is a history that departs, that before the departure.
    pub made: GivenRun,
    /// The departure, if the source is a history that departs from what the partition does.
    pub departure: Option<Departure>,
}

/// A run of which a picture is to be drawn in this style.
fn planned(alloc: Global, style: Style, run: Run) -> Result<GivenRun, AllocError>
    ensures run { IfOk result (IsRunTo (runs_to run.kernel.table run.kernel.machine run.fault)) }
    ensures view { (picture : PictureAsked) (departure : Option DepartureAt)
        → IsStyleOf picture run.kernel.table run.kernel.machine.history departure style
        → IfOk result (IsRunFor (drawn picture) departure) }
{
    let plan = plan_in(alloc, style, run.kernel, run.fault)?;
    Ok(GivenRun::Picture(plan))
}

/// A run of which a chart is to be drawn with rows for these processes, or for all, and with the
/// departure behind it.
fn charted(
    alloc: Global,
    chart: &Chart,
    only: Option<&[ProcessId]>,
    departure: &Option<Departure>,
    run: Run,
) -> Result<GivenRun, AllocError>
    requires { rows_for run.kernel.table (chart_said chart.now).only
        ≡ Ok (option_map (λ list. list.now) only) }
    ensures run { IfOk result (IsRunTo (runs_to run.kernel.table run.kernel.machine run.fault)) }
    ensures view { IfOk result (IsRunFor (drawn (svg (chart_said chart.now)))
        (option_map departure_said departure.now)) }
{
    let found = frame_for(alloc, chart, only, departure, &run.kernel)?;
    match found {
        Some(frame) => planned(alloc, Style::Svg(frame), run),
        None => Ok(GivenRun::Empty(chart.window, chart.fold, run)),
    }
}

/// A run of which a chart is to be drawn, with the departure behind it.
fn svg_of(
    alloc: Global,
    chart: &Chart,
    departure: &Option<Departure>,
    run: Run,
) -> Result<GivenRun, AllocError>
    ensures run { IfOk result (IsRunTo (runs_to run.kernel.table run.kernel.machine run.fault)) }
    ensures view { IfOk result (IsRunFor (drawn (svg (chart_said chart.now)))
        (option_map departure_said departure.now)) }
{
    let chosen = rows_for(alloc, run.kernel.table(), &chart.only)?;
    match chosen {
        RowsAsked::All => charted(alloc, chart, None, departure, run),
        RowsAsked::These(processes) => {
            charted(alloc, chart, Some(processes.as_slice()), departure, run)
        }
        RowsAsked::Lacking(name) => Ok(GivenRun::Lacking(name, run)),
    }
}

/// A run of which a picture is to be drawn, with the departure behind it.
fn pictured(
    alloc: Global,
    picture: &Picture,
    departure: &Option<Departure>,
    run: Run,
) -> Result<GivenRun, AllocError>
    ensures run { IfOk result (IsRunTo (runs_to run.kernel.table run.kernel.machine run.fault)) }
    ensures view { IfOk result (IsRunFor (drawn (picture_said picture.now))
        (option_map departure_said departure.now)) }
{
    match picture {
        Picture::Svg(chart) => svg_of(alloc, chart, departure, run),
        Picture::Trace(tick) => planned(alloc, Style::Trace(*tick), run),
    }
}

/// A run, to be shown in this view, with the departure behind it.
fn run_in(
    alloc: Global,
    view: &View,
    departure: &Option<Departure>,
    run: Run,
) -> Result<GivenRun, AllocError>
    ensures run { IfOk result (IsRunTo (runs_to run.kernel.table run.kernel.machine run.fault)) }
    ensures view { IfOk result (IsRunFor (view_said view.now)
        (option_map departure_said departure.now)) }
{
    match view {
        View::Picture(picture) => pictured(alloc, picture, departure, run),
        View::Listing(listing) => Ok(GivenRun::Listing(*listing, run)),
    }
}

/// A run, to be shown in this view, behind which there is no departure.
fn given_in(alloc: Global, view: &View, run: Run) -> Result<Given, AllocError>
    ensures run { IfOk result (IsGivenTo (runs_to run.kernel.table run.kernel.machine run.fault)) }
    ensures view { IfOk result (IsGivenFor (view_said view.now)) }
{
    let departure = None;
    let made = run_in(alloc, view, &departure, run)?;
    Ok(Given { made, departure })
}

/// What the items give, for the table of this text.
///
/// The errors in the order of the checks: the table's fault, `Usage` if an item is of a core that
/// the table lacks; `Memory` whenever memory is refused.
fn given_by_items(
    alloc: Global,
    view: &View,
    items: &[Item],
    text: &[u8],
) -> Result<Given, CliFault>
    ensures ok { IfOk result (IsGivenTo (answer_of items.now text.now)) }
    ensures view { IfOk result (IsGivenFor (view_said view.now)) }
    ensures err { IfErr result (λ fault. Refuses fault (answer_of items.now text.now)) }
{
    if let View::Picture(Picture::Trace(tick)) = view {
        let table = table_for(alloc, items, text)?;
        let plan = trace_plan(alloc, *tick, items, table)?;
        return Ok(Given {
            made: GivenRun::Picture(plan),
            departure: None,
        });
    }
    let run = run_of(alloc, items, text)?;
    let given = given_in(alloc, view, run)?;
    Ok(given)
}

/// What the items of a schedule give, for the table that the reader has.
fn given_by_schedule<R: Source>(
    alloc: Global,
    view: &View,
    items: &[Item],
    reader: &mut Counted<R>,
) -> Result<Given, ShowFault>
    ensures gives { Gives (R.remaining (inner_of reader.old)) (failures_of reader.old)
        (schedule items.now) (outcome_in result) (failures_of reader.new) }
    ensures view { IfOk result (IsGivenFor (view_said view.now)) }
{
    let text = read_all(alloc, reader)?;
    let given = given_by_items(alloc, view, items, text.as_slice())?;
    Ok(given)
}

/// What the schedule gives that the reader has behind its table. A schedule's fault comes before
/// the table's.
fn given_by_read_schedule<R: Source>(
    alloc: Global,
    view: &View,
    reader: &mut Counted<R>,
) -> Result<Given, ShowFault>
    ensures gives { Gives (R.remaining (inner_of reader.old)) (failures_of reader.old)
        schedule_read (outcome_in result) (failures_of reader.new) }
    ensures view { IfOk result (IsGivenFor (view_said view.now)) }
{
    let text = read_all(alloc, reader)?;
    let Some((table, behind)) = parted(text.as_slice()) else {
        return Err(ShowFault::Common(CliFault::NoSeparator));
    };
    let items = read_items(alloc, behind)?;
    let given = given_by_items(alloc, view, items.as_slice(), table)?;
    Ok(given)
}

/// What a pace gives up to a time, for the table that the reader has.
fn given_by_pace<R: Source>(
    alloc: Global,
    view: &View,
    pace: Pace,
    until: u64,
    reader: &mut Counted<R>,
) -> Result<Given, ShowFault>
    ensures gives { Gives (R.remaining (inner_of reader.old)) (failures_of reader.old)
        (paced pace until) (outcome_in result) (failures_of reader.new) }
    ensures view { IfOk result (IsGivenFor (view_said view.now)) }
{
    let text = read_all(alloc, reader)?;
    let run = run_at_pace(alloc, pace, until, text.as_slice())?;
    let given = given_in(alloc, view, run)?;
    Ok(given)
}

/// What a history gives that departs at the line of this number, by the kernel behind the entry
/// there.
fn given_before(
    alloc: Global,
    view: &View,
    number: u32,
    kernel: Kernel<QueueStore>,
    departure: Departure,
) -> Result<Given, AllocError>
    ensures gives { IfOk result (λ given. outcome_in (Ok given) ≡ parts kernel.table
        (after_events kernel.table (opening kernel.table) (take (number - 1)
        (events_of kernel.machine.history))) (departure_said departure)) }
    ensures view { IfOk result (IsGivenFor (view_said view.now)) }
{
    let kernel = kernel_before(alloc, kernel, number)?;
    let run = Run {
        kernel,
        fault: None,
    };
    let departure = Some(departure);
    let made = run_in(alloc, view, &departure, run)?;
    Ok(Given { made, departure })
}

/// What a text gives that was followed.
fn given_followed(
    alloc: Global,
    view: &View,
    text: &[u8],
    followed: Followed<QueueStore>,
) -> Result<Given, AllocError>
    requires followed { HasFollowed text.now followed.kernel.table followed.verdict
        followed.kernel.machine }
    requires tellable { IsTellable followed.kernel.table followed.verdict }
    ensures gives { IfOk result (λ given. IsToldBy text.now (outcome_in (Ok given))) }
    ensures view { IfOk result (IsGivenFor (view_said view.now)) }
{
    let Followed { verdict, kernel } = followed;
    match &verdict {
        Verdict::Legal(_) => {
            let run = Run {
                kernel,
                fault: None,
            };
            let given = given_in(alloc, view, run)?;
            Ok(given)
        }
        Verdict::DepartsAt(number, expected) => {
            let table = kernel.table();
            let told = verdict_text(table, &verdict);
            let lines = shown_lines(alloc, table, text, *number, expected)?;
            let departure = Departure {
                verdict: told,
                lines,
            };
            let given = given_before(alloc, view, *number, kernel, departure)?;
            Ok(given)
        }
    }
}

/// What the text of a history gives. Its errors are those of [`follow`].
fn given_by_text(alloc: Global, view: &View, text: &[u8]) -> Result<Given, CliFault>
    ensures gives { IfOk result (λ given. IsToldBy text.now (outcome_in (Ok given))) }
    ensures view { IfOk result (IsGivenFor (view_said view.now)) }
    ensures err { IfErr result
        (λ fault. (fault ≡ Memory) ⊎ IsToldBy text.now (stops (fails (Common fault)))) }
{
    let mut reader = Counted::new(text);
    let followed = follow(alloc, |table| QueueStore::new(alloc, table), &mut reader);
    let followed = match followed {
        Ok(followed) => followed,
        Err(fault) => return Err(CliFault::from(fault_in_memory(fault))),
    };
    let given = given_followed(alloc, view, text, followed)?;
    Ok(given)
}

/// What the history that the reader has gives, behind its table.
fn given_by_history<R: Source>(
    alloc: Global,
    view: &View,
    reader: &mut Counted<R>,
) -> Result<Given, ShowFault>
    ensures gives { Gives (R.remaining (inner_of reader.old)) (failures_of reader.old)
        history (outcome_in result) (failures_of reader.new) }
    ensures view { IfOk result (IsGivenFor (view_said view.now)) }
{
    let text = read_all(alloc, reader)?;
    let given = given_by_text(alloc, view, text.as_slice())?;
    Ok(given)
}

/// What the source of a run that is to be shown gives.
pub fn given_by<R: Source>(
    alloc: Global,
    showing: &Showing,
    reader: &mut Counted<R>,
) -> Result<Given, ShowFault>
    ensures gives { Gives (R.remaining (inner_of reader.old)) (failures_of reader.old)
        (source_said showing.now.source) (outcome_in result) (failures_of reader.new) }
    ensures view { IfOk result (IsGivenFor (view_said showing.now.view)) }
{
    match &showing.source {
        RunSource::Schedule(items) => given_by_schedule(
            alloc,
            &showing.view,
            items.as_slice(),
            reader,
        ),
        RunSource::ReadSchedule => given_by_read_schedule(alloc, &showing.view, reader),
        RunSource::Pace { pace, until } => {
            given_by_pace(alloc, &showing.view, *pace, *until, reader)
        }
        RunSource::History => given_by_history(alloc, &showing.view, reader),
    }
}
