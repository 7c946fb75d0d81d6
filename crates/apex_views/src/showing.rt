//! A run that is shown.
ghost use Rattle.std.specs.Prelude.{◌≡◌, All, Ok, Option, None, Some};
ghost use Rattle.apex_history.specs.Counted.{inner_of, failures_of};
ghost use Rattle.apex_machine.specs.Events.{IsWithin};
ghost use Rattle.apex_console.specs.Streams.{ports_of};
ghost use Rattle.apex_console.specs.declared.CliFault.{CliFault as CliFaultOf};
ghost use Rattle.apex_views.specs.Plans.{IsStyleOf, excerpt_shown, machine_of};
ghost use Rattle.apex_views.specs.Departures.{departure_said};
ghost use Rattle.apex_showings.specs.Showings.{Picture as PictureAsked, View as ViewAsked, drawn, showing_said};
ghost use Rattle.apex_views.specs.Shows.{IsRunFor, ShowEnds, Shows, ShowsOutcome, end_in, end_of, end_of_part, first_fault, outcome_of_run};

use crate::departures::Departure;
use crate::faults::ShowFault;
use crate::listings::list;
use crate::plans::{Plan, draw_plan, show};
use crate::sources::{Given, GivenRun, given_by};
use apex_history::{Counted, Lines, Sink, Source};
use apex_pictures::Excerpt;
use apex_showings::Showing;
use std::alloc::Global;

/// The end of a showing that meets no fault.
#[derive(Drop)]
pub enum Shown {
    /// The run was shown.
    Complete,
    /// This part of the run was shown, of which more was asked for.
    InPart(Excerpt),
    /// The history departs from what the partition does: the text of the verdict. A picture was drawn
    /// up to the departure.
    Departed(Lines),
}

/// The end of a showing of a part, or of all if there is none.
fn shown_in(part: Option<Excerpt>) -> Shown
    ensures { end_in (Ok result) ≡ end_of_part part }
{
    match part {
        Some(excerpt) => Shown::InPart(excerpt),
        None => Shown::Complete,
    }
}

/// Draws the picture of a plan, behind whose history there is no departure.
fn show_plan<W: Sink>(
    alloc: Global,
    plan: Plan,
    writer: &mut Counted<W>,
) -> Result<Shown, ShowFault>
    requires { All (IsWithin plan.table.cores) plan.events.items }
    ensures { (picture : PictureAsked)
        → IsStyleOf picture plan.table (machine_of plan).history None plan.style
        → (fault : Option CliFaultOf) × Shows (drawn picture) plan.table (machine_of plan) None
        (W.contents (inner_of writer.old)) (failures_of writer.old) fault
        (W.contents (inner_of writer.new)) (failures_of writer.new)
        × (end_in result ≡ end_of (excerpt_shown (drawn picture) (machine_of plan).history)
        (first_fault fault plan.fault)) }
{
    let part = plan.part();
    show(alloc, plan, writer)?;
    Ok(shown_in(part))
}

/// Shows a run, behind which there is no departure.
fn show_whole<W: Sink>(
    alloc: Global,
    made: GivenRun,
    writer: &mut Counted<W>,
) -> Result<Shown, ShowFault>
    requires { (view : ViewAsked) × IsRunFor view None made }
    ensures { (view : ViewAsked) → IsRunFor view None made
        → ShowsOutcome view (W.contents (inner_of writer.old)) (failures_of writer.old)
        (outcome_of_run None made) (end_in result)
        (W.contents (inner_of writer.new)) (failures_of writer.new) }
{
    match made {
        GivenRun::Picture(plan) => show_plan(alloc, plan, writer),
        GivenRun::Listing(listing, run) => {
            list(alloc, listing, run, writer)?;
            Ok(Shown::Complete)
        }
        GivenRun::Empty(window, fold, run) => {
            Err(ShowFault::Empty(window.empty_in(fold, &run.kernel)))
        }
        GivenRun::Lacking(name, _) => Err(ShowFault::NoProcess(name)),
    }
}

/// Shows a run up to the departure behind it. Only a picture is drawn.
fn show_before<W: Sink>(
    alloc: Global,
    made: GivenRun,
    departure: Departure,
    writer: &mut Counted<W>,
) -> Result<Shown, ShowFault>
    requires { (view : ViewAsked) × IsRunFor view (Some (departure_said departure)) made }
    ensures { (view : ViewAsked) → IsRunFor view (Some (departure_said departure)) made
        → ShowsOutcome view (W.contents (inner_of writer.old)) (failures_of writer.old)
        (outcome_of_run (Some departure) made) (end_in result)
        (W.contents (inner_of writer.new)) (failures_of writer.new) }
{
    match made {
        GivenRun::Picture(plan) => {
            draw_plan(alloc, plan, writer)?;
            Ok(Shown::Departed(departure.verdict))
        }
        GivenRun::Listing(..) => Ok(Shown::Departed(departure.verdict)),
        GivenRun::Empty(..) => Ok(Shown::Departed(departure.verdict)),
        GivenRun::Lacking(name, _) => Err(ShowFault::NoProcess(name)),
    }
}

/// Shows a run of the table that the reader has, and writes its text. Nothing is written if the
/// source of the run is at fault, if the table lacks a process that is to have a row, or if no entry of
/// the run in the window of a picture has a column. The picture of a history that departs is drawn up to
/// the departure; of such a history no listing is written.
pub fn show_run<R: Source, W: Sink>(
    alloc: Global,
    showing: &Showing,
    reader: &mut Counted<R>,
    writer: &mut Counted<W>,
) -> Result<Shown, ShowFault>
    ensures { ShowEnds (showing_said showing.now)
        (ports_of R.remaining W.contents reader.old writer.old) (end_in result)
        (ports_of R.remaining W.contents reader.new writer.new) }
{
    let given = given_by(alloc, showing, reader)?;
    let Given { made, departure } = given;
    match departure {
        None => show_whole(alloc, made, writer),
        Some(departure) => show_before(alloc, made, departure, writer),
    }
}
