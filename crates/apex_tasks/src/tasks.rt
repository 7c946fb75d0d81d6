//! What the program is asked to do.
ghost use Rattle.std.specs.Prelude.{◌≡◌, IfOk, IfErr, Ok, Some, option_map, map, string_bytes};
ghost use Rattle.apex_schedules.specs.Schedule.{positive_of};
ghost use Rattle.apex_showings.specs.Showings.{chart_said, showing_said, source_said, view_said};
ghost use Rattle.apex_tasks.specs.Tasks.{IsInRange, IsUnasked, asked_by, asked_in_request, chart_in, paced_source, showing_of, source_in, task_said, to_why, view_in, why_asked};
ghost use Rattle.apex_tasks.specs.Words.{given_said, request_said, shown_said};

use crate::faults::TaskFault;
use crate::lints::{Lint, lint_asked};
use crate::names::names_given;
use crate::numbers::{pace_given, read_time, tick_given};
use crate::questions::search_asked;
use crate::windows::{axis_given, window_given};
use crate::words::{Request, SourceWords, ViewWords, request_in};
use apex_console::CliFault;
use apex_json::Form;
use apex_questions::Search;
use apex_schedules::read_positive;
use apex_showings::{Chart, Picture, RunSource, Showing, View, read_items};
use std::alloc::{AllocError, Global};

/// An entry whose reason is asked for.
#[derive(Drop)]
pub struct Why {
    /// How the run is given.
    pub source: RunSource,
    /// The number of the entry, from 1.
    pub entry: u32,
}

/// What the program is asked to do.
#[derive(Drop)]
pub enum Task<'a> {
    /// To show a run.
    Show(Showing),
    /// To search the schedules of a pace.
    Search(Search),
    /// To lint a table.
    Lint(Lint<'a>),
    /// To answer commands in this form.
    Step(Form),
    /// To explain in this form a history, which may have comments.
    Check { form: Form, comments: bool },
    /// For the reason of an entry.
    Why(Why),
    /// To write the value changes of a run that is given in this way.
    Dump(RunSource),
}

/// The run of a pace, by the texts of its time, its turns and its percentage. None if one is
/// ill-formed.
fn read_paced(until: &str, turns: Option<&str>, early: Option<&str>) -> Option<RunSource>
    ensures { option_map source_said result ≡ paced_source until.entry.now
        (option_map (λ given. given.now) turns.entry)
        (option_map (λ given. given.now) early.entry) }
{
    let until = read_time(until.as_bytes())?;
    let pace = pace_given(turns, early)?;
    Some(RunSource::Pace { pace, until })
}

/// How a run is given. `Usage` if a number is ill-formed; a text that is no schedule has a fault of
/// its own.
fn read_source(alloc: Global, source: SourceWords<'_>) -> Result<RunSource, TaskFault>
    ensures ok { IfOk result (λ read. source_in (given_said source.entry)
        ≡ Ok (source_said read)) }
    ensures err { IfErr result (IsUnasked (source_in (given_said source.entry))) }
{
    match source {
        SourceWords::Schedule(text) => {
            let items = read_items(alloc, text.as_bytes())?;
            Ok(RunSource::Schedule(items))
        }
        SourceWords::ReadSchedule => Ok(RunSource::ReadSchedule),
        SourceWords::Pace {
            until,
            turns,
            early,
        } => match read_paced(until, turns, early) {
            Some(paced) => Ok(paced),
            None => Err(TaskFault::Common(CliFault::Usage)),
        },
        SourceWords::History => Ok(RunSource::History),
    }
}

/// How an SVG shows a run, by the texts of the bounds, of the axis and of the names of processes, with
/// idle entries folded or not. None if a text is ill-formed.
fn read_chart(
    alloc: Global,
    first: Option<&str>,
    last: Option<&str>,
    axis: Option<&str>,
    only: Option<&str>,
    fold: bool,
) -> Result<Option<Chart>, AllocError>
    ensures { IfOk result (λ found. option_map chart_said found ≡ chart_in
        (option_map (λ text. text.now) first.entry) (option_map (λ text. text.now) last.entry)
        (option_map (λ text. text.now) axis.entry) (option_map (λ text. text.now) only.entry)
        fold) }
{
    let Some(window) = window_given(first, last) else {
        return Ok(None);
    };
    let Some(axis) = axis_given(axis) else {
        return Ok(None);
    };
    let Some(only) = names_given(alloc, only)? else {
        return Ok(None);
    };
    Ok(Some(Chart {
        window,
        axis,
        only,
        fold,
    }))
}

/// How a run is shown. None if a bound, the word of an axis, a name or a number is ill-formed.
fn read_view(alloc: Global, view: ViewWords<'_>) -> Result<Option<View>, AllocError>
    ensures { IfOk result
        (λ found. option_map view_said found ≡ view_in (shown_said view.entry)) }
{
    match view {
        ViewWords::Svg {
            first,
            last,
            axis,
            only,
            fold,
        } => match read_chart(alloc, first, last, axis, only, fold)? {
            Some(chart) => Ok(Some(View::Picture(Picture::Svg(chart)))),
            None => Ok(None),
        },
        ViewWords::Trace(tick) => match tick_given(tick) {
            Some(tick) => Ok(Some(View::Picture(Picture::Trace(tick)))),
            None => Ok(None),
        },
        ViewWords::Listing(listing) => Ok(Some(View::Listing(listing))),
    }
}

/// The run that is to be shown. `Usage` if a number is ill-formed, which comes before a fault of a
/// schedule's text.
fn read_showing(
    alloc: Global,
    source: SourceWords<'_>,
    view: ViewWords<'_>,
) -> Result<Showing, TaskFault>
    ensures ok { IfOk result (λ showing. showing_of (source_in (given_said source.entry))
        (view_in (shown_said view.entry)) ≡ Ok (showing_said showing)) }
    ensures err { IfErr result (IsUnasked (showing_of (source_in (given_said source.entry))
        (view_in (shown_said view.entry)))) }
{
    let Some(view) = read_view(alloc, view)? else {
        return Err(TaskFault::Common(CliFault::Usage));
    };
    let source = read_source(alloc, source)?;
    Ok(Showing { source, view })
}

/// The entry of a run whose reason is asked for. `Usage` if a number is ill-formed, which comes
/// before a fault of a schedule's text.
fn read_why(alloc: Global, source: SourceWords<'_>, entry: &str) -> Result<Why, TaskFault>
    ensures ok { IfOk result (λ why.
        why_asked (source_in (given_said source.entry)) (positive_of entry.entry.now)
        ≡ Ok (to_why (source_said why.source) why.entry)) }
    ensures err { IfErr result (IsUnasked
        (why_asked (source_in (given_said source.entry)) (positive_of entry.entry.now))) }
{
    let Some(entry) = read_positive(entry.as_bytes()) else {
        return Err(TaskFault::Common(CliFault::Usage));
    };
    let source = read_source(alloc, source)?;
    Ok(Why { source, entry })
}

/// What a request asks for. `Usage` if a number or a word is ill-formed.
fn task_of<'a>(alloc: Global, request: Request<'a>) -> Result<Task<'a>, TaskFault>
    ensures ok { IfOk result (λ task. asked_in_request (request_said request.entry)
        ≡ Ok (task_said task)) }
    ensures range { IfOk result IsInRange }
    ensures err { IfErr result (IsUnasked (asked_in_request (request_said request.entry))) }
{
    match request {
        Request::Show(source, view) => {
            let showing = read_showing(alloc, source, view)?;
            Ok(Task::Show(showing))
        }
        Request::Search(words) => match search_asked(words) {
            Some(search) => Ok(Task::Search(search)),
            None => Err(TaskFault::Common(CliFault::Usage)),
        },
        Request::Lint(words) => match lint_asked(alloc, words)? {
            Some(lint) => Ok(Task::Lint(lint)),
            None => Err(TaskFault::Common(CliFault::Usage)),
        },
        Request::Step(form) => Ok(Task::Step(form)),
        Request::Check { form, comments } => Ok(Task::Check { form, comments }),
        Request::Why(source, entry) => {
            let why = read_why(alloc, source, entry)?;
            Ok(Task::Why(why))
        }
        Request::Dump(source) => {
            let source = read_source(alloc, source)?;
            Ok(Task::Dump(source))
        }
    }
}

/// What the words ask for. `Usage` if the words or a number are ill-formed, which comes before a
/// fault of a schedule's text.
pub fn task_asked<'a>(alloc: Global, words: &'a [String]) -> Result<Task<'a>, TaskFault>
    ensures ok { IfOk result (λ task. asked_by (map string_bytes words.now)
        ≡ Ok (task_said task)) }
    ensures range { IfOk result IsInRange }
    ensures err { IfErr result (IsUnasked (asked_by (map string_bytes words.now))) }
{
    let request = request_in(alloc, words)?;
    task_of(alloc, request)
}
