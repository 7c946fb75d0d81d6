//! The words of the command line.
ghost use Rattle.std.specs.Prelude.{◌≡◌, false, IfOk, IfErr, IsErrOf, Some, None};
ghost use Rattle.std.specs.Prelude.{map, string_bytes, option_map, option_and_then};
ghost use Rattle.clap.specs.declared.builder.command.Command.TheViews.{out-Command as fields_of};
ghost use Rattle.clap.specs.Words.{app_of, found_of, rows_of, subcommand_rows_of};
ghost use Rattle.apex_console.specs.Faults.{IsUsageOrMemory};
ghost use Rattle.apex_tasks.specs.Words.{check_command, comments_in, dump_in, form_in, given_by};
ghost use Rattle.apex_tasks.specs.Words.{given_in, given_said, json_view_command, lab};
ghost use Rattle.apex_tasks.specs.Words.{lab_of_pictures, lab_of_searches, lab_of_views};
ghost use Rattle.apex_tasks.specs.Words.{lint_command, lint_in, lint_words_said, request_in};
ghost use Rattle.apex_tasks.specs.Words.{request_of, request_said, search_command, search_in};
ghost use Rattle.apex_tasks.specs.Words.{search_said, shown_said, showing_in, step_command, svg};
ghost use Rattle.apex_tasks.specs.Words.{svg_in, trace_command, trace_in, view_command, view_of};
ghost use Rattle.apex_tasks.specs.Words.{why_command, why_in};

use apex_console::{
    Argument, CliFault, bare_line, has_flag, matches_of, with_arguments, with_command,
};
use apex_json::Form;
use apex_showings::Listing;
use clap::{ArgMatches, Command};
use std::alloc::{AllocError, Global};

/// How a run is given, by the words.
#[derive(Clone, Copy)]
pub enum SourceWords<'a> {
    /// By the schedule of this text.
    Schedule(&'a str),
    /// By a schedule that is read.
    ReadSchedule,
    /// By a pace, up to a time, with the texts of the turns a tick and of the percentage, if they
    /// are given.
    Pace {
        until: &'a str,
        turns: Option<&'a str>,
        early: Option<&'a str>,
    },
    /// By a history.
    History,
}

/// How a run is shown, by the words.
#[derive(Clone, Copy)]
pub enum ViewWords<'a> {
    /// As SVG, with the texts of the first bound, of the last one, of the axis and of the names of
    /// processes, if they are given, and whether idle entries are folded.
    Svg {
        first: Option<&'a str>,
        last: Option<&'a str>,
        axis: Option<&'a str>,
        only: Option<&'a str>,
        fold: bool,
    },
    /// As a trace, with the text of the length of a tick, if it is given.
    Trace(Option<&'a str>),
    /// As a listing.
    Listing(Listing),
}

/// What a search is for, by the texts of its options.
#[derive(Clone, Copy)]
pub struct SearchWords<'a> {
    /// The word of the fact, if it is given.
    pub fact: Option<&'a str>,
    /// The name or the number of the process whose greatest response is asked for, if it is given.
    pub worst: Option<&'a str>,
    /// The name or the number of a process, if it is given.
    pub process: Option<&'a str>,
    /// The word of a service, if it is given.
    pub service: Option<&'a str>,
    /// The turns a tick of the pace, if they are given.
    pub turns: Option<&'a str>,
    /// The percentage of the pace, if it is given.
    pub early: Option<&'a str>,
    /// The number of states for which there is room, if it is given.
    pub states: Option<&'a str>,
    /// The number of jobs, if it is given.
    pub jobs: Option<&'a str>,
}

/// How a table is linted, by the options.
#[derive(Clone, Copy)]
pub struct LintWords<'a> {
    /// The report is in JSON.
    pub json: bool,
    /// The name under which the table is reported, if it is given.
    pub name: Option<&'a str>,
    /// The words of the warnings that are left out, with commas between them, if they are given.
    pub allow: Option<&'a str>,
}

/// What the words ask for.
#[derive(Clone, Copy)]
pub enum Request<'a> {
    /// To show a run that is given in this way.
    Show(SourceWords<'a>, ViewWords<'a>),
    /// To search the schedules of a pace.
    Search(SearchWords<'a>),
    /// To lint a table.
    Lint(LintWords<'a>),
    /// To answer commands in this form.
    Step(Form),
    /// To explain in this form a history, which may have comments.
    Check { form: Form, comments: bool },
    /// For the reason of the entry of this number, of a run that is given in this way.
    Why(SourceWords<'a>, &'a str),
    /// To write the value changes of a run that is given in this way.
    Dump(SourceWords<'a>),
}

/// The command of this name, with the options that say how a run is given.
fn view_command<'a>(alloc: Global, name: &'static str) -> Result<Command<'a>, AllocError>
    ensures app { IfOk result (λ c. app_of c ≡ view_command name.now) }
    ensures local { IfOk result (λ c. (fields_of c).has_globals ≡ false) }
{
    let command = Command::new(alloc, name);
    with_arguments(
        alloc,
        command,
        &[
            Argument::Optional("schedule"),
            Argument::Optional("until"),
            Argument::Optional("turns"),
            Argument::Optional("early"),
        ],
    )
}

fn svg_command<'a>(alloc: Global) -> Result<Command<'a>, AllocError>
    ensures app { IfOk result (λ c. app_of c ≡ svg) }
    ensures local { IfOk result (λ c. (fields_of c).has_globals ≡ false) }
{
    let command = view_command(alloc, "svg")?;
    with_arguments(
        alloc,
        command,
        &[
            Argument::Optional("from"),
            Argument::Optional("to"),
            Argument::Optional("by"),
            Argument::Optional("only"),
            Argument::Flag("fold"),
        ],
    )
}

fn trace_command<'a>(alloc: Global) -> Result<Command<'a>, AllocError>
    ensures app { IfOk result (λ c. app_of c ≡ trace_command) }
    ensures local { IfOk result (λ c. (fields_of c).has_globals ≡ false) }
{
    let command = view_command(alloc, "trace")?;
    with_arguments(alloc, command, &[Argument::Optional("tick-us")])
}

/// The command of this name, with `--json` too.
fn json_view_command<'a>(alloc: Global, name: &'static str) -> Result<Command<'a>, AllocError>
    ensures app { IfOk result (λ c. app_of c ≡ json_view_command name.now) }
    ensures local { IfOk result (λ c. (fields_of c).has_globals ≡ false) }
{
    let command = view_command(alloc, name)?;
    with_arguments(alloc, command, &[Argument::Flag("json")])
}

/// The program's command line, with its commands for pictures.
fn picture_commands<'a>(alloc: Global) -> Result<Command<'a>, AllocError>
    ensures { IfOk result (λ c. app_of c ≡ lab_of_pictures) }
{
    let with_svg = with_command(bare_line(alloc, "apex_lab"), svg_command(alloc))?;
    with_command(with_svg, trace_command(alloc))
}

/// The program's command line, with its commands that show a run.
fn view_commands<'a>(alloc: Global) -> Result<Command<'a>, AllocError>
    ensures { IfOk result (λ c. app_of c ≡ lab_of_views) }
{
    let pictures = picture_commands(alloc)?;
    let with_lines = with_command(pictures, json_view_command(alloc, "lines"))?;
    let with_status = with_command(with_lines, json_view_command(alloc, "status"))?;
    let with_report = with_command(with_status, json_view_command(alloc, "report"))?;
    with_command(with_report, view_command(alloc, "schedule"))
}

/// The command `search`.
fn search_command<'a>(alloc: Global) -> Result<Command<'a>, AllocError>
    ensures app { IfOk result (λ c. app_of c ≡ search_command) }
    ensures local { IfOk result (λ c. (fields_of c).has_globals ≡ false) }
{
    with_arguments(
        alloc,
        Command::new(alloc, "search"),
        &[
            Argument::Optional("for"),
            Argument::Optional("worst"),
            Argument::Optional("process"),
            Argument::Optional("service"),
            Argument::Optional("turns"),
            Argument::Optional("early"),
            Argument::Optional("states"),
            Argument::Optional("jobs"),
        ],
    )
}

/// The command `lint`.
fn lint_command<'a>(alloc: Global) -> Result<Command<'a>, AllocError>
    ensures app { IfOk result (λ c. app_of c ≡ lint_command) }
    ensures local { IfOk result (λ c. (fields_of c).has_globals ≡ false) }
{
    with_arguments(
        alloc,
        Command::new(alloc, "lint"),
        &[
            Argument::Flag("json"),
            Argument::Optional("name"),
            Argument::Optional("allow"),
        ],
    )
}

/// The command `step`.
fn step_command<'a>(alloc: Global) -> Result<Command<'a>, AllocError>
    ensures app { IfOk result (λ c. app_of c ≡ step_command) }
    ensures local { IfOk result (λ c. (fields_of c).has_globals ≡ false) }
{
    with_arguments(
        alloc,
        Command::new(alloc, "step"),
        &[Argument::Flag("json")],
    )
}

/// The command `check`.
fn check_command<'a>(alloc: Global) -> Result<Command<'a>, AllocError>
    ensures app { IfOk result (λ c. app_of c ≡ check_command) }
    ensures local { IfOk result (λ c. (fields_of c).has_globals ≡ false) }
{
    with_arguments(
        alloc,
        Command::new(alloc, "check"),
        &[Argument::Flag("json"), Argument::Flag("comments")],
    )
}

/// The command `why`.
fn why_command<'a>(alloc: Global) -> Result<Command<'a>, AllocError>
    ensures app { IfOk result (λ c. app_of c ≡ why_command) }
    ensures local { IfOk result (λ c. (fields_of c).has_globals ≡ false) }
{
    let command = view_command(alloc, "why")?;
    with_arguments(alloc, command, &[Argument::Optional("entry")])
}

/// The program's command line, with its commands that show a run, that search and that lint.
fn search_commands<'a>(alloc: Global) -> Result<Command<'a>, AllocError>
    ensures { IfOk result (λ c. app_of c ≡ lab_of_searches) }
{
    let views = view_commands(alloc)?;
    let with_search = with_command(views, search_command(alloc))?;
    with_command(with_search, lint_command(alloc))
}

fn command<'a>(alloc: Global) -> Result<Command<'a>, AllocError>
    ensures { IfOk result (λ c. app_of c ≡ lab) }
{
    let searches = search_commands(alloc)?;
    let with_step = with_command(searches, step_command(alloc))?;
    let with_check = with_command(with_step, check_command(alloc))?;
    let with_why = with_command(with_check, why_command(alloc))?;
    with_command(with_why, view_command(alloc, "vcd"))
}

/// What the words ask for: `svg`, `trace`, `lines`, `status`, `report` or `schedule`, with
/// `--schedule S`, with `--until T [--turns K] [--early E]`, or with neither; `svg` also with
/// `[--from N] [--to M] [--by AXIS] [--only NAME,NAME] [--fold]`, `trace` with `[--tick-us N]`, and
/// `lines`, `status` and `report` with `[--json]`; or `search`
/// with `[--for WORD] [--process P] [--service WORD] [--turns K] [--early E] [--states N] [--jobs N]`,
/// or with `--worst P` in place of the first three; or `lint` with
/// `[--json] [--name FILE] [--allow WORD,WORD]`; or `step` with `[--json]`;
/// or `check` with `[--json] [--comments]`; or `why` with `--entry N` and a run as for `lines`; or
/// `vcd` with a run as for `lines`. Other words are `Usage`.
pub fn request_in<'a>(alloc: Global, words: &'a [String]) -> Result<Request<'a>, CliFault>
    ensures ok { IfOk result (λ r. request_of (map string_bytes words.entry.now)
        ≡ Some (request_said r)) }
    ensures usage { IsErrOf result CliFault.Usage → request_of (map string_bytes words.entry.now)
        ≡ None }
    ensures faults { IfErr result IsUsageOrMemory }
{
    let Ok(command) = command(alloc) else {
        return Err(CliFault::Memory);
    };
    let matches = matches_of(command, words)?;
    match request_given(&matches) {
        Some(request) => Ok(request),
        None => Err(CliFault::Usage),
    }
}

/// How a run is given, by the texts of the options that are given. None if a schedule and a pace
/// are mixed.
fn source_by<'a>(
    schedule: Option<&'a str>,
    until: Option<&'a str>,
    turns: Option<&'a str>,
    early: Option<&'a str>,
) -> Option<SourceWords<'a>>
    ensures { option_map given_said result ≡ given_by
        (option_map (λ text. text.now) schedule.entry) (option_map (λ text. text.now) until.entry)
        (option_map (λ text. text.now) turns.entry) (option_map (λ text. text.now) early.entry) }
{
    match (schedule, until, turns, early) {
        (None, Some(until), turns, early) => Some(SourceWords::Pace {
            until,
            turns,
            early,
        }),
        (Some("-"), None, None, None) => Some(SourceWords::ReadSchedule),
        (Some(schedule), None, None, None) => Some(SourceWords::Schedule(schedule)),
        (None, None, None, None) => Some(SourceWords::History),
        _ => None,
    }
}

/// How a run is given, by a command's matches.
fn source_given<'a>(matches: &ArgMatches<'a>) -> Option<SourceWords<'a>>
    ensures { option_map given_said result ≡ given_in (rows_of (found_of matches.now)) }
{
    source_by(
        matches.get_str("schedule"),
        matches.get_str("until"),
        matches.get_str("turns"),
        matches.get_str("early"),
    )
}

/// The SVG for which a command's matches ask.
fn svg_given<'a>(matches: &ArgMatches<'a>) -> ViewWords<'a>
    ensures { shown_said result ≡ svg_in (rows_of (found_of matches.now)) }
{
    ViewWords::Svg {
        first: matches.get_str("from"),
        last: matches.get_str("to"),
        axis: matches.get_str("by"),
        only: matches.get_str("only"),
        fold: has_flag(matches, "fold"),
    }
}

/// The trace for which a command's matches ask.
fn trace_given<'a>(matches: &ArgMatches<'a>) -> ViewWords<'a>
    ensures { shown_said result ≡ trace_in (rows_of (found_of matches.now)) }
{
    ViewWords::Trace(matches.get_str("tick-us"))
}

/// The form of the listing for which a command's matches ask.
fn form_given(matches: &ArgMatches<'_>) -> Form
    ensures { result ≡ form_in (rows_of (found_of matches.now)) }
{
    if has_flag(matches, "json") {
        Form::Json
    } else {
        Form::Text
    }
}

/// How the command of this name shows a run, by its matches.
fn view_given<'a>(name: &str, matches: &ArgMatches<'a>) -> Option<ViewWords<'a>>
    ensures { option_map shown_said result ≡ view_of name.now (rows_of (found_of matches.now)) }
{
    match name {
        "svg" => Some(svg_given(matches)),
        "trace" => Some(trace_given(matches)),
        "lines" => Some(ViewWords::Listing(Listing::Lines(form_given(matches)))),
        "status" => Some(ViewWords::Listing(Listing::Status(form_given(matches)))),
        "report" => Some(ViewWords::Listing(Listing::Report(form_given(matches)))),
        "schedule" => Some(ViewWords::Listing(Listing::Schedule)),
        _ => None,
    }
}

/// The run that the command of this name shows, by its matches.
fn showing_given<'a>(name: &str, matches: &ArgMatches<'a>) -> Option<Request<'a>>
    ensures { option_map request_said result
        ≡ showing_in name.now (rows_of (found_of matches.now)) }
{
    let view = view_given(name, matches)?;
    let source = source_given(matches)?;
    Some(Request::Show(source, view))
}

/// The search for which a command's matches ask.
fn search_given<'a>(matches: &ArgMatches<'a>) -> SearchWords<'a>
    ensures { search_said result ≡ search_in (rows_of (found_of matches.now)) }
{
    SearchWords {
        fact: matches.get_str("for"),
        worst: matches.get_str("worst"),
        process: matches.get_str("process"),
        service: matches.get_str("service"),
        turns: matches.get_str("turns"),
        early: matches.get_str("early"),
        states: matches.get_str("states"),
        jobs: matches.get_str("jobs"),
    }
}

/// The lint for which a command's matches ask.
fn lint_given<'a>(matches: &ArgMatches<'a>) -> LintWords<'a>
    ensures { lint_words_said result ≡ lint_in (rows_of (found_of matches.now)) }
{
    LintWords {
        json: has_flag(matches, "json"),
        name: matches.get_str("name"),
        allow: matches.get_str("allow"),
    }
}

/// Whether the history that a command's matches ask to explain may have comments.
fn comments_given(matches: &ArgMatches<'_>) -> bool
    ensures { result ≡ comments_in (rows_of (found_of matches.now)) }
{
    has_flag(matches, "comments")
}

/// The entry whose reason a command's matches ask for. None if none is given.
fn why_given<'a>(matches: &ArgMatches<'a>) -> Option<Request<'a>>
    ensures { option_map request_said result ≡ why_in (rows_of (found_of matches.now)) }
{
    let source = source_given(matches)?;
    let entry = matches.get_str("entry")?;
    Some(Request::Why(source, entry))
}

/// The run whose value changes a command's matches ask for.
fn dump_given<'a>(matches: &ArgMatches<'a>) -> Option<Request<'a>>
    ensures { option_map request_said result ≡ dump_in (rows_of (found_of matches.now)) }
{
    let source = source_given(matches)?;
    Some(Request::Dump(source))
}

/// What the command of this name asks for, by its matches.
fn asked_by<'a>(name: &str, matches: &ArgMatches<'a>) -> Option<Request<'a>>
    ensures { option_map request_said result
        ≡ request_in (name.now, rows_of (found_of matches.now)) }
{
    match name {
        "search" => Some(Request::Search(search_given(matches))),
        "lint" => Some(Request::Lint(lint_given(matches))),
        "step" => Some(Request::Step(form_given(matches))),
        "check" => Some(Request::Check {
            form: form_given(matches),
            comments: comments_given(matches),
        }),
        "why" => why_given(matches),
        "vcd" => dump_given(matches),
        _ => showing_given(name, matches),
    }
}

fn request_given<'a>(matches: &ArgMatches<'a>) -> Option<Request<'a>>
    ensures { option_map request_said result
        ≡ option_and_then request_in (subcommand_rows_of matches.now) }
{
    let (name, found) = matches.subcommand()?;
    asked_by(name, found)
}
