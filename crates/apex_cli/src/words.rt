//! The words of the command line.
ghost use Rattle.std.specs.Prelude.{◌≡◌, false, IfOk, IfErr, IsErrOf, Some, None, map, string_bytes, option_map, option_and_then};
ghost use Rattle.clap.specs.declared.builder.command.Command.TheViews.{out-Command as fields_of};
ghost use Rattle.clap.specs.Words.{app_of, found_of, rows_of, subcommand_rows_of};
ghost use Rattle.apex_console.specs.Faults.{IsUsageOrMemory};
ghost use Rattle.apex_cli.specs.Requests.{request_said};
ghost use Rattle.apex_cli.specs.Words.{apex, report_command, report_in, request_in, request_of, run_command, run_in};

use apex_console::{
    Argument, CliFault, Report, bare_line, has_flag, matches_of, with_arguments, with_command,
};
use clap::{ArgMatches, Command};
use std::alloc::{AllocError, Global};

/// The request of the words.
#[derive(Clone, Copy)]
pub enum Request<'a> {
    /// A report of the run for the schedule of this text.
    Report(Report, &'a str),
    /// The check of a history.
    Check,
    /// A run by threads, by the texts of the turns of each core and of the ticks.
    Run {
        turns: &'a str,
        ticks: &'a str,
        /// Whether the front after the run is asked for.
        with_front: bool,
    },
}

/// The command of this name, which reports on a run for a schedule.
fn report_command<'a>(alloc: Global, name: &'static str) -> Result<Command<'a>, AllocError>
    ensures app { IfOk result (λ c. app_of c ≡ report_command name.now) }
    ensures local { IfOk result (λ c. (fields_of c).has_globals ≡ false) }
{
    with_arguments(
        alloc,
        Command::new(alloc, name),
        &[Argument::Required("schedule")],
    )
}

/// The command `run`.
fn run_command<'a>(alloc: Global) -> Result<Command<'a>, AllocError>
    ensures app { IfOk result (λ c. app_of c ≡ run_command) }
    ensures local { IfOk result (λ c. (fields_of c).has_globals ≡ false) }
{
    with_arguments(
        alloc,
        Command::new(alloc, "run"),
        &[
            Argument::Required("turns"),
            Argument::Required("ticks"),
            Argument::Flag("front"),
        ],
    )
}

/// The program's command line, with all its commands.
fn command<'a>(alloc: Global) -> Result<Command<'a>, AllocError>
    ensures { IfOk result (λ c. app_of c ≡ apex) }
{
    let with_replay = with_command(bare_line(alloc, "apex"), report_command(alloc, "replay"))?;
    let with_status = with_command(with_replay, report_command(alloc, "status"))?;
    let with_check = with_command(with_status, Ok(Command::new(alloc, "check")))?;
    with_command(with_check, run_command(alloc))
}

/// What the words ask for: `replay --schedule S`, `status --schedule S`, `check`, or
/// `run --turns N --ticks K` with or without `--front`. Other words are `Usage`.
pub fn request_in<'a>(alloc: Global, words: &'a [String]) -> Result<Request<'a>, CliFault>
    ensures ok { IfOk result (λ r. request_of (map string_bytes words.entry.now)
        ≡ Some (request_said r)) }
    ensures usage { IsErrOf result CliFault.Usage
        → request_of (map string_bytes words.entry.now) ≡ None }
    ensures faults { IfErr result IsUsageOrMemory }
{
    let Ok(command) = command(alloc) else {
        return Err(CliFault::Memory);
    };
    let matches = matches_of(command, words)?;
    match request_given(&matches) {
        Some(request) => Ok(request),
        None => Err(CliFault::Usage),
    }
}

/// A report of the run for the schedule that a command's matches give.
fn report_given<'a>(report: Report, matches: &ArgMatches<'a>) -> Option<Request<'a>>
    ensures { option_map request_said result ≡ report_in report (rows_of (found_of matches.now)) }
{
    let schedule = matches.get_str("schedule")?;
    Some(Request::Report(report, schedule))
}

/// A run by threads, for what a command's matches give.
fn run_given<'a>(matches: &ArgMatches<'a>) -> Option<Request<'a>>
    ensures { option_map request_said result ≡ run_in (rows_of (found_of matches.now)) }
{
    let turns = matches.get_str("turns")?;
    let ticks = matches.get_str("ticks")?;
    Some(Request::Run {
        turns,
        ticks,
        with_front: has_flag(matches, "front"),
    })
}

fn request_given<'a>(matches: &ArgMatches<'a>) -> Option<Request<'a>>
    ensures { option_map request_said result
        ≡ option_and_then request_in (subcommand_rows_of matches.now) }
{
    match matches.subcommand() {
        Some(("replay", replay)) => report_given(Report::History, replay),
        Some(("status", status)) => report_given(Report::Status, status),
        Some(("check", _)) => Some(Request::Check),
        Some(("run", run)) => run_given(run),
        _ => None,
    }
}
