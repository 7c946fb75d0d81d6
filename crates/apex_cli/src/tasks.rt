//! The tasks of the program, one for each of its commands.
ghost use Rattle.std.specs.Prelude.{◌≡◌, IfOk, IfErr, IsErrOf, Some, None, map, string_bytes};
ghost use Rattle.apex_console.specs.Faults.{IsUsageOrMemory};
ghost use Rattle.apex_cli.specs.Requests.{asked_by, asked_in, count_of, request_said, task_said};

use crate::words::{Request, request_in};
use apex_console::{CliFault, Report, scheduled_items};
use apex_cores::RunPlan;
use apex_schedules::Item;
use apex_types::{MOST_ENTRIES, number_at_most};
use std::alloc::Global;

/// The task of the program.
#[derive(Drop)]
pub enum Task {
    /// A report of the run for these items.
    Report(Report, Vec<Item>),
    /// The check of a history.
    Check,
    /// A run by threads.
    Run {
        plan: RunPlan,
        /// Whether the front after the run is asked for.
        with_front: bool,
    },
}

/// The number of turns or ticks that a text asks for, 0 to [`MOST_ENTRIES`]. Any other text is
/// `Usage`.
fn read_count(text: &str) -> Result<u32, CliFault>
    ensures ok { IfOk result (λ count. count_of text.now ≡ Some count) }
    ensures usage { IsErrOf result CliFault.Usage → count_of text.now ≡ None }
    ensures faults { IfErr result IsUsageOrMemory }
{
    match number_at_most(text.as_bytes(), MOST_ENTRIES) {
        Some(count) => Ok(count),
        None => Err(CliFault::Usage),
    }
}

/// The task of a request. `Usage` if its schedule or a number is ill-formed.
fn task_in(alloc: Global, request: Request<'_>) -> Result<Task, CliFault>
    ensures ok { IfOk result (λ task. asked_in (request_said request.entry)
        ≡ Some (task_said task)) }
    ensures usage { IsErrOf result CliFault.Usage → asked_in (request_said request.entry) ≡ None }
    ensures faults { IfErr result IsUsageOrMemory }
{
    match request {
        Request::Report(report, schedule) => {
            let items = scheduled_items(alloc, schedule.as_bytes())?;
            Ok(Task::Report(report, items))
        }
        Request::Check => Ok(Task::Check),
        Request::Run {
            turns,
            ticks,
            with_front,
        } => {
            let turns = read_count(turns)?;
            let ticks = read_count(ticks)?;
            let plan = RunPlan { turns, ticks };
            Ok(Task::Run { plan, with_front })
        }
    }
}

/// The task of the words. `Usage` if the words, the schedule or a number are ill-formed.
pub fn task_asked(alloc: Global, words: &[String]) -> Result<Task, CliFault>
    ensures ok { IfOk result (λ task. asked_by (map string_bytes words.now)
        ≡ Some (task_said task)) }
    ensures usage { IsErrOf result CliFault.Usage → asked_by (map string_bytes words.now) ≡ None }
    ensures faults { IfErr result IsUsageOrMemory }
{
    let request = request_in(alloc, words)?;
    task_in(alloc, request)
}
