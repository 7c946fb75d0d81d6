//! What the words ask for, done over a reader and two writers.
ghost use Rattle.std.specs.Prelude.{◌≡◌, MatchResult, map, string_bytes};
ghost use Rattle.apex_history.specs.Counted.{inner_of, failures_of};
ghost use Rattle.apex_console.specs.Streams.{Told, ports_of};
ghost use Rattle.apex_views.specs.Shows.{end_in as shown_end};
ghost use Rattle.apex_inquiries.specs.Ends.{end_in as searched_end};
ghost use Rattle.apex_lab_cli.specs.Ends.{End, end_in, end_of_search, end_of_showing, fails, report_of, status_of};
ghost use Rattle.apex_lab_cli.specs.Exits.{Ends};
ghost use Rattle.apex_tasks.specs.Tasks.{asked_by};
ghost use Rattle.apex_lab_cli.specs.declared.faults.LabFault.TheVariants.{Common};

use crate::checking::run_check;
use crate::dumping::run_dump;
use crate::ends::{Ending, status_of, tell};
use crate::faults::LabFault;
use crate::linting::run_lint;
use crate::stepping::run_steps;
use crate::whys::run_why;
use apex_console::CliFault;
use apex_history::{Counted, Sink, Source};
use apex_inquiries::{Progress, SearchEnding, SearchFault, run_search};
use apex_tasks::{Task, task_asked};
use apex_views::{ShowFault, Shown, show_run};
use std::alloc::Global;
use std::marker::Sync;
use std::thread::Threads;
use std::time::Clock;

/// The end of the program with this outcome of a showing.
fn ending_of(outcome: Result<Shown, ShowFault>) -> Result<Ending, LabFault>
    ensures { end_in result ≡ end_of_showing (shown_end outcome) }
{
    match outcome {
        Ok(Shown::Complete) => Ok(Ending::Complete),
        Ok(Shown::InPart(excerpt)) => Ok(Ending::InPart(excerpt)),
        Ok(Shown::Departed(verdict)) => Ok(Ending::Departed(verdict)),
        Err(fault) => Err(LabFault::from(fault)),
    }
}

/// The end of the program with this outcome of a search.
fn ending_of_search(outcome: Result<SearchEnding, SearchFault>) -> Result<Ending, LabFault>
    ensures { end_in result ≡ end_of_search (searched_end outcome) }
{
    match outcome {
        Ok(SearchEnding::Found) => Ok(Ending::Found),
        Ok(SearchEnding::Never) => Ok(Ending::Complete),
        Err(fault) => Err(LabFault::from(fault)),
    }
}

/// Does what the words ask for.
fn carry_out<H: Threads + Sync + Clock, R: Source, W: Sink>(
    host: &H,
    progress: &mut Progress<'_, H>,
    alloc: Global,
    words: &[String],
    reader: &mut Counted<R>,
    writer: &mut Counted<W>,
) -> Result<Ending, LabFault>
    ensures { Ends (asked_by (map string_bytes words.now))
        (ports_of R.remaining W.contents reader.old writer.old) (end_in result)
        (ports_of R.remaining W.contents reader.new writer.new) }
{
    let task = task_asked(alloc, words)?;
    match task {
        Task::Show(showing) => ending_of(show_run(alloc, &showing, reader, writer)),
        Task::Search(search) => {
            ending_of_search(run_search(host, progress, alloc, &search, reader, writer))
        }
        Task::Lint(lint) => run_lint(alloc, &lint, reader, writer),
        Task::Step(form) => run_steps(alloc, form, reader, writer),
        Task::Check { form, comments } => run_check(alloc, form, comments, reader, writer),
        Task::Why(why) => run_why(alloc, why, reader, writer),
        Task::Dump(source) => run_dump(alloc, source, reader, writer),
    }
}

/// The whole program: does what the words ask for, reports a fault or a departure on the error
/// writer, and gives the exit status. A search shows its progress, and its threads are the host's.
pub fn serve<H: Threads + Sync + Clock, R: Source, W: Sink, E: Sink>(
    host: &H,
    progress: &mut Progress<'_, H>,
    alloc: Global,
    words: Result<Vec<String>, CliFault>,
    reader: &mut Counted<R>,
    writer: &mut Counted<W>,
    error_writer: &mut Counted<E>,
) -> u8
    ensures { let before = ports_of R.remaining W.contents reader.old writer.old in
        let after = ports_of R.remaining W.contents reader.new writer.new in
        (ends : End) × (result ≡ status_of ends) × Told (report_of ends)
        (E.contents (inner_of error_writer.old)) (E.contents (inner_of error_writer.new))
        (failures_of error_writer.old) (failures_of error_writer.new)
        × MatchResult words
        (λ given. Ends (asked_by (map string_bytes given.items)) before ends after)
        (λ fault. (ends ≡ fails (Common fault)) × (after ≡ before)) }
{
    let outcome = match words {
        Ok(words) => carry_out(host, progress, alloc, words.as_slice(), reader, writer),
        Err(fault) => Err(LabFault::Common(fault)),
    };
    tell(&outcome, error_writer);
    status_of(&outcome)
}
