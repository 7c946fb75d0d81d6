//! A search of the schedules of a pace.
ghost use Rattle.std.specs.Prelude.{◌≡◌, IfErr, IfOk, Some, OnErr, OnOk};
ghost use Rattle.std.specs.Io.KnownBytes.{Appends};
ghost use Rattle.apex_console.specs.Streams.{ports_of};
ghost use Rattle.apex_history.specs.Counted.{inner_of, failures_of, CountsFailure, AppendsBeginning};
ghost use Rattle.apex_pace.specs.Laws.{IsPace};
ghost use Rattle.apex_answers.specs.Answers.{answer_end};
ghost use Rattle.apex_printouts.specs.Censuses.{census_end};
ghost use Rattle.apex_answers.specs.Worst.{worst_end};
ghost use Rattle.apex_names.specs.Processes.{place_of};
ghost use Rattle.apex_inquiries.specs.Ends.{end_in};
ghost use Rattle.apex_inquiries.specs.Searches.{HasFacts, HasGreatest, HasShortest, IsAnswerFor, IsMissing, IsRefusalOf, IsSystemOf, SearchEnds, asked_name, asked_process, end_of_search, end_of, text_of};

use crate::endings::{SearchEnding, SearchFault};
use crate::progress::Progress;
use apex_answers::{SearchAnswer, WorstAnswer, answer_of, worst_of};
use apex_calls::Service;
use apex_configs::Table;
use apex_console::{CliFault, table_for};
use apex_explore::Watch;
use apex_history::{Counted, Sink, Source, read_all};
use apex_jobs::Jobs;
use apex_names::process_of;
use apex_pace::Pace;
use apex_printouts::{print_answer, print_census, print_worst};
use apex_questions::{Fact, Facts, Search, Sought};
use apex_search::{Census, End, Question, TableSystem, Worst};
use apex_types::{Name, ProcessId};
use std::alloc::Global;
use std::io::Result as IoResult;
use std::marker::Sync;
use std::thread::Threads;
use std::time::Clock;

/// What a search says.
#[derive(Drop)]
pub enum Answer {
    /// Of one fact.
    Fact(SearchAnswer),
    /// Of each fact.
    Facts(Census),
    /// Of the responses of a process.
    Response(WorstAnswer),
}

/// The process of this name or number. `NoProcess` if the table has none.
fn named_process(table: &Table, name: Name) -> Result<ProcessId, SearchFault>
    ensures ok { IfOk result (λ process. place_of table.now name ≡ Some process) }
    ensures err { IfErr result (IsMissing table.now (Some name)) }
{
    match process_of(table, &name) {
        Some(process) => Ok(process),
        None => Err(SearchFault::NoProcess(name)),
    }
}

/// The process that a search is about, if it is about one. `NoProcess` if the table has none of this
/// name or number.
fn asked_process(table: &Table, asked: Option<Name>) -> Result<Option<ProcessId>, SearchFault>
    ensures ok { IfOk result (λ process. asked_process table.now asked ≡ Some process) }
    ensures err { IfErr result (IsMissing table.now asked) }
{
    let Some(name) = asked else {
        return Ok(None);
    };
    let process = named_process(table, name)?;
    Ok(Some(process))
}

/// The system of the table of this text, with the question for these facts, of this process and this
/// service or of any.
fn system_for(
    alloc: Global,
    pace: Pace,
    facts: Facts,
    asked: Option<Name>,
    service: Option<Service>,
    text: &[u8],
) -> Result<TableSystem, SearchFault>
    requires { IsPace pace }
    ensures ok { IfOk result (IsSystemOf pace facts asked service text.now) }
    ensures err { IfErr result (IsRefusalOf asked text.now) }
{
    let table = table_for(alloc, &[], text)?;
    let process = asked_process(&table, asked)?;
    let question = Question {
        facts,
        process,
        service,
    };
    let system = TableSystem::new(alloc, table, pace, question)?;
    Ok(system)
}

/// What a search for one fact says.
fn fact_answer<H: Threads + Sync, V: Watch>(
    alloc: Global,
    search: &Search,
    fact: Fact,
    process: Option<Name>,
    service: Option<Service>,
    text: &[u8],
    jobs: &Jobs<'_, H>,
    watch: &mut V,
) -> Result<SearchAnswer, SearchFault>
    requires { IsPace search.now.pace }
    ensures ok { IfOk result (HasShortest search.now fact process service text.now) }
    ensures err { IfErr result (IsRefusalOf process text.now) }
{
    let facts = Facts::one(fact);
    let system = system_for(alloc, search.pace, facts, process, service, text)?;
    let answer = answer_of(alloc, &system, search.room, text, jobs, watch)?;
    Ok(answer)
}

/// What a search for each fact says.
fn facts_answer<H: Threads + Sync, V: Watch>(
    alloc: Global,
    search: &Search,
    process: Option<Name>,
    service: Option<Service>,
    text: &[u8],
    jobs: &Jobs<'_, H>,
    watch: &mut V,
) -> Result<Census, SearchFault>
    requires { IsPace search.now.pace }
    ensures ok { IfOk result (HasFacts search.now process service text.now) }
    ensures err { IfErr result (IsRefusalOf process text.now) }
{
    let system = system_for(alloc, search.pace, Facts::all(), process, service, text)?;
    let census = system.census(alloc, search.room, jobs, watch)?;
    Ok(census)
}

/// What a search for the greatest response of a process says.
fn response_answer<H: Threads + Sync, V: Watch>(
    alloc: Global,
    search: &Search,
    name: Name,
    text: &[u8],
    jobs: &Jobs<'_, H>,
    watch: &mut V,
) -> Result<WorstAnswer, SearchFault>
    requires { IsPace search.now.pace }
    ensures ok { IfOk result (HasGreatest search.now name text.now) }
    ensures err { IfErr result (IsRefusalOf (Some name) text.now) }
{
    let table = table_for(alloc, &[], text)?;
    let process = named_process(&table, name)?;
    let question = Question {
        facts: Facts::all(),
        process: None,
        service: None,
    };
    let system = TableSystem::new(alloc, table, search.pace, question)?;
    let answer = worst_of(alloc, system, process, search.room, text, jobs, watch)?;
    Ok(answer)
}

/// What a search answers for the table of this text.
///
/// The errors in the order of the checks: the table's fault, `NoProcess` if the table has none of the
/// name or number that is asked for; `Memory` whenever memory is refused.
fn answer_for<H: Threads + Sync, V: Watch>(
    alloc: Global,
    search: &Search,
    text: &[u8],
    jobs: &Jobs<'_, H>,
    watch: &mut V,
) -> Result<Answer, SearchFault>
    requires { IsPace search.now.pace }
    ensures ok { IfOk result (IsAnswerFor search.now text.now) }
    ensures err { IfErr result (IsRefusalOf (asked_name search.now.sought) text.now) }
{
    match search.sought {
        Sought::Fact(fact, process, service) => {
            let shortest = fact_answer(alloc, search, fact, process, service, text, jobs, watch)?;
            Ok(Answer::Fact(shortest))
        }
        Sought::Facts(process, service) => {
            let census = facts_answer(alloc, search, process, service, text, jobs, watch)?;
            Ok(Answer::Facts(census))
        }
        Sought::Response(name) => {
            let greatest = response_answer(alloc, search, name, text, jobs, watch)?;
            Ok(Answer::Response(greatest))
        }
    }
}

/// The end of a search with this answer about one fact.
fn ending_of(answer: &SearchAnswer, room: u32) -> Result<SearchEnding, SearchFault>
    ensures { end_in result ≡ end_of_search (answer_end room answer.now) }
{
    match answer {
        SearchAnswer::Found(..) => Ok(SearchEnding::Found),
        SearchAnswer::Never(_) => Ok(SearchEnding::Never),
        SearchAnswer::NoneWithin(_) => Err(SearchFault::StatesFull(room)),
        SearchAnswer::Beyond(limit) => Err(SearchFault::Common(CliFault::HistoryFull(*limit))),
    }
}

/// The end of a search with this census.
fn ending_of_census(census: &Census, room: u32) -> Result<SearchEnding, SearchFault>
    ensures { end_in result ≡ end_of_search (census_end room census.now) }
{
    match census.end {
        End::Full { .. } => Err(SearchFault::StatesFull(room)),
        End::Closed { .. } => {
            if census.found.is_empty() {
                Ok(SearchEnding::Never)
            } else {
                Ok(SearchEnding::Found)
            }
        }
    }
}

/// The end of a search with this answer about responses.
fn ending_of_worst(worst: &Worst, room: u32) -> Result<SearchEnding, SearchFault>
    ensures { end_in result ≡ end_of_search (worst_end room worst.now) }
{
    match worst {
        Worst::Greatest { found: None, .. } => Ok(SearchEnding::Never),
        Worst::Greatest { found: Some(_), .. } | Worst::Overrun { .. } => Ok(SearchEnding::Found),
        Worst::Full { .. } => Err(SearchFault::StatesFull(room)),
        Worst::Beyond { limit, .. } => Err(SearchFault::Common(CliFault::HistoryFull(*limit))),
    }
}

impl Answer {
    /// The end of a search with this answer, if it has room for this many states.
    fn ending(&self, room: u32) -> Result<SearchEnding, SearchFault>
        ensures { end_in result ≡ end_of_search (end_of room self.now) }
    {
        match self {
            Answer::Fact(answer) => ending_of(answer, room),
            Answer::Facts(census) => ending_of_census(census, room),
            Answer::Response(answer) => ending_of_worst(&answer.worst, room),
        }
    }

    /// Writes the text of the answer. If a write failed, a prefix of it was written.
    fn print<W: Sink>(&self, room: u32, writer: &mut Counted<W>) -> IoResult<()>
        ensures ok { OnOk result
            (Appends (W.contents (inner_of writer.old)) (W.contents (inner_of writer.new))
            (text_of room self.now)) }
        ensures err { OnErr result
            (AppendsBeginning (W.contents (inner_of writer.old)) (W.contents (inner_of writer.new))
            (text_of room self.now)) }
        ensures counted { CountsFailure result (failures_of writer.old) (failures_of writer.new) }
    {
        match self {
            Answer::Fact(answer) => print_answer(answer, room, writer),
            Answer::Facts(census) => print_census(census, room, writer),
            Answer::Response(answer) => print_worst(answer, room, writer),
        }
    }
}

/// Searches the schedules of a pace, for the table that the reader has, and writes the answer. It
/// takes all its memory before it writes. Its threads are the host's.
pub fn run_search<H: Threads + Sync + Clock, R: Source, W: Sink>(
    host: &H,
    progress: &mut Progress<'_, H>,
    alloc: Global,
    search: &Search,
    reader: &mut Counted<R>,
    writer: &mut Counted<W>,
) -> Result<SearchEnding, SearchFault>
    requires { IsPace search.now.pace }
    ensures { SearchEnds search.now (ports_of R.remaining W.contents reader.old writer.old)
        (end_in result) (ports_of R.remaining W.contents reader.new writer.new) }
{
    let text = read_all(alloc, reader)?;
    let jobs = Jobs::new(host, search.jobs);
    let answer = answer_for(alloc, search, text.as_slice(), &jobs, progress);
    progress.clear();
    let answer = answer?;
    match answer.print(search.room, writer) {
        Ok(()) => answer.ending(search.room),
        Err(_) => Err(SearchFault::Common(CliFault::Write)),
    }
}
