//! What a search is asked for.
ghost use Rattle.std.specs.Prelude.{◌≡◌, IfSome, option_map};
ghost use Rattle.apex_pace.specs.Laws.{IsPace};
ghost use Rattle.apex_tasks.specs.Questions.{name_of, process_said, search_asked, service_of, service_said, sought_by};
ghost use Rattle.apex_tasks.specs.Words.{search_said};

use crate::numbers::{jobs_given, pace_given, room_given};
use crate::words::SearchWords;
use apex_calls::{Service, row_of_word};
use apex_questions::{Search, Sought, fact_of};
use apex_types::Name;

/// The name that a text is.
fn name_of(text: &str) -> Option<Name>
    ensures { result ≡ name_of text.now }
{
    Name::from_bytes(text.as_bytes())
}

/// The process that is asked for, if one is. None if its text is no name.
fn process_said(text: Option<&str>) -> Option<Option<Name>>
    ensures { result ≡ process_said (option_map (λ given. given.now) text.entry) }
{
    match text {
        Some(text) => Some(Some(name_of(text)?)),
        None => Some(None),
    }
}

/// The service that a word asks for, in a step of a script.
fn service_of(word: &str) -> Option<Service>
    ensures { result ≡ service_of word.now }
{
    match row_of_word(word) {
        Some(row) => Some(row.service),
        None => None,
    }
}

/// The service that is asked for, if one is. None if its text is no service's word.
fn service_said(text: Option<&str>) -> Option<Option<Service>>
    ensures { result ≡ service_said (option_map (λ given. given.now) text.entry) }
{
    match text {
        Some(text) => Some(Some(service_of(text)?)),
        None => Some(None),
    }
}

/// What is looked for, by the texts of a fact, of the process whose greatest response is asked for, of
/// a process and of a service, if they are given. None if one is ill-formed, or if a greatest response
/// is asked for beside any other.
fn sought_by(
    fact: Option<&str>,
    worst: Option<&str>,
    process: Option<&str>,
    service: Option<&str>,
) -> Option<Sought>
    ensures { result ≡ sought_by
        (option_map (λ given. given.now) fact.entry) (option_map (λ given. given.now) worst.entry)
        (option_map (λ given. given.now) process.entry)
        (option_map (λ given. given.now) service.entry) }
{
    match (fact, worst, process, service) {
        (None, Some(name), None, None) => Some(Sought::Response(name_of(name)?)),
        (_, Some(_), _, _) => None,
        (Some(word), None, process, service) => {
            let fact = fact_of(word)?;
            Some(Sought::Fact(fact, process_said(process)?, service_said(service)?))
        }
        (None, None, process, service) => {
            Some(Sought::Facts(process_said(process)?, service_said(service)?))
        }
    }
}

/// The search that words ask for. None if one of them is ill-formed.
pub fn search_asked(words: SearchWords<'_>) -> Option<Search>
    ensures value { result ≡ search_asked (search_said words.entry) }
    ensures range { IfSome result (λ search. IsPace search.pace) }
{
    let sought = sought_by(words.fact, words.worst, words.process, words.service)?;
    let pace = pace_given(words.turns, words.early)?;
    let room = room_given(words.states)?;
    let jobs = jobs_given(words.jobs)?;
    Some(Search {
        sought,
        pace,
        room,
        jobs,
    })
}
