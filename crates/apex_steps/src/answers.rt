//! The answer to one line: what is said, and the session behind it.
ghost use Rattle.std.specs.Prelude.{◌≡◌, true, IfOk, option_map};
ghost use Rattle.apex_schedules.specs.Schedule.{are_cores_below, events_of_items};
ghost use Rattle.apex_steps.specs.Answers.{answer, answer_to, answer_to_any, gone, made, made_items, says, unended};
ghost use Rattle.apex_steps.specs.Commands.{command_of, command_said, onward_said};
ghost use Rattle.apex_steps.specs.Sessions.{gone_back, marked};
ghost use Rattle.apex_steps.specs.declared.answers.Saying.TheVariants.{Done};

use crate::commands::{Command, Onward, read_command};
use crate::refusals::Refusal;
use crate::sessions::Session;
use apex_schedules::{Item, are_cores_below};
use apex_types::MOST_LINE;
use std::alloc::{AllocError, Global};

/// What is said on a line, about the session behind it.
#[derive(Clone, Copy)]
pub(crate) enum Saying {
    /// The line is not carried out.
    Refused(Refusal),
    /// No more than the last line of an answer.
    Done,
    /// The listing of the state.
    State,
    /// The next instant, and the cores that have something to do.
    Next,
    /// The number of entries, the time, and the process of each core.
    Front,
    /// The lines of the entries from this place on. It fits if the history had room for all events.
    Made { from: usize, fits: bool },
}

/// The answer to a line.
#[derive(Drop)]
pub(crate) struct Answered {
    /// The session behind the line.
    pub(crate) session: Session,
    pub(crate) saying: Saying,
    /// Whether the line was the last one that is answered.
    pub(crate) is_last: bool,
}

impl Answered {
    /// This is said, and the session goes on.
    pub(crate) fn says(session: Session, saying: Saying) -> Answered
        ensures { result ≡ says saying session }
    {
        Answered {
            session,
            saying,
            is_last: false,
        }
    }

    /// The session ends at bytes that are no line.
    pub(crate) fn unended(session: Session) -> Answered
        ensures { result ≡ unended session }
    {
        Answered {
            session,
            saying: Saying::Refused(Refusal::NoLineFeed),
            is_last: true,
        }
    }
}

/// Makes the events of the items, whose cores the table has.
#[tactic(auto, unfolding(crate::specs::Answers::made))]
fn make_events(mut session: Session, items: &[Item]) -> Answered
    requires { are_cores_below session.table.cores items.now ≡ true }
    ensures { result ≡ made (events_of_items items.now) session }
{
    let from = session.kernel().entries().len();
    let fits = session.make(items);
    Answered::says(session, Saying::Made { from, fits })
}

/// Makes the events of the items, if the table has their cores.
#[tactic(auto, unfolding(crate::specs::Answers::made_items))]
fn make(session: Session, items: &[Item]) -> Answered
    ensures { result ≡ made_items items.now session }
{
    if are_cores_below(session.kernel().table().cores(), items) {
        make_events(session, items)
    } else {
        Answered::says(session, Saying::Refused(Refusal::NoSuchCore))
    }
}

/// Marks the present state with a name.
#[tactic(auto, unfolding(crate::specs::Answers::answer_to))]
fn mark(alloc: Global, mut session: Session, name: &[u8]) -> Result<Answered, AllocError>
    ensures { IfOk result (λ answered. answered ≡ says Done (marked name.now session)) }
{
    session.mark(alloc, name)?;
    Ok(Answered::says(session, Saying::Done))
}

/// Goes back to the latest mark of this name, if there is one.
#[tactic(auto, unfolding(crate::specs::Answers::gone))]
fn go_back(alloc: Global, session: Session, name: &[u8]) -> Result<Answered, AllocError>
    ensures { IfOk result (λ answered. answered ≡ gone session (gone_back name.now session)) }
{
    let (session, found) = session.back(alloc, name)?;
    if found {
        Ok(Answered::says(session, Saying::Done))
    } else {
        Ok(Answered::says(session, Saying::Refused(Refusal::NoSuchMark)))
    }
}

/// Carries out a command that goes on from the present state.
#[tactic(auto, unfolding(crate::specs::Answers::answer_to))]
fn go_on(alloc: Global, session: Session, command: &Onward<'_>) -> Result<Answered, AllocError>
    ensures { IfOk result (λ answered. answered ≡ answer_to (onward_said command.now) session) }
{
    match command {
        Onward::Make(items) => Ok(make(session, items.as_slice())),
        Onward::State => Ok(Answered::says(session, Saying::State)),
        Onward::Next => Ok(Answered::says(session, Saying::Next)),
        Onward::Front => Ok(Answered::says(session, Saying::Front)),
        Onward::Mark(name) => mark(alloc, session, name),
        Onward::Quit => Ok(Answered {
            session,
            saying: Saying::Done,
            is_last: true,
        }),
    }
}

/// Carries out a command.
#[tactic(auto, unfolding(crate::specs::Answers::answer_to))]
fn carry_out(alloc: Global, session: Session, command: &Command<'_>) -> Result<Answered, AllocError>
    ensures { IfOk result (λ answered. answered ≡ answer_to (command_said command.now) session) }
{
    match command {
        Command::Back(name) => go_back(alloc, session, name),
        Command::Onward(onward) => go_on(alloc, session, onward),
    }
}

/// Carries out a command, if there is one.
fn answer_to_any(
    alloc: Global,
    session: Session,
    command: &Option<Command<'_>>,
) -> Result<Answered, AllocError>
    ensures { IfOk result (λ answered. answered
        ≡ answer_to_any (option_map command_said command.now) session) }
{
    match command {
        Some(command) => carry_out(alloc, session, command),
        None => Ok(Answered::says(session, Saying::Refused(Refusal::NoCommand))),
    }
}

/// Carries out the command that a line is, if it is one.
fn answer_command(alloc: Global, session: Session, line: &[u8]) -> Result<Answered, AllocError>
    ensures { IfOk result (λ answered. answered ≡ answer_to_any (command_of line.now) session) }
{
    let command = read_command(alloc, line)?;
    answer_to_any(alloc, session, &command)
}

/// Carries out a line, which is given without its line feed, and says what its answer is. It fails
/// only for want of memory.
#[tactic(auto, unfolding(crate::specs::Answers::answer))]
pub(crate) fn answer(alloc: Global, session: Session, line: &[u8]) -> Result<Answered, AllocError>
    ensures { IfOk result (λ answered. answered ≡ answer line.now session) }
{
    if line.len() > MOST_LINE {
        return Ok(Answered::says(session, Saying::Refused(Refusal::TooLong)));
    }
    answer_command(alloc, session, line)
}
