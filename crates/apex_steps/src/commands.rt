//! The command that a line is.
ghost use Rattle.std.specs.Prelude.{◌≡◌, IfOk, option_map};
ghost use Rattle.apex_history.specs.Words.{parts};
ghost use Rattle.apex_steps.specs.Commands.{command_of, command_of_word, command_of_words, command_said, command_with_name};
ghost use Rattle.apex_steps.specs.declared.commands.TheConstants.{BLANK};

use apex_history::cut;
use apex_schedules::{Item, read_schedule};
use std::alloc::{AllocError, Global};

/// The byte between two words.
const BLANK: u8 = b' ';

/// What a line asks for.
#[derive(Drop)]
pub(crate) enum Command<'a> {
    /// The state that is marked with this name is the present one again.
    Back(&'a [u8]),
    /// The session goes on from the present state.
    Onward(Onward<'a>),
}

/// What a line asks for that goes on from the present state.
#[derive(Drop)]
pub(crate) enum Onward<'a> {
    /// The events of these items.
    Make(Vec<Item>),
    /// The listing of the state.
    State,
    /// The next instant, and the cores that have something to do.
    Next,
    /// The number of entries, the time, and the process of each core.
    Front,
    /// The state is marked with this name.
    Mark(&'a [u8]),
    /// The end.
    Quit,
}

/// The command that is one word.
fn command_of_word(word: &[u8]) -> Option<Command<'_>>
    ensures { option_map command_said result ≡ command_of_word word.now }
{
    if word == b"state".as_slice() {
        Some(Command::Onward(Onward::State))
    } else if word == b"next".as_slice() {
        Some(Command::Onward(Onward::Next))
    } else if word == b"front".as_slice() {
        Some(Command::Onward(Onward::Front))
    } else if word == b"quit".as_slice() {
        Some(Command::Onward(Onward::Quit))
    } else {
        None
    }
}

/// The command that is a word and a name.
fn command_with_name<'a>(word: &[u8], name: &'a [u8]) -> Option<Command<'a>>
    ensures { option_map command_said result ≡ command_with_name word.now name.now }
{
    if name.is_empty() {
        None
    } else if word == b"mark".as_slice() {
        Some(Command::Onward(Onward::Mark(name)))
    } else if word == b"back".as_slice() {
        Some(Command::Back(name))
    } else {
        None
    }
}

/// The command that is the words of a line.
#[tactic(auto, using(crate::proofs::Parts::no_command))]
fn command_of_words(line: &[u8]) -> Option<Command<'_>>
    ensures { option_map command_said result ≡ command_of_words (parts BLANK line.now) }
{
    let (word, after) = cut(line, BLANK);
    let Some(after) = after else {
        return command_of_word(word);
    };
    let (name, more) = cut(after, BLANK);
    match more {
        Some(_) => None,
        None => command_with_name(word, name),
    }
}

/// The command of a line, which is given without its line feed. None if it is no command. Takes
/// memory for the items of a schedule alone.
#[tactic(auto, unfolding(crate::specs::Commands::command_of))]
pub(crate) fn read_command(alloc: Global, line: &[u8]) -> Result<Option<Command<'_>>, AllocError>
    ensures { IfOk result (λ read. option_map command_said read ≡ command_of line.now) }
{
    if let Some(command) = command_of_words(line) {
        return Ok(Some(command));
    }
    match read_schedule(alloc, line)? {
        Some(items) => Ok(Some(Command::Onward(Onward::Make(items)))),
        None => Ok(None),
    }
}
