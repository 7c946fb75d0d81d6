//! The words of a command line.
ghost use Rattle.std.specs.Prelude.{◌≡◌, false, true, IfOk, IfErr, IsErrOf, Some, None};
ghost use Rattle.std.specs.Prelude.{map, string_bytes};
ghost use Rattle.clap.specs.declared.builder.command.Command.TheViews.{out-Command as fields_of};
ghost use Rattle.clap.specs.Words.{App, app_of, first_value, found_of, is_simple_and_free, rule_of};
ghost use Rattle.clap.specs.Words.{subcommand_rows_of, with_subcommand};
ghost use Rattle.apex_schedules.specs.Schedule.{items_of};
ghost use Rattle.apex_console.specs.Faults.{IsUsageOrMemory};
ghost use Rattle.apex_console.specs.Words.{HasFault, NamesCommand, option_rule, program_alone};
ghost use Rattle.apex_console.specs.Words.{rule_for, says_given, with_rules};

use crate::faults::CliFault;
use apex_schedules::{Item, read_schedule};
use clap::error::ErrorKind;
use clap::{Arg, ArgAction, ArgMatches, Command};
use std::alloc::{AllocError, Global};

/// What a command takes, by its name.
#[derive(Clone, Copy)]
pub enum Argument {
    /// An option with a value, which may be given.
    Optional(&'static str),
    /// An option with a value, which must be given.
    Required(&'static str),
    /// An option without a value, which may be given.
    Flag(&'static str),
}

/// An option with a value, which may be given.
fn option<'a>(alloc: Global, name: &'static str) -> Arg<'a>
    ensures rule { rule_of result ≡ option_rule name.now }
    ensures local { result.global ≡ false }
{
    Arg::new(alloc, name).long(name).action(ArgAction::Set)
}

impl Argument {
    fn arg<'a>(self, alloc: Global) -> Arg<'a>
        ensures rule { rule_of result ≡ rule_for self }
        ensures local { result.global ≡ false }
    {
        match self {
            Argument::Optional(name) => option(alloc, name),
            Argument::Required(name) => option(alloc, name).required(true),
            Argument::Flag(name) => Arg::new(alloc, name).long(name).action(ArgAction::SetTrue),
        }
    }
}

/// The command with these arguments, one behind the other. Fails only for want of memory.
pub fn with_arguments<'a>(
    alloc: Global,
    command: Command<'a>,
    arguments: &[Argument],
) -> Result<Command<'a>, AllocError>
    requires { (fields_of command).has_globals ≡ false }
    ensures app { IfOk result
        (λ c. app_of c ≡ with_rules (app_of command.entry) (map rule_for arguments.now)) }
    ensures local { IfOk result (λ c. (fields_of c).has_globals ≡ false) }
{
    match arguments {
        [argument, others @ ..] => with_arguments(alloc, command.arg(argument.arg(alloc))?, others),
        [] => Ok(command),
    }
}

/// The command line of the program of this name, before it has a command.
pub fn bare_line<'a>(alloc: Global, name: &'static str) -> Command<'a>
    ensures { app_of result ≡ program_alone name.now }
{
    Command::new(alloc, name).subcommand_required(true)
}

/// The command line with one command more, if that was made. Fails only for want of memory.
// A command is dropped here alone, and not where each of the others is made.
pub fn with_command<'a>(
    line: Command<'a>,
    made: Result<Command<'a>, AllocError>,
) -> Result<Command<'a>, AllocError>
    requires { IfOk made (λ c. (fields_of c).has_globals ≡ false) }
    ensures { (app : App) → IfOk made.entry (λ c. app_of c ≡ app)
        → IfOk result (λ c. app_of c ≡ with_subcommand (app_of line.entry) app.top) }
{
    let command = made?;
    line.subcommand(command)
}

/// What the words of this command line ask for: the command that they name, and its options.
///
/// The first word is the program's name. Words that `clap` refuses for another cause than memory
/// are `Usage`, and so are those that ask for help.
pub fn matches_of<'a>(command: Command<'a>, words: &'a [String]) -> Result<ArgMatches<'a>, CliFault>
    requires { is_simple_and_free (app_of command) ≡ true }
    ensures ok { IfOk result (λ matches. NamesCommand (app_of command.entry)
        (map string_bytes words.entry.now) (subcommand_rows_of matches)) }
    ensures usage { IsErrOf result CliFault.Usage
        → HasFault (app_of command.entry) (map string_bytes words.entry.now) }
    ensures faults { IfErr result IsUsageOrMemory }
{
    match command.try_get_matches_from(words) {
        Ok(matches) => Ok(matches),
        Err(error) if error.kind() == ErrorKind::OutOfMemory => Err(CliFault::Memory),
        Err(_) => Err(CliFault::Usage),
    }
}

/// Whether a command's matches give this flag.
pub fn has_flag(matches: &ArgMatches<'_>, name: &str) -> bool
    ensures { result ≡ says_given (first_value (found_of matches.now) name.now) }
{
    // The text is read, since the contract of `get_flag` is silent on texts that are no truth
    // value.
    matches!(matches.get_str(name), Some("true"))
}

/// The items of a schedule's text. Any text that is no schedule is `Usage`.
pub fn scheduled_items(alloc: Global, text: &[u8]) -> Result<Vec<Item>, CliFault>
    ensures ok { IfOk result (λ items. items_of text.now ≡ Some items.items) }
    ensures usage { IsErrOf result CliFault.Usage → items_of text.now ≡ None }
    ensures faults { IfErr result IsUsageOrMemory }
{
    match read_schedule(alloc, text)? {
        Some(items) => Ok(items),
        None => Err(CliFault::Usage),
    }
}
