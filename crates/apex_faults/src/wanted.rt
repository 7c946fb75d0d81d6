//! What is wanted at a key, or of a word of a step.
ghost use Rattle.std.specs.Prelude.{◌≤◌};

use crate::shown::entry_at;
use crate::wordings::Wording;
use apex_calls::{Kind, Shape};
use apex_types::{
    MOST_CORES, MOST_ENTRIES, MOST_MESSAGE, MOST_MESSAGES, MOST_NAME, MOST_PRIORITY, MOST_PROFILE,
    MOST_SPAN, MOST_STEPS, MOST_VALUE,
};
use apex_words::{Key, Place, Section};
use toml::Value;

/// Puts that a whole number in this range is wanted.
fn put_range(text: &mut Wording, low: u32, high: u32) {
    text.put_number_between("a whole number from ", low as usize, " to ");
    text.put_number(high as usize);
}

/// The number that the table or the entry has at the key, or else `most`, if it is 1 to `most`.
fn bound_at(table: Option<&Value>, key: Key, most: u32) -> u32
    ensures { result ≤ most }
{
    let Some(Value::Table(members)) = table else {
        return most;
    };
    match members.get(key.word()) {
        Some(Value::Integer(number)) if *number >= 1 && *number <= i64::from(most) => {
            *number as u32
        }
        _ => most,
    }
}

/// Puts that a name is wanted.
pub fn put_wanted_name(text: &mut Wording) {
    text.put_number_between("a name of 1 to ", MOST_NAME, " bytes from 0x21 to 0x7e");
}

/// The first and the last number that may be given at the key in the table of this tree, if numbers
/// alone may be.
fn range_at(tree: &Value, place: Place, key: Key) -> Option<(u32, u32)> {
    match key {
        Key::Profile => Some((1, MOST_PROFILE)),
        Key::Cores => Some((1, MOST_CORES)),
        Key::History => Some((1, MOST_ENTRIES)),
        Key::Priority | Key::Ceiling => Some((1, MOST_PRIORITY)),
        Key::Core => {
            let cores = bound_at(Some(tree), Key::Cores, MOST_CORES);
            Some((0, cores.saturating_sub(1)))
        }
        Key::Maximum => Some((1, MOST_VALUE)),
        Key::Initial => {
            let maximum = bound_at(entry_at(tree, place), Key::Maximum, MOST_VALUE);
            Some((0, maximum))
        }
        Key::Length => Some((1, MOST_MESSAGE as u32)),
        Key::Capacity if place.section == Section::Buffer => Some((1, MOST_MESSAGES as u32)),
        _ => None,
    }
}

/// Puts the value that is wanted at a key that may have another one than a number.
fn put_wanted_value(text: &mut Wording, section: Section, key: Key) {
    match key {
        Key::Name => put_wanted_name(text),
        Key::Deadline => text.put("\"SOFT\" or \"HARD\""),
        Key::Discipline => text.put("\"FIFO\" or \"PRIORITY\""),
        Key::Loop | Key::Start => text.put("true or false"),
        Key::Script => text.put_number_between("an array of at most ", MOST_STEPS, " texts"),
        Key::Period | Key::Capacity if section == Section::Process => {
            put_range(text, 1, MOST_SPAN);
            text.put(", or \"infinite\",");
        }
        _ => text.put("an array of tables"),
    }
}

/// Puts the value that is wanted at the key of the place's entry, in the table of this tree.
pub fn put_wanted_at(text: &mut Wording, tree: &Value, place: Place, key: Key) {
    match range_at(tree, place, key) {
        Some((low, high)) if low == high => text.put_number(low as usize),
        Some((low, high)) => put_range(text, low, high),
        None => put_wanted_value(text, place.section, key),
    }
}

/// The section of the things of this kind.
pub fn section_of(kind: Kind) -> Section {
    match kind {
        Kind::Process => Section::Process,
        Kind::Semaphore => Section::Semaphore,
        Kind::Buffer => Section::Buffer,
        Kind::Blackboard => Section::Blackboard,
        Kind::EventFlag => Section::EventFlag,
        Kind::Mutex => Section::Mutex,
    }
}

/// Puts the word that is wanted for the shape.
pub fn put_wanted_word(text: &mut Wording, shape: Shape) {
    match shape {
        Shape::Entry(_) => text.put_between("the name of a ", shape_word(shape), " of the table"),
        Shape::Named(_) => put_wanted_name(text),
        Shape::Number(low, high) => {
            put_range(text, low, high);
            text.put(" without a leading zero");
        }
        Shape::Timeout => {
            text.put("infinite, or ");
            put_range(text, 0, MOST_SPAN);
            text.put(" without a leading zero,");
        }
        Shape::Message => {
            text.put_number_between(
                "-, or at most ",
                MOST_MESSAGE,
                " pairs of the digits 0 to 9 and a to f,",
            );
        }
        Shape::Mode => text.put("NORMAL or IDLE"),
    }
}

/// The shape in short, as one of the words that a step has behind its service.
pub fn shape_word(shape: Shape) -> &'static str {
    match shape {
        Shape::Entry(kind) => section_of(kind).word(),
        Shape::Named(_) => "name",
        Shape::Number(_, _) => "number",
        Shape::Timeout => "timeout",
        Shape::Message => "message",
        Shape::Mode => "mode",
    }
}
