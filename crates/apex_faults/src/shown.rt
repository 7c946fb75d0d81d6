//! Values, entries and parts of a table, as the text of a fault shows them.
use crate::wordings::Wording;
use apex_words::{Part, Place, Section};
use std::alloc::{AllocError, Global};
use toml::Value;

/// The most bytes of a text that is shown; of a longer one the number of bytes is shown.
pub const MOST_SHOWN: usize = 64;

/// Puts a text as it is given.
pub fn put_text(text: &mut Wording, given: &str) {
    let count = given.len();
    if count > MOST_SHOWN {
        text.put_number_between("a text of ", count, " bytes");
        return;
    }
    text.put_between("\"", given, "\"");
}

/// Puts a value as it is given, or its type.
pub fn put_value(text: &mut Wording, value: &Value) {
    match value {
        Value::String(given) => put_text(text, given.as_str()),
        Value::Integer(number) => text.put_integer(*number),
        Value::Float(_) => text.put("a fraction"),
        Value::Boolean(true) => text.put("true"),
        Value::Boolean(false) => text.put("false"),
        Value::Datetime(_) => text.put("a date or a time"),
        Value::Array(_) => text.put("an array"),
        Value::Table(_) => text.put("a table"),
    }
}

/// The word at this place of a step's text, whose words have one space between them, or no word.
pub fn word_at(step: Option<&Value>, place: usize) -> &str {
    match step {
        Some(Value::String(words)) => words.as_str().split(' ').nth(place).unwrap_or(""),
        _ => "",
    }
}

/// Whether a step's text has two spaces side by side, or one at its beginning or its end.
pub fn has_empty_word(step: &Value) -> bool {
    match step {
        Value::String(words) => words.as_str().split(' ').any(|word| word.is_empty()),
        _ => false,
    }
}

/// The name of the unknown key at this place of the table.
pub fn other_key(table: Option<&Value>, place: usize) -> &str {
    let Some(Value::Table(members)) = table else {
        return "";
    };
    match members.keys().nth(place) {
        Some(name) => name.as_str(),
        None => "",
    }
}

/// The number of the section's first entry that has this name, or 0.
pub fn first_named(tree: &Value, section: Section, name: &str) -> usize {
    let Some(Value::Array(entries)) = tree.get(section.word()) else {
        return 0;
    };
    let place = entries.iter().position(
        |entry| matches!(entry.get("name"), Some(Value::String(n)) if n.as_str() == name),
    );
    match place {
        Some(place) => place.saturating_add(1),
        None => 0,
    }
}

/// The entry's name, if it is a short text.
fn short_name(entry: &Value) -> Option<&str> {
    match entry.get("name") {
        Some(Value::String(name)) if name.len() <= MOST_SHOWN => Some(name.as_str()),
        _ => None,
    }
}

/// The names of a section's entries, as far as they are short texts.
pub fn names_in<'v>(
    alloc: Global,
    tree: &'v Value,
    section: Section,
) -> Result<Vec<&'v str>, AllocError> {
    match tree.get(section.word()) {
        Some(Value::Array(entries)) => entries
            .iter()
            .filter_map(|entry| short_name(entry))
            .collect(alloc),
        _ => Ok(Vec::new(alloc)),
    }
}

/// The entry at this place.
pub fn entry_at(tree: &Value, place: Place) -> Option<&Value> {
    let number = place.number as usize;
    if number == 0 {
        return None;
    }
    match tree.get(place.section.word()) {
        Some(entries) => entries.get(number - 1),
        None => None,
    }
}

/// Puts the name of the place's entry with a space before it, if it has a short one.
pub fn put_name(text: &mut Wording, tree: &Value, place: Place) {
    if let Some(entry) = entry_at(tree, place)
        && let Some(name) = short_name(entry)
    {
        text.put_between(" \"", name, "\"");
    }
}

/// Puts the number of a step with a comma before it. A place of the init list has the number itself.
fn put_step_number(text: &mut Wording, section: Section, step: usize) {
    if section != Section::Init {
        text.put(", step ");
        text.put_number(step.saturating_add(1));
    }
}

/// Puts the part of an entry with a comma before it. `value` is the table that has the unknown key,
/// if the part is one.
pub fn put_part(text: &mut Wording, section: Section, part: Part, value: Option<&Value>) {
    match part {
        Part::Whole => {}
        Part::Key(key) => {
            text.put(", key ");
            text.put(key.word());
        }
        Part::OtherKey(place) => {
            text.put(", key ");
            put_text(text, other_key(value, place));
        }
        Part::Step(step) => put_step_number(text, section, step),
        Part::Word(step, word) => {
            put_step_number(text, section, step);
            text.put(", word ");
            text.put_number(word.saturating_add(1));
        }
    }
}
