//! The text of a fault: what it is about, what was given, and what is wanted.
use crate::mending::most_at;
use crate::offers::{put_no_service, put_offer, put_other_key};
use crate::paths::{found, subject_path};
use crate::shown::{
    first_named, has_empty_word, names_in, other_key, put_name, put_part, put_text, put_value,
    word_at,
};
use crate::wanted::{put_wanted_at, put_wanted_name, put_wanted_word, section_of, shape_word};
use crate::wordings::Wording;
use apex_calls::{Kind, Row, Shape, row_of_word};
use apex_types::{MOST_NAME, MOST_PROCESSES, MOST_PROCESSES_IN_ONE};
use apex_words::{Key, Part, Place, Section, Subject, TableFault};
use std::alloc::{AllocError, Global};
use toml::Value;

/// Puts why a text is no name, if it is none.
fn put_why_no_name(text: &mut Wording, name: &str) {
    let count = name.len();
    if count < 1 || count > MOST_NAME {
        text.put(", and this one has ");
        text.put_number(count);
        return;
    }
    if let Some(place) = name
        .as_bytes()
        .iter()
        .position(|byte| *byte < 0x21 || *byte > 0x7e)
    {
        text.put_number_between(", and byte ", place.saturating_add(1), " is another one");
    }
}

/// Puts what is wanted in place of a text that is no name.
fn put_bad_name(text: &mut Wording, name: &str) {
    put_text(text, name);
    text.put(" is given; ");
    put_wanted_name(text);
    text.put(" is wanted");
    put_why_no_name(text, name);
}

/// Puts that no entry of this kind has the name, and which one is near to it.
fn put_unknown_name(text: &mut Wording, tree: &Value, kind: Kind, name: &str) {
    let section = section_of(kind);
    text.put_between("no ", section.word(), " of the table has the name ");
    put_text(text, name);
    match names_in(text.alloc(), tree, section) {
        Ok(names) => put_offer(text, name, &names),
        Err(_) => text.refuse(),
    }
}

/// Puts what is wanted of the word at this place of the step, behind its service.
fn put_argument(text: &mut Wording, tree: &Value, fault: TableFault, shape: Shape, word: &str) {
    match (shape, fault) {
        (Shape::Entry(kind), TableFault::UnknownName(_)) => {
            put_unknown_name(text, tree, kind, word);
        }
        (Shape::Named(_), TableFault::BadName(_)) => put_bad_name(text, word),
        _ => {
            put_text(text, word);
            text.put(" is given; ");
            put_wanted_word(text, shape);
            text.put(" is wanted");
        }
    }
}

/// Puts what is wanted of the word at this place of the step.
fn put_word(
    text: &mut Wording,
    tree: &Value,
    fault: TableFault,
    step: Option<&Value>,
    place: usize,
) {
    let service = word_at(step, 0);
    if let TableFault::BadInitStep(_) = fault {
        text.put_between("an init list may not have ", service, "; only a script may");
    } else if place == 0 {
        put_no_service(text, service);
    } else if let Some(row) = row_of_word(service)
        && let Some(shape) = row.shapes.get(place - 1)
    {
        put_argument(text, tree, fault, *shape, word_at(step, place));
    }
}

/// Puts the words that a step has behind its service, in short.
fn put_arguments(text: &mut Wording, row: &Row) {
    match row.shapes.len() {
        0 => text.put("no word is"),
        1 => text.put("1 word is"),
        count => {
            text.put_number(count);
            text.put(" words are");
        }
    }
    text.put(" wanted behind ");
    text.put(row.word);
    let mut front = ": ";
    for shape in row.shapes {
        text.put(front);
        text.put(shape_word(*shape));
        front = ", ";
    }
}

/// Puts what is given, if anything is.
fn put_given(text: &mut Wording, value: Option<&Value>) {
    match value {
        Some(value) => {
            put_value(text, value);
            text.put(" is given; ");
        }
        None => text.put("it is missing; "),
    }
}

/// Puts what is wanted of the whole step.
fn put_step(text: &mut Wording, step: Option<&Value>) {
    let Some(value) = step else {
        text.put("a text is wanted");
        return;
    };
    put_given(text, step);
    match row_of_word(word_at(step, 0)) {
        Some(_) if has_empty_word(value) => {
            text.put("one space is wanted between two words, and none behind the last one");
        }
        Some(row) => put_arguments(text, row),
        None => text.put("a text is wanted"),
    }
}

/// Puts what is wanted at a key.
fn put_key(
    text: &mut Wording,
    tree: &Value,
    fault: TableFault,
    place: Place,
    key: Key,
    value: Option<&Value>,
) {
    match (fault, value) {
        (TableFault::BadName(_), Some(Value::String(name))) => put_bad_name(text, name.as_str()),
        (TableFault::OutOfRange(_), Some(Value::Array(_))) => {
            text.put("it is empty, and a script that loops has a step");
        }
        _ => {
            put_given(text, value);
            put_wanted_at(text, tree, place, key);
            text.put(" is wanted");
        }
    }
}

/// Puts which entry has the name too.
fn put_double_name(text: &mut Wording, tree: &Value, place: Place, value: Option<&Value>) {
    let Some(Value::String(name)) = value else {
        text.put("another entry has the name too");
        return;
    };
    put_text(text, name.as_str());
    text.put_between(" is given; ", place.section.word(), " ");
    text.put_number(first_named(tree, place.section, name.as_str()));
    text.put(" has this name too");
}

/// Puts what is wanted of a section or of an entry.
fn put_whole(text: &mut Wording, place: Place, value: Option<&Value>) {
    let section = place.section.word();
    if value.is_none() || matches!(value, Some(Value::Array(items)) if items.is_empty()) {
        text.put_between(
            "there is none; at least one is wanted, as [[",
            section,
            "]]",
        );
        return;
    }
    put_given(text, value);
    match (place.number, place.section) {
        (0, Section::Init) => text.put("an array of texts is wanted"),
        (0, _) => text.put_between("an array of tables is wanted, as [[", section, "]]"),
        _ => text.put("a table is wanted"),
    }
}

/// Puts how many processes are wanted, by the profile of the table.
fn put_most_processes(text: &mut Wording, tree: &Value) {
    if let Some(Value::Integer(2)) = tree.get("profile") {
        text.put_number(MOST_PROCESSES);
        text.put(" are wanted");
    } else {
        text.put_number(MOST_PROCESSES_IN_ONE);
        text.put_number_between(" are wanted, or ", MOST_PROCESSES, " with profile = 2");
    }
}

/// Puts how many entries or steps are too many.
fn put_too_many(
    text: &mut Wording,
    tree: &Value,
    section: Section,
    part: Part,
    value: Option<&Value>,
) {
    let given = match value {
        Some(Value::Array(items)) => items.len(),
        _ => 0,
    };
    text.put_number(given);
    match (section, part) {
        (Section::Init, _) | (_, Part::Key(_)) => text.put(" steps are given; at most "),
        _ => text.put(" are given; at most "),
    }
    match (section, part) {
        (Section::Process, Part::Whole) => put_most_processes(text, tree),
        _ => {
            text.put_number(most_at(section, part));
            text.put(" are wanted");
        }
    }
}

/// Puts what is wrong, by the fault.
fn put_why(
    text: &mut Wording,
    tree: &Value,
    fault: TableFault,
    subject: Subject,
    value: Option<&Value>,
) {
    let place = subject.place;
    let section = place.section;
    match (fault, subject.part) {
        (TableFault::TooMany(_), part) => put_too_many(text, tree, section, part, value),
        (TableFault::DoubleName(_), _) => put_double_name(text, tree, place, value),
        (_, Part::Whole) => put_whole(text, place, value),
        (_, Part::Key(key)) => put_key(text, tree, fault, place, key, value),
        (_, Part::OtherKey(number)) => put_other_key(text, section, other_key(value, number)),
        (_, Part::Step(_)) => put_step(text, value),
        (_, Part::Word(_, word)) => put_word(text, tree, fault, value, word),
    }
}

/// Puts the text of the fault that is about this value.
fn put_fault(
    text: &mut Wording,
    tree: &Value,
    fault: TableFault,
    subject: Subject,
    value: Option<&Value>,
) {
    put_name(text, tree, subject.place);
    put_part(text, subject.place.section, subject.part, value);
    text.put(": ");
    put_why(text, tree, fault, subject, value);
}

/// The text of a fault of the tree behind the fault's place: which part of it is at fault, what was
/// given, and what is wanted.
pub fn explain(alloc: Global, tree: &Value, fault: TableFault) -> Result<String, AllocError> {
    let mut text = Wording::new(alloc);
    if let Some(subject) = fault.parts().1 {
        match subject_path(alloc, subject) {
            Ok(path) => put_fault(&mut text, tree, fault, subject, found(tree, &path)),
            Err(_) => text.refuse(),
        }
    }
    text.finish()
}
