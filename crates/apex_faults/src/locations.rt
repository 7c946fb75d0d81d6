//! Where the subject of a fault stands in the table's text.
ghost use Rattle.std.specs.Prelude.{◌≡◌, ◌+◌, ◌-◌, ◌^◌, ◌≤◌, ◌<◌, length, take, IfSome};
ghost use Rattle.apex_faults.specs.Locations.{IsLocationIn, after_byte, location_after};

use crate::scanning::{Expression, after_value, from_next, next_expression};
use apex_words::{Key, Part, Place, Section, Subject};

/// A line and a column of a text, both counted from 1; a column counts characters.
#[derive(Clone, Copy, PartialEq, Eq)]
pub struct Location {
    /// One more than the line feeds before it.
    pub line: usize,
    /// One more than the characters before it in its line.
    pub column: usize,
}

impl Location {
    /// The location of the byte after one that is here; the later bytes of a character in UTF-8 take
    /// no column.
    fn after(self, byte: u8) -> Location
        requires { (self.line < 2 ^ 63) × (self.column < 2 ^ 63) }
        ensures value { result ≡ after_byte self byte }
        ensures bounds { (result.line ≤ self.line + 1) × (result.column ≤ self.column + 1) }
    {
        match byte {
            b'\n' => Location {
                line: self.line + 1,
                column: 1,
            },
            0x80..=0xbf => self,
            _ => Location {
                line: self.line,
                column: self.column + 1,
            },
        }
    }
}

/// The location behind these bytes, which are the front of a text.
pub fn location_after(bytes: &[u8]) -> Location
    ensures { result ≡ location_after bytes.now }
{
    let mut here = Location { line: 1, column: 1 };
    'each: for byte in bytes {
        here = here.after(*byte);
    }
    here
}

/// The location in the text at which its end `rest` begins.
fn location_of(text: &[u8], rest: &[u8]) -> Location
    requires { length rest.now ≤ length text.now }
    ensures { result ≡ location_after (take (length text.now - length rest.now) text.now) }
{
    location_after(&text[..text.len() - rest.len()])
}

/// The name of a header or a key, without the blanks around it, is this word, or is it in quotes.
fn is_word(name: &[u8], word: &[u8]) -> bool {
    match name.trim_ascii() {
        [b'"', quoted @ .., b'"'] | [b'\'', quoted @ .., b'\''] => quoted == word,
        bare => bare == word,
    }
}

/// The header of this number that has this word, from where it stands, and the text behind it.
fn header_of<'t>(text: &'t [u8], word: &str, number: u32) -> Option<Expression<'t>>
    ensures { IfSome result (λ e. (length e.start.now ≤ length text.now)
        × (length e.value.now < length e.start.now)) }
{
    let mut rest = text;
    let mut left = number;
    'headers: while let Some(expression) = next_expression(rest) {
        if expression.is_header && is_word(expression.name, word.as_bytes()) {
            if left <= 1 {
                return Some(expression);
            }
            left -= 1;
        }
        rest = if expression.is_header {
            expression.value
        } else {
            after_value(expression.value)
        };
    }
    None
}

/// The key of this word before the next header.
fn key_in<'t>(text: &'t [u8], word: &str) -> Option<Expression<'t>>
    ensures { IfSome result (λ e. (length e.start.now ≤ length text.now)
        × (length e.value.now < length e.start.now)) }
{
    let mut rest = text;
    'keys: while let Some(expression) = next_expression(rest) {
        if expression.is_header {
            return None;
        }
        if is_word(expression.name, word.as_bytes()) {
            return Some(expression);
        }
        rest = after_value(expression.value);
    }
    None
}

/// The element at this place of the array at the front, counted from 0.
fn element(text: &[u8], place: usize) -> &[u8]
    ensures { length result.now ≤ length text.now }
{
    let mut rest = match from_next(text) {
        [b'[', inner @ ..] => from_next(inner),
        other => other,
    };
    'elements: for _ in 0..place {
        rest = from_next(after_value(rest));
    }
    rest
}

/// The word at this place of the string at the front, counted from 0; words have a space between
/// them. If an escape or the end of a line comes before it: the string.
fn word_in(text: &[u8], place: usize) -> &[u8]
    ensures { length result.now ≤ length text.now }
{
    let (mut rest, has_escapes) = match text {
        [b'"', b'"', b'"', inner @ ..] | [b'"', inner @ ..] => (inner, true),
        [b'\'', b'\'', b'\'', inner @ ..] | [b'\'', inner @ ..] => (inner, false),
        other => (other, false),
    };
    let mut left = place;
    'bytes: while let [byte, after @ ..] = rest {
        if matches!(*byte, b'\r' | b'\n') {
            return text;
        }
        if left == 0 {
            return rest;
        }
        if has_escapes && *byte == b'\\' {
            return text;
        }
        if *byte == b' ' {
            left -= 1;
        }
        rest = after;
    }
    rest
}

/// The text from the step at this place on: a step of the init list if the section is that, or else
/// one of a script. The key of the list or of the script is looked for in `body`.
fn step<'t>(body: &'t [u8], section: Section, place: usize) -> Option<&'t [u8]>
    ensures { IfSome result (λ step. length step.now ≤ length body.now) }
{
    let word = match section {
        Section::Init => section.word(),
        _ => Key::Script.word(),
    };
    let steps = key_in(body, word)?;
    Some(element(steps.value, place))
}

/// The text from the header of the place on, and the text after the header, which has its keys. If
/// it has no header: the text from its section's key at the top on, and none, since the entries of
/// an array at the top are not told apart. The init list is such a key itself.
fn place_in<'t>(text: &'t [u8], place: Place) -> (&'t [u8], &'t [u8])
    ensures { (length result.0.now ≤ length text.now) × (length result.1.now ≤ length text.now) }
{
    let found = match place.section {
        Section::Top => return (text, text),
        Section::Init => None,
        section => header_of(text, section.word(), place.number),
    };
    if let Some(header) = found {
        return (header.start, header.value);
    }
    match key_in(text, place.section.word()) {
        Some(key) if place.section == Section::Init => (key.start, key.start),
        Some(key) => (key.start, &[]),
        None => (text, &[]),
    }
}

/// The text from the first header of this word on, or else all of it.
fn top_header<'t>(text: &'t [u8], word: &str) -> &'t [u8]
    ensures { length result.now ≤ length text.now }
{
    match header_of(text, word, 1) {
        Some(header) => header.start,
        None => text,
    }
}

/// The text from the subject on, or from its entry on if it is not there. `other` is the key that
/// the subject is about, if it is one that the section does not have.
fn subject_in<'t>(text: &'t [u8], subject: Subject, other: &str) -> &'t [u8]
    ensures { length result.now ≤ length text.now }
{
    let (start, body) = place_in(text, subject.place);
    let section = subject.place.section;
    let word = match subject.part {
        Part::Whole => return start,
        Part::Step(place) => return step(body, section, place).unwrap_or(start),
        Part::Word(place, word) => {
            return match step(body, section, place) {
                Some(step) => word_in(step, word),
                None => start,
            };
        }
        Part::Key(key) => key.word(),
        Part::OtherKey(_) => other,
    };
    match (key_in(body, word), section) {
        (Some(key), _) => key.start,
        (None, Section::Top) => top_header(text, word),
        (None, _) => start,
    }
}

/// Where the subject stands in the text, or where its entry begins if it is not there. `other` is
/// the key that the subject is about, if it is one that the section does not have.
pub fn locate(text: &[u8], subject: Subject, other: &str) -> Location
    ensures { IsLocationIn text.now result }
{
    location_of(text, subject_in(text, subject, other))
}
