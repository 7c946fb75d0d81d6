//! One key of TOML's tree, and its type.
ghost use Rattle.std.specs.Prelude.{◌≡◌, ◌≤◌, map, length, option_map, IfOk};
ghost use Rattle.toml.specs.View.{view, table_view};
ghost use Rattle.apex_words.specs.Outcome.{Gives};
ghost use Rattle.apex_table.specs.Keys.{is_one_of, other_key, known, value_at, required, text, truth, table, array, array_at, at_most, number, number_at, number_or, span, span_or_infinite, truth_or, text_at, deadline_type, deadline, deadline_or_soft, discipline, discipline_at, well_formed, name_at};

use crate::named::{HasName, has_name};
use apex_types::{DeadlineType, Discipline, MOST_SPAN, Name, Span};
use apex_words::{Key, Place, Subject, TableFault};
use toml::{Table, Value};

fn is_one_of(keys: &[Key], name: &str) -> bool
    ensures { result ≡ is_one_of keys.now name.now }
{
    keys.iter().any(|key| name == key.word())
}

/// The place of the first key of the table that is none of these, counted from 0.
fn other_key(keys: &[Key], table: &Table) -> Option<usize>
    ensures { result ≡ other_key keys.now (table_view table.now) }
{
    table
        .keys()
        .position(|name| !is_one_of(keys, name.as_str()))
}

/// Refuses a key that is none of these.
pub fn only(at: Place, keys: &[Key], table: &Table) -> Result<(), TableFault>
    ensures { Gives (λ _. table_view table.now) result (known at keys.now (table_view table.now)) }
{
    match other_key(keys, table) {
        Some(place) => Err(TableFault::UnknownKey(at.other_key(place))),
        None => Ok(()),
    }
}

/// The value at a key, or none if the key is absent.
pub fn value_at(table: &Table, key: Key) -> Option<&Value>
    ensures { option_map (λ v. view v.now) result ≡ value_at key (table_view table.now) }
{
    table.get(key.word())
}

fn required(at: Place, table: &Table, key: Key) -> Result<&Value, TableFault>
    ensures { Gives (λ v. view v.now) result (required at key (table_view table.now)) }
{
    match value_at(table, key) {
        Some(value) => Ok(value),
        None => Err(TableFault::MissingKey(at.key(key))),
    }
}

/// The text that the value is. `WrongType` if it is none.
pub fn text(subject: Subject, value: &Value) -> Result<&str, TableFault>
    ensures { Gives (λ t. t.now) result (text subject (view value.now)) }
{
    match value.as_str() {
        Some(text) => Ok(text),
        None => Err(TableFault::WrongType(subject)),
    }
}

fn truth(subject: Subject, value: &Value) -> Result<bool, TableFault>
    ensures { Gives (λ b. b) result (truth subject (view value.now)) }
{
    match value.as_bool() {
        Some(truth) => Ok(truth),
        None => Err(TableFault::WrongType(subject)),
    }
}

/// The table that the value is. `WrongType` if it is none.
pub fn table(subject: Subject, value: &Value) -> Result<&Table, TableFault>
    ensures { Gives (λ t. table_view t.now) result (table subject (view value.now)) }
{
    match value.as_table() {
        Some(table) => Ok(table),
        None => Err(TableFault::WrongType(subject)),
    }
}

/// The values of the array that the value is. `WrongType` if it is none.
pub fn array(subject: Subject, value: &Value) -> Result<&[Value], TableFault>
    ensures { Gives (λ s. map view s.now) result (array subject (view value.now)) }
{
    match value.as_array() {
        Some(items) => Ok(items.as_slice()),
        None => Err(TableFault::WrongType(subject)),
    }
}

/// Refuses more values than these.
pub fn at_most(subject: Subject, most: usize, items: &[Value]) -> Result<(), TableFault>
    ensures gives { Gives (λ _. map view items.now) result
        (at_most subject most (map view items.now)) }
    ensures bound { IfOk result (λ _. length items.now ≤ most) }
{
    if items.len() <= most {
        Ok(())
    } else {
        Err(TableFault::TooMany(subject))
    }
}

/// A whole number from `low` to `high`.
fn number(subject: Subject, low: u32, high: u32, value: &Value) -> Result<u32, TableFault>
    ensures gives { Gives (λ n. n) result (number subject low high (view value.now)) }
    ensures range { IfOk result (λ n. (low ≤ n) × (n ≤ high)) }
{
    let Some(found) = value.as_integer() else {
        return Err(TableFault::WrongType(subject));
    };
    if found < 0 || found < i64::from(low) || found > i64::from(high) {
        return Err(TableFault::OutOfRange(subject));
    }
    Ok(found as u32)
}

/// The whole number at a key without a default.
pub fn number_at(at: Place, low: u32, high: u32, table: &Table, key: Key) -> Result<u32, TableFault>
    ensures gives { Gives (λ n. n) result (number_at at low high key (table_view table.now)) }
    ensures range { IfOk result (λ n. (low ≤ n) × (n ≤ high)) }
{
    let value = required(at, table, key)?;
    number(at.key(key), low, high, value)
}

/// The whole number at a key with a default.
pub fn number_or(
    at: Place,
    default: u32,
    low: u32,
    high: u32,
    table: &Table,
    key: Key,
) -> Result<u32, TableFault>
    requires { (low ≤ default) × (default ≤ high) }
    ensures gives { Gives (λ n. n) result
        (number_or at default low high key (table_view table.now)) }
    ensures range { IfOk result (λ n. (low ≤ n) × (n ≤ high)) }
{
    match value_at(table, key) {
        Some(value) => number(at.key(key), low, high, value),
        None => Ok(default),
    }
}

/// A span of time, or none if it is infinite.
fn span(subject: Subject, value: &Value) -> Result<Option<Span>, TableFault>
    ensures { Gives (λ s. s) result (span subject (view value.now)) }
{
    match value.as_str() {
        Some("infinite") => Ok(None),
        Some(_) => Err(TableFault::OutOfRange(subject)),
        None => Ok(Some(Span::of(number(subject, 1, MOST_SPAN, value)?))),
    }
}

/// The span of time at a key whose default is infinite.
pub fn span_or_infinite(at: Place, table: &Table, key: Key) -> Result<Option<Span>, TableFault>
    ensures { Gives (λ s. s) result (span_or_infinite at key (table_view table.now)) }
{
    match value_at(table, key) {
        Some(value) => span(at.key(key), value),
        None => Ok(None),
    }
}

/// The truth value at a key with a default.
pub fn truth_or(at: Place, default: bool, table: &Table, key: Key) -> Result<bool, TableFault>
    ensures { Gives (λ b. b) result (truth_or at default key (table_view table.now)) }
{
    match value_at(table, key) {
        Some(value) => truth(at.key(key), value),
        None => Ok(default),
    }
}

/// The array at a key without a default.
pub fn array_at(at: Place, table: &Table, key: Key) -> Result<&[Value], TableFault>
    ensures { Gives (λ s. map view s.now) result (array_at at key (table_view table.now)) }
{
    let value = required(at, table, key)?;
    array(at.key(key), value)
}

/// The text at a key without a default.
fn text_at(at: Place, table: &Table, key: Key) -> Result<&str, TableFault>
    ensures { Gives (λ t. t.now) result (text_at at key (table_view table.now)) }
{
    let value = required(at, table, key)?;
    text(at.key(key), value)
}

fn deadline_type(subject: Subject, word: &str) -> Result<DeadlineType, TableFault>
    ensures { Gives (λ d. d) result (deadline_type subject word.now) }
{
    match word {
        "SOFT" => Ok(DeadlineType::Soft),
        "HARD" => Ok(DeadlineType::Hard),
        _ => Err(TableFault::OutOfRange(subject)),
    }
}

fn deadline(subject: Subject, value: &Value) -> Result<DeadlineType, TableFault>
    ensures { Gives (λ d. d) result (deadline subject (view value.now)) }
{
    let word = text(subject, value)?;
    deadline_type(subject, word)
}

/// The type of a deadline, at its key, whose default is SOFT.
pub fn deadline_or_soft(at: Place, table: &Table) -> Result<DeadlineType, TableFault>
    ensures { Gives (λ d. d) result (deadline_or_soft at (table_view table.now)) }
{
    match value_at(table, Key::Deadline) {
        Some(value) => deadline(at.key(Key::Deadline), value),
        None => Ok(DeadlineType::Soft),
    }
}

fn discipline(subject: Subject, word: &str) -> Result<Discipline, TableFault>
    ensures { Gives (λ d. d) result (discipline subject word.now) }
{
    match word {
        "FIFO" => Ok(Discipline::Fifo),
        "PRIORITY" => Ok(Discipline::Priority),
        _ => Err(TableFault::OutOfRange(subject)),
    }
}

/// The discipline of a queue, at its key.
pub fn discipline_at(at: Place, table: &Table) -> Result<Discipline, TableFault>
    ensures { Gives (λ d. d) result (discipline_at at (table_view table.now)) }
{
    let word = text_at(at, table, Key::Discipline)?;
    discipline(at.key(Key::Discipline), word)
}

/// The name of this text. `BadName` if it is no name.
pub fn well_formed(subject: Subject, text: &str) -> Result<Name, TableFault>
    ensures { Gives (λ n. n) result (well_formed subject text.now) }
{
    match Name::from_bytes(text.as_bytes()) {
        Some(name) => Ok(name),
        None => Err(TableFault::BadName(subject)),
    }
}

/// The name of an entry, which none of those before it in its section has.
#[tactic(auto, unfolding(crate::specs::Keys::name_at))]
pub fn name_at<T: HasName>(at: Place, before: &[T], table: &Table) -> Result<Name, TableFault>
    ensures { Gives (λ n. n) result (name_at at (map T.name_of before.now) (table_view table.now)) }
{
    let text = text_at(at, table, Key::Name)?;
    let name = well_formed(at.key(Key::Name), text)?;
    if has_name(before, name.as_bytes()) {
        return Err(TableFault::DoubleName(at.key(Key::Name)));
    }
    Ok(name)
}
