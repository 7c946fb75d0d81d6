//! Values that the reader takes at each key, for an entry that has another one.
ghost use Rattle.std.specs.Prelude.{◌≡◌, IfOk, string_bytes};
ghost use Rattle.toml.specs.Data.{array, item, no_items};
ghost use Rattle.toml.specs.View.{view};
ghost use Rattle.apex_faults.specs.Plain.{keys_of, plain_entry, plain_name, plain_section, plain_step, plain_value, with_plain};

use crate::paths::insert;
use apex_types::{MOST_CORES, MOST_ENTRIES, MOST_MESSAGE, MOST_PROFILE, MOST_VALUE};
use apex_words::{Key, Section};
use std::alloc::{AllocError, Global};
use toml::{Table, Value};

/// The keys of the table's top, or of an entry of the section.
pub fn keys_of(section: Section) -> &'static [Key]
    ensures { result.now ≡ keys_of section }
{
    match section {
        Section::Top => &[
            Key::Profile,
            Key::Cores,
            Key::History,
            Key::Entries(Section::Process),
            Key::Entries(Section::Semaphore),
            Key::Entries(Section::Buffer),
            Key::Entries(Section::Blackboard),
            Key::Entries(Section::EventFlag),
            Key::Entries(Section::Mutex),
            Key::Entries(Section::Init),
        ],
        Section::Process => &[
            Key::Name,
            Key::Priority,
            Key::Core,
            Key::Period,
            Key::Capacity,
            Key::Deadline,
            Key::Loop,
            Key::Start,
            Key::Script,
        ],
        Section::Semaphore => &[Key::Name, Key::Maximum, Key::Initial, Key::Discipline],
        Section::Buffer => &[Key::Name, Key::Length, Key::Capacity, Key::Discipline],
        Section::Blackboard => &[Key::Name, Key::Length],
        Section::EventFlag => &[Key::Name],
        Section::Mutex => &[Key::Name, Key::Ceiling, Key::Discipline],
        Section::Init => &[],
    }
}

/// A step that a script and an init list may have.
pub fn plain_step(alloc: Global) -> Result<Value, AllocError>
    ensures { IfOk result (λ v. view v ≡ plain_step) }
{
    Value::string(alloc, "GET_TIME")
}

fn plain_name(alloc: Global, number: u32) -> Result<String, AllocError>
    ensures { IfOk result (λ name. string_bytes name ≡ plain_name number) }
{
    format!(in alloc; "(name-of-entry-{number})")
}

/// The array of this value alone.
pub fn array_of(alloc: Global, value: Value) -> Result<Value, AllocError>
    ensures { IfOk result (λ v. view v ≡ array (item (view value) no_items)) }
{
    let mut items = Vec::new(alloc);
    items.push(value)?;
    Ok(Value::Array(items))
}

/// The value that the reader takes at this key of the entry of this number.
pub fn plain_value(alloc: Global, number: u32, key: Key) -> Result<Value, AllocError>
    ensures { IfOk result (λ v. view v ≡ plain_value number key) }
{
    match key {
        Key::Profile => Ok(Value::from(MOST_PROFILE)),
        Key::Cores => Ok(Value::from(MOST_CORES)),
        Key::History => Ok(Value::from(MOST_ENTRIES)),
        Key::Entries(_) => Ok(Value::Array(Vec::new(alloc))),
        Key::Name => Ok(Value::String(plain_name(alloc, number)?)),
        Key::Period => Value::string(alloc, "infinite"),
        Key::Deadline => Value::string(alloc, "SOFT"),
        Key::Loop | Key::Start => Ok(Value::from(false)),
        Key::Script => array_of(alloc, plain_step(alloc)?),
        Key::Maximum => Ok(Value::from(MOST_VALUE)),
        Key::Core | Key::Initial => Ok(Value::from(0u32)),
        Key::Discipline => Value::string(alloc, "FIFO"),
        Key::Length => Ok(Value::from(MOST_MESSAGE as u32)),
        Key::Priority | Key::Capacity | Key::Ceiling => Ok(Value::from(1u32)),
    }
}

/// The entry of this number with a value that the reader takes at each key of the section.
pub fn plain_entry(alloc: Global, section: Section, number: u32) -> Result<Value, AllocError>
    ensures { IfOk result (λ v. view v ≡ plain_entry section number) }
{
    let mut members = Table::new(alloc);
    for key in keys_of(section) {
        let value = plain_value(alloc, number, *key)?;
        insert(alloc, &mut members, *key, value)?;
    }
    Ok(Value::Table(members))
}

/// A section: the init list without a step, or another one with one entry.
pub fn plain_section(alloc: Global, section: Section) -> Result<Value, AllocError>
    ensures { IfOk result (λ v. view v ≡ plain_section section) }
{
    if section == Section::Init {
        return Ok(Value::Array(Vec::new(alloc)));
    }
    array_of(alloc, plain_entry(alloc, section, 1)?)
}
