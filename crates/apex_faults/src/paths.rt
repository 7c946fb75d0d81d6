//! The way from the top of TOML's tree to what a fault is about.
ghost use Rattle.std.specs.Prelude.{◌≡◌, option_map, IfOk};
ghost use Rattle.toml.specs.View.{view, array_view, table_view};
ghost use Rattle.apex_words.specs.Fault.{key_word};
ghost use Rattle.apex_faults.specs.Paths.{changed, found, key_path, part_path, place_path, step_finds, step_path, step_puts, subject_path};
ghost use Rattle.apex_faults.specs.Trees.{put_item, put_member, with_item, with_member};

use apex_words::{Key, Part, Section, Subject};
use std::alloc::{AllocError, Global};
use toml::{Table, Value};

/// A step of the way from a value of TOML's tree to one within it.
#[derive(Clone, Copy)]
pub enum PathStep {
    /// To the value at this key of a table.
    Key(Key),
    /// To the value at this place of an array, counted from 0.
    Item(usize),
}

/// Puts the value at the key.
#[tactic(auto, using(crate::proofs::Trees::member_put))]
pub fn insert(alloc: Global, members: &mut Table, key: Key, value: Value) -> Result<(), AllocError>
    ensures { IfOk result (λ _. table_view members.new
        ≡ with_member (key_word key) (view value) (table_view members.old)) }
{
    let word = String::from_str(alloc, key.word())?;
    drop(members.insert(word, value)?);
    Ok(())
}

/// The value with `new` at this key, if it is a table.
fn put_member(alloc: Global, value: &Value, key: Key, new: Value) -> Result<Value, AllocError>
    ensures { IfOk result (λ v. view v
        ≡ put_member (key_word key) (view new) (view value.now)) }
{
    match value.clone()? {
        Value::Table(mut members) => {
            insert(alloc, &mut members, key, new)?;
            Ok(Value::Table(members))
        }
        other => Ok(other),
    }
}

/// Puts the value at this place, if the array is that long.
#[tactic(auto, using(crate::proofs::Trees::item_put, crate::proofs::Trees::item_past))]
fn set_item(items: &mut Vec<Value>, place: usize, new: Value)
    ensures { array_view items.new ≡ with_item place (view new) (array_view items.old) }
{
    if place >= items.len() {
        return;
    }
    items[place] = new;
}

/// The value with `new` at this place, if it is an array that long.
fn put_item(value: &Value, place: usize, new: Value) -> Result<Value, AllocError>
    ensures { IfOk result (λ v. view v ≡ put_item place (view new) (view value.now)) }
{
    match value.clone()? {
        Value::Array(mut items) => {
            set_item(&mut items, place, new);
            Ok(Value::Array(items))
        }
        other => Ok(other),
    }
}

impl PathStep {
    fn find<'v>(&self, value: &'v Value) -> Option<&'v Value>
        ensures { option_map (λ v. view v.now) result ≡ step_finds self.now (view value.now) }
    {
        match self {
            PathStep::Key(key) => value.get(key.word()),
            PathStep::Item(place) => value.get(*place),
        }
    }

    fn put(&self, alloc: Global, value: &Value, new: Value) -> Result<Value, AllocError>
        ensures { IfOk result (λ v. view v ≡ step_puts self.now (view new) (view value.now)) }
    {
        match self {
            PathStep::Key(key) => put_member(alloc, value, *key, new),
            PathStep::Item(place) => put_item(value, *place, new),
        }
    }
}

/// What the path leads to.
pub fn found<'v>(value: &'v Value, path: &[PathStep]) -> Option<&'v Value>
    ensures { option_map (λ v. view v.now) result ≡ found path.now (view value.now) }
{
    match path {
        [] => Some(value),
        [step, path @ ..] => match step.find(value) {
            Some(inner) => found(inner, path),
            None => None,
        },
    }
}

/// The value with `new` at the end of the path; its last key need not be there before.
pub fn changed(
    alloc: Global,
    value: &Value,
    path: &[PathStep],
    new: Value,
) -> Result<Value, AllocError>
    ensures { IfOk result (λ v. view v ≡ changed path.now (view new) (view value.now)) }
{
    match path {
        [] => Ok(new),
        [step] => step.put(alloc, value, new),
        [step, path @ ..] => match step.find(value) {
            Some(inner) => {
                let inner = changed(alloc, inner, path, new)?;
                step.put(alloc, value, inner)
            }
            None => value.clone(),
        },
    }
}

/// The path to the entry of this number in a section, counted from 1, or to the section as a whole
/// if the number is 0. Fails only for want of memory.
pub fn place_path(alloc: Global, section: Section, number: u32) -> Result<Vec<PathStep>, AllocError>
    ensures { IfOk result (λ path. path.items ≡ place_path section number) }
{
    let mut path = Vec::new(alloc);
    if section == Section::Top {
        return Ok(path);
    }
    path.push(PathStep::Key(Key::Entries(section)))?;
    if number > 0 {
        path.push(PathStep::Item(number as usize - 1))?;
    }
    Ok(path)
}

fn step_path(
    alloc: Global,
    section: Section,
    number: u32,
    step: usize,
) -> Result<Vec<PathStep>, AllocError>
    ensures { IfOk result (λ path. path.items ≡ step_path section number step) }
{
    let mut path = Vec::new(alloc);
    path.push(PathStep::Key(Key::Entries(section)))?;
    if section != Section::Init {
        path.push(PathStep::Item((number as usize).saturating_sub(1)))?;
        path.push(PathStep::Key(Key::Script))?;
    }
    path.push(PathStep::Item(step))?;
    Ok(path)
}

fn key_path(
    alloc: Global,
    section: Section,
    number: u32,
    key: Key,
) -> Result<Vec<PathStep>, AllocError>
    ensures { IfOk result (λ path. path.items ≡ key_path section number key) }
{
    let mut path = Vec::new(alloc);
    if section != Section::Top {
        path.push(PathStep::Key(Key::Entries(section)))?;
        path.push(PathStep::Item((number as usize).saturating_sub(1)))?;
    }
    path.push(PathStep::Key(key))?;
    Ok(path)
}

/// The path to what the subject is about: the whole step for a word of it, and the whole entry for
/// a key that it should not have.
pub fn subject_path(alloc: Global, subject: Subject) -> Result<Vec<PathStep>, AllocError>
    ensures { IfOk result (λ path. path.items ≡ subject_path subject) }
{
    let section = subject.place.section;
    let number = subject.place.number;
    match subject.part {
        Part::Whole | Part::OtherKey(_) => place_path(alloc, section, number),
        Part::Key(key) => key_path(alloc, section, number, key),
        Part::Step(step) | Part::Word(step, _) => step_path(alloc, section, number, step),
    }
}
