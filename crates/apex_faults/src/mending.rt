//! A table's tree in which one fault is mended.
ghost use Rattle.std.specs.Prelude.{◌≡◌, option_map, string_bytes, IfOk};
ghost use Rattle.toml.specs.View.{view, array_view, table_view};
ghost use Rattle.apex_table.specs.Keys.{is_one_of};
ghost use Rattle.apex_words.specs.Fault.{key_word};
ghost use Rattle.apex_words.specs.declared.key.Key.TheVariants.{Profile};
ghost use Rattle.apex_faults.specs.Plain.{plain_value};
ghost use Rattle.apex_faults.specs.Trees.{first_items, put_member, without_member};
ghost use Rattle.apex_faults.specs.Mended.{cut, fault_path, mended, mended_part, most_at, other_name, plain_part, retyped_section, widened, without_other, without_unknown};

use crate::paths::{PathStep, changed, found, subject_path};
use crate::plain::{array_of, keys_of, plain_entry, plain_section, plain_step, plain_value};
use apex_types::{MOST_INIT_STEPS, MOST_OBJECTS, MOST_PROCESSES, MOST_STEPS};
use apex_words::{Key, Part, Section, Subject, TableFault};
use std::alloc::{AllocError, Global};
use toml::{Table, Value};

/// The value that the reader takes there.
fn plain_part(alloc: Global, subject: Subject) -> Result<Value, AllocError>
    ensures { IfOk result (λ v. view v ≡ plain_part subject) }
{
    let section = subject.place.section;
    let number = subject.place.number;
    match subject.part {
        Part::Whole if number == 0 => plain_section(alloc, section),
        Part::Whole | Part::OtherKey(_) => plain_entry(alloc, section, number),
        Part::Key(key) => plain_value(alloc, number, key),
        Part::Step(_) | Part::Word(_, _) => plain_step(alloc),
    }
}

/// The key has a name of these.
fn is_one_of(keys: &[Key], name: &str) -> bool
    ensures { result ≡ is_one_of keys.now name.now }
{
    keys.iter().any(|key| name == key.word())
}

/// The name of the first key that is none of these.
fn other_name<'t>(keys: &[Key], members: &'t Table) -> Option<&'t String>
    ensures { option_map (λ name. string_bytes name.now) result
        ≡ other_name keys.now (table_view members.now) }
{
    members.keys().find(|name| !is_one_of(keys, name.as_str()))
}

/// Removes the member of this name.
fn remove(members: &mut Table, name: &str)
    ensures { table_view members.new ≡ without_member name.now (table_view members.old) }
{
    drop(members.remove(name));
}

/// Removes the first member whose key is none of these.
fn remove_other(alloc: Global, keys: &[Key], members: &mut Table) -> Result<(), AllocError>
    ensures { IfOk result (λ _. table_view members.new
        ≡ without_other keys.now (table_view members.old)) }
{
    let Some(name) = other_name(keys, members) else {
        return Ok(());
    };
    let name = String::from_str(alloc, name.as_str())?;
    remove(members, name.as_str());
    Ok(())
}

/// The most values that an array may have: entries of a section, steps of a script or of the init
/// list.
pub fn most_at(section: Section, part: Part) -> usize
    ensures { result ≡ most_at section part }
{
    match (part, section) {
        (Part::Key(_), _) => MOST_STEPS,
        (_, Section::Process) => MOST_PROCESSES,
        (_, Section::Init) => MOST_INIT_STEPS,
        _ => MOST_OBJECTS,
    }
}

/// A table without its first unknown key.
fn without_unknown(
    alloc: Global,
    subject: Subject,
    old: Option<&Value>,
) -> Result<Value, AllocError>
    ensures { IfOk result (λ v. view v
        ≡ without_unknown subject (option_map (λ o. view o.now) old.entry)) }
{
    let Some(value) = old else {
        return plain_part(alloc, subject);
    };
    match value.clone()? {
        Value::Table(mut members) => {
            remove_other(alloc, keys_of(subject.place.section), &mut members)?;
            Ok(Value::Table(members))
        }
        _ => plain_part(alloc, subject),
    }
}

/// Keeps the first `most` values.
#[tactic(auto, using(crate::proofs::Trees::items_front))]
fn truncate(items: &mut Vec<Value>, most: usize)
    ensures { array_view items.new ≡ first_items most (array_view items.old) }
{
    items.truncate(most);
}

/// The front of an array that is too long.
fn cut(alloc: Global, subject: Subject, old: Option<&Value>) -> Result<Value, AllocError>
    ensures { IfOk result (λ v. view v
        ≡ cut subject (option_map (λ o. view o.now) old.entry)) }
{
    let Some(value) = old else {
        return plain_part(alloc, subject);
    };
    match value.clone()? {
        Value::Array(mut front) => {
            truncate(&mut front, most_at(subject.place.section, subject.part));
            Ok(Value::Array(front))
        }
        _ => plain_part(alloc, subject),
    }
}

/// The array of a section that is one table.
fn retyped_section(
    alloc: Global,
    subject: Subject,
    old: Option<&Value>,
) -> Result<Value, AllocError>
    ensures { IfOk result (λ v. view v
        ≡ retyped_section subject (option_map (λ o. view o.now) old.entry)) }
{
    match (subject.part, subject.place.number, old) {
        (Part::Whole, 0, Some(value)) if value.is_table() => array_of(alloc, value.clone()?),
        _ => plain_part(alloc, subject),
    }
}

/// What the subject of a fault becomes, by what it is.
fn mended_part(alloc: Global, fault: &TableFault, old: Option<&Value>) -> Result<Value, AllocError>
    ensures { IfOk result (λ v. view v
        ≡ mended_part fault.now (option_map (λ o. view o.now) old.entry)) }
{
    match *fault {
        TableFault::Memory | TableFault::NotToml => Ok(Value::Table(Table::new(alloc))),
        TableFault::UnknownKey(subject) => without_unknown(alloc, subject, old),
        TableFault::TooMany(subject) => cut(alloc, subject, old),
        TableFault::WrongType(subject) => retyped_section(alloc, subject, old),
        TableFault::MissingKey(subject)
        | TableFault::OutOfRange(subject)
        | TableFault::BadName(subject)
        | TableFault::DoubleName(subject)
        | TableFault::UnknownName(subject)
        | TableFault::BadStep(subject)
        | TableFault::BadInitStep(subject) => plain_part(alloc, subject),
    }
}

fn fault_path(alloc: Global, fault: &TableFault) -> Result<Vec<PathStep>, AllocError>
    ensures { IfOk result (λ path. path.items ≡ fault_path fault.now) }
{
    match fault.parts().1 {
        Some(subject) => subject_path(alloc, subject),
        None => Ok(Vec::new(alloc)),
    }
}

/// The tree with the greatest profile.
fn with_greatest_profile(alloc: Global, tree: &Value) -> Result<Value, AllocError>
    ensures { IfOk result (λ v. view v
        ≡ put_member (key_word Profile) (plain_value 0 Profile) (view tree.now)) }
{
    let profile = plain_value(alloc, 0, Key::Profile)?;
    changed(alloc, tree, &[PathStep::Key(Key::Profile)], profile)
}

/// A tree with more processes than one of profile 1 may have is one of the greatest profile.
fn widened(alloc: Global, fault: &TableFault, tree: Value) -> Result<Value, AllocError>
    ensures { IfOk result (λ v. view v ≡ widened fault.now (view tree)) }
{
    if let TableFault::TooMany(subject) = *fault
        && subject.place.section == Section::Process
        && subject.part == Part::Whole
    {
        let wide = with_greatest_profile(alloc, &tree);
        drop(tree);
        return wide;
    }
    Ok(tree)
}

/// The tree in which the fault is mended.
pub fn mended(alloc: Global, fault: &TableFault, tree: &Value) -> Result<Value, AllocError>
    ensures { IfOk result (λ v. view v ≡ mended fault.now (view tree.now)) }
{
    let path = fault_path(alloc, fault)?;
    let part = mended_part(alloc, fault, found(tree, &path))?;
    let tree = changed(alloc, tree, &path, part)?;
    widened(alloc, fault, tree)
}
