//! All faults of a table, each with its place in the text and what is wanted.
ghost use Rattle.std.specs.Prelude.{◌≡◌, map, IfOk};
ghost use Rattle.std.specs.List.{All};
ghost use Rattle.apex_faults.specs.Findings.{named_faults};
ghost use Rattle.apex_faults.specs.Locations.{IsLocationIn};
ghost use Rattle.apex_faults.specs.Terms.{Finding};
ghost use Rattle.apex_faults.specs.declared.findings.TheConstants.{LONGEST_LISTED};
ghost use Rattle.apex_faults.specs.declared.listing.TheConstants.{MOST_FAULTS};

use crate::explaining::explain;
use crate::listing::faults;
use crate::locations::{Location, locate, location_after};
use crate::mending::mended;
use crate::paths::{found, place_path};
use crate::shown::other_key;
use apex_table::read_table;
use apex_words::{Part, TableFault};
use std::alloc::{AllocError, Global};
use toml::Value;

/// The most bytes of a text whose faults are all named.
pub const LONGEST_LISTED: usize = 262_144;

/// Each limit is the number of this profile.
pub fn limits_of_the_profile()
    ensures most_faults { MOST_FAULTS ≡ 100 }
    ensures longest_listed { LONGEST_LISTED ≡ 262144 }
{}

/// A fault, where it stands in the text, and what is to be said of it.
#[derive(Drop)]
pub struct Finding {
    /// Its word, and what it is about.
    pub fault: TableFault,
    /// Where it begins in the text.
    pub location: Location,
    /// The text behind the fault's place: the name of the entry, the key or the step, what was given,
    /// and what is wanted.
    pub detail: String,
}

/// Where the fault of the text whose tree this is begins.
fn location_in(
    alloc: Global,
    text: &[u8],
    tree: &Value,
    fault: TableFault,
) -> Result<Location, AllocError>
    ensures { IfOk result (λ location. IsLocationIn text.now location) }
{
    let Some(subject) = fault.parts().1 else {
        return Ok(location_after(&[]));
    };
    let path = place_path(alloc, subject.place.section, subject.place.number)?;
    let other = match subject.part {
        Part::OtherKey(place) => other_key(found(tree, &path), place),
        _ => "",
    };
    Ok(locate(text, subject, other))
}

/// The fault of the text whose tree this is, with its place and its text.
fn finding_of(
    alloc: Global,
    text: &[u8],
    tree: &Value,
    fault: TableFault,
) -> Result<Finding, AllocError>
    ensures fault { IfOk result (λ f. f.fault ≡ fault) }
    ensures place { IfOk result (λ f. IsLocationIn text.now f.location) }
{
    let location = location_in(alloc, text, tree, fault)?;
    let detail = explain(alloc, tree, fault)?;
    Ok(Finding {
        fault,
        location,
        detail,
    })
}

/// The fault of a text that is no TOML, where the reading of TOML ends.
fn not_toml(
    alloc: Global,
    text: &[u8],
    error: &toml::de::Error,
    fault: TableFault,
) -> Result<Finding, AllocError>
    ensures fault { IfOk result (λ f. f.fault ≡ fault) }
    ensures place { IfOk result (λ f. IsLocationIn text.now f.location) }
{
    let front = match error.span() {
        Some(span) => text.get(..span.start),
        None => None,
    };
    let reason = error.message();
    Ok(Finding {
        fault,
        location: location_after(front.unwrap_or(&[])),
        detail: format!(in alloc; ": it is no TOML: {reason}")?,
    })
}

/// TOML's tree of a text, or the error of its reading.
type Document = Result<Value, toml::de::Error>;

/// The fault of the text of this document, with its place and its text.
fn finding_in(
    alloc: Global,
    text: &[u8],
    document: &Document,
    fault: TableFault,
) -> Result<Finding, AllocError>
    ensures fault { IfOk result (λ f. f.fault ≡ fault) }
    ensures place { IfOk result (λ f. IsLocationIn text.now f.location) }
{
    match document {
        Ok(tree) => finding_of(alloc, text, tree, fault),
        Err(error) => not_toml(alloc, text, error, fault),
    }
}

/// Whether the places of the faults after this one are those of the tree in which it is mended: a
/// section that is one table is an array of it from now on, and an unknown key is gone.
fn moves_places(fault: &TableFault) -> bool {
    match fault {
        TableFault::WrongType(subject) => subject.part == Part::Whole,
        TableFault::UnknownKey(_) => true,
        _ => false,
    }
}

/// Makes the document the one for the faults after this one.
fn move_past(alloc: Global, fault: &TableFault, document: &mut Document) -> Result<(), AllocError> {
    if let Ok(tree) = document
        && moves_places(fault)
    {
        *tree = mended(alloc, fault, tree)?;
    }
    Ok(())
}

/// The faults of the text of this document, each with its place and its text. The document becomes
/// the one for the faults after them.
fn findings_in(
    alloc: Global,
    text: &[u8],
    faults: &[TableFault],
    document: &mut Document,
) -> Result<Vec<Finding>, AllocError>
    ensures faults { IfOk result (λ v. map (λ (f : Finding). f.fault) v.items ≡ faults.now) }
    ensures places { IfOk result (λ v. All (λ (f : Finding). IsLocationIn text.now f.location)
        v.items) }
{
    let mut named = Vec::new(alloc);
    for fault in faults {
        named.push(finding_in(alloc, text, document, *fault)?)?;
        move_past(alloc, fault, document)?;
    }
    Ok(named)
}

/// The faults that are named for the text.
fn named_faults(alloc: Global, text: &[u8]) -> Result<Vec<TableFault>, AllocError>
    ensures { IfOk result (λ v. v.items ≡ named_faults text.now) }
{
    if text.len() <= LONGEST_LISTED {
        return faults(alloc, text);
    }
    let mut first = Vec::new(alloc);
    match read_table(alloc, text) {
        Ok(_) => {}
        Err(TableFault::Memory) => return Err(AllocError),
        Err(fault) => first.push(fault)?,
    }
    Ok(first)
}

/// The faults of the text, in the order in which the reader comes to them, each with its place in
/// the text and what is to be said of it; none if the reader takes the text. Of a text of more than
/// [`LONGEST_LISTED`] bytes the first fault alone is named. Fails only for want of memory.
pub fn findings_of(alloc: Global, text: &[u8]) -> Result<Vec<Finding>, AllocError>
    ensures faults { IfOk result (λ v. map (λ (f : Finding). f.fault) v.items
        ≡ named_faults text.now) }
    ensures places { IfOk result (λ v. All (λ (f : Finding). IsLocationIn text.now f.location)
        v.items) }
{
    let faults = named_faults(alloc, text)?;
    let mut document = match toml::table_from_slice(alloc, text) {
        Ok(members) => Ok(Value::Table(members)),
        Err(error) if error.is_memory() => return Err(AllocError),
        Err(error) => Err(error),
    };
    let findings = findings_in(alloc, text, &faults, &mut document);
    drop(document);
    findings
}
