//! All faults of a table.
ghost use Rattle.std.specs.Prelude.{◌≡◌, ◌≤◌, ◌++◌, length, Some, Ok, Err, false, true, string_bytes, IfOk, IfSome, IsNone};
ghost use Rattle.toml_parser.specs.Strings.{recursion_limit};
ghost use Rattle.toml.specs.Data.{table, members_depth, members_have_valid_dates};
ghost use Rattle.toml.specs.Parse.{parse_document};
ghost use Rattle.toml.specs.View.{view, table_view};
ghost use Rattle.apex_table.specs.Reading.{document, table_of};
ghost use Rattle.apex_words.specs.declared.fault.TableFault.TheVariants.{NotToml};
ghost use Rattle.apex_faults.specs.Depth.{is_printable};
ghost use Rattle.apex_faults.specs.Faults.{fault_in, faults, fault_of, faults_of, BeginsWith};
ghost use Rattle.apex_faults.specs.declared.listing.TheConstants.{MOST_FAULTS};

use crate::depth::members_fit;
use crate::mending::mended;
use apex_table::read_table;
use apex_words::TableFault;
use std::alloc::{AllocError, Global};
use toml::{Table, Value};

/// The most faults that are listed for one text.
pub const MOST_FAULTS: usize = 100;

/// The most that arrays and tables nest in a table that is read back from its text.
const DEEPEST: usize = 80;

/// The fault that the reader gives for the text, or none if it takes it.
fn fault_in(alloc: Global, text: &[u8]) -> Result<Option<TableFault>, AllocError>
    ensures { IfOk result (λ fault. fault ≡ fault_in (table_of text.now)) }
{
    match read_table(alloc, text) {
        Ok(_) => Ok(None),
        Err(TableFault::Memory) => Err(AllocError),
        Err(fault) => Ok(Some(fault)),
    }
}

/// The text of the table, if the table is read back from it.
fn text_of(alloc: Global, members: &Table) -> Result<Option<String>, AllocError>
    requires { members_depth (table_view members.now) ≤ recursion_limit }
    ensures none { IfOk result (λ o. IsNone o
        → members_have_valid_dates (table_view members.now) ≡ false) }
    ensures some { IfOk result (λ o. IfSome o (λ text.
        (members_have_valid_dates (table_view members.now) ≡ true)
        × (parse_document (string_bytes text) ≡ Some (table_view members.now)))) }
{
    match toml::table_to_string(alloc, members) {
        Ok(text) => Ok(Some(text)),
        Err(toml::ser::Error::DateInvalid) => Ok(None),
        Err(toml::ser::Error::OutOfMemory) => Err(AllocError),
    }
}

/// The reader's fault of the table, if the table is read back from its text.
#[tactic(auto, using(crate::proofs::Mendings::printed_as))]
fn read_table_again(
    alloc: Global,
    members: &Table,
) -> Result<Option<Option<TableFault>>, AllocError>
    ensures none { IfOk result (λ o. IsNone o
        → is_printable (table (table_view members.now)) ≡ false) }
    ensures valid { IfOk result (λ o. IfSome o (λ _.
        is_printable (table (table_view members.now)) ≡ true)) }
    ensures some { IfOk result (λ o. IfSome o (λ fault.
        fault ≡ fault_of (table (table_view members.now)))) }
{
    if !members_fit(members, DEEPEST) {
        return Ok(None);
    }
    match text_of(alloc, members)? {
        Some(text) => Ok(Some(fault_in(alloc, text.as_bytes())?)),
        None => Ok(None),
    }
}

/// The reader's fault of the tree, if the tree is read back from its text.
fn read_again(alloc: Global, tree: &Value) -> Result<Option<Option<TableFault>>, AllocError>
    ensures none { IfOk result (λ o. IsNone o → is_printable (view tree.now) ≡ false) }
    ensures valid { IfOk result (λ o. IfSome o (λ _. is_printable (view tree.now) ≡ true)) }
    ensures some { IfOk result (λ o. IfSome o (λ fault. fault ≡ fault_of (view tree.now))) }
{
    match tree {
        Value::Table(members) => read_table_again(alloc, members),
        _ => Ok(None),
    }
}

/// Adds at most `most` first faults of the tree, of which the reader finds `first`.
#[tactic(auto, using(crate::proofs::Mendings::none_wanted, crate::proofs::Mendings::none_found, crate::proofs::Mendings::last_found))]
fn add_faults(
    alloc: Global,
    found: &mut Vec<TableFault>,
    most: usize,
    tree: &Value,
    first: Option<TableFault>,
) -> Result<(), AllocError>
    requires { first ≡ fault_of (view tree.now) }
    ensures { IfOk result (λ _. found.new.items
        ≡ found.old.items ++ faults most (view tree.now)) }
{
    if most == 0 {
        return Ok(());
    }
    let Some(fault) = first else {
        return Ok(());
    };
    found.push(fault)?;
    let mended = mended(alloc, &fault, tree)?;
    match read_again(alloc, &mended)? {
        Some(next) => {
            add_faults(alloc, found, most - 1, &mended, next)?;
            Ok(())
        }
        None => Ok(()),
    }
}

/// TOML's tree of the text, or none if the text is no TOML.
fn document(alloc: Global, text: &[u8]) -> Result<Option<Table>, AllocError>
    ensures some { IfOk result (λ o. IfSome o (λ t. document text.now ≡ Ok (table_view t))) }
    ensures none { IfOk result (λ o. IsNone o → document text.now ≡ Err NotToml) }
{
    match toml::table_from_slice(alloc, text) {
        Ok(tree) => Ok(Some(tree)),
        Err(e) => {
            if e.is_memory() {
                Err(AllocError)
            } else {
                Ok(None)
            }
        }
    }
}

/// All faults of the text whose tree this is.
fn faults_of_tree(alloc: Global, text: &[u8], members: Table) -> Result<Vec<TableFault>, AllocError>
    requires { document text.now ≡ Ok (table_view members) }
    ensures { IfOk result (λ v. v.items ≡ faults_of text.now) }
{
    let first = fault_in(alloc, text)?;
    let tree = Value::Table(members);
    let mut found = Vec::new(alloc);
    add_faults(alloc, &mut found, MOST_FAULTS, &tree, first)?;
    Ok(found)
}

/// All faults of the text, in the order in which the reader comes to them: none if it takes the
/// text, and else its first fault, and then that of the tree in which the ones before are mended,
/// and so on. At most [`MOST_FAULTS`] are listed, and none behind a mended tree that TOML cannot
/// print, as one with a date that does not exist. Fails only for want of memory.
#[tactic(auto, using(crate::proofs::Mendings::of_no_tree, crate::proofs::Mendings::begins, crate::proofs::Mendings::few))]
pub fn faults(alloc: Global, text: &[u8]) -> Result<Vec<TableFault>, AllocError>
    ensures all { IfOk result (λ v. v.items ≡ faults_of text.now) }
    ensures first { IfOk result (λ v. BeginsWith (table_of text.now) v.items) }
    ensures few { IfOk result (λ v. length v.items ≤ MOST_FAULTS) }
{
    if let Some(members) = document(alloc, text)? {
        return faults_of_tree(alloc, text, members);
    }
    let mut found = Vec::new(alloc);
    found.push(TableFault::NotToml)?;
    Ok(found)
}
