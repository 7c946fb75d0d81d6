//! The texts of a folder: rows of services, tables, and the files beside each table.
use crate::faults::CaseFault;
use std::alloc::{AllocError, AllocGlobal, Global};
use std::fs;
use std::fs::{DirEntry, Files};
use std::mem::drop;

/// A file of the folder that has rows, is a table, or is beside a table.
#[derive(Drop)]
pub struct CaseFile {
    name: String,
    text: String,
}

impl CaseFile {
    /// Its name without the ending, and the ending.
    pub(crate) fn split_name(&self) -> (&str, &str) {
        self.name.as_str().rsplit_once('.').unwrap_or(("", ""))
    }

    pub(crate) fn text(&self) -> &str {
        self.text.as_str()
    }
}

/// The text of the file with this name, if there is one.
pub(crate) fn text_in<'a>(files: &'a [CaseFile], example: &str, ending: &str) -> Option<&'a str> {
    for file in files {
        let (name, end) = file.split_name();
        if name == example && end == ending {
            return Some(file.text());
        }
    }
    None
}

/// Whether a file of this name has one of the four endings.
fn is_case_file(name: &str) -> bool {
    let is_of_table = name.ends_with(".cases") || name.ends_with(".readings");
    is_of_table || name.ends_with(".toml") || name.ends_with(".rows")
}

/// The number of the files that have a lesser name.
fn place_of(files: &[CaseFile], name: &str) -> usize {
    let mut place: usize = 0;
    for file in files {
        if file.name.as_str() < name {
            place = place.saturating_add(1);
        }
    }
    place
}

/// Inserts a file, by its name.
fn insert(
    files: &mut Vec<CaseFile>,
    alloc: Global,
    name: &str,
    text: String,
) -> Result<(), AllocError> {
    let place = place_of(files.as_slice(), name).min(files.len());
    let name = String::from_str(alloc, name)?;
    files.insert(place, CaseFile { name, text })?;
    Ok(())
}

/// Inserts a file of the folder, if it is one with cases.
fn insert_entry<R: Files + AllocGlobal + Clone + Drop>(
    files: &mut Vec<CaseFile>,
    rt: &R,
    entry: &DirEntry<R, Global>,
) -> Result<(), CaseFault> {
    let name = entry.file_name();
    if is_case_file(name) {
        let text = fs::read_to_string(rt, entry.path())?;
        insert(files, rt.alloc(), name, text)?;
    }
    Ok(())
}

/// Inserts the files `NAME.rows` of a folder, its tables `NAME.toml`, and the files beside these,
/// `NAME.cases` and `NAME.readings`, in the order of their names. Other files do not count.
pub fn read_folder<R: Files + AllocGlobal + Clone + Drop>(
    files: &mut Vec<CaseFile>,
    rt: &R,
    folder: &str,
) -> Result<(), CaseFault> {
    for entry in fs::read_dir(rt, folder)? {
        let entry = entry?;
        let inserted = insert_entry(files, rt, &entry);
        drop(entry);
        inserted?;
    }
    Ok(())
}
