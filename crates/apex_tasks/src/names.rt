//! The names that words list.
ghost use Rattle.std.specs.Prelude.{◌≡◌, IfOk, option_map};
ghost use Rattle.apex_tasks.specs.Names.{names_in, names_of};
ghost use Rattle.apex_tasks.specs.Questions.{name_of};

use apex_history::cut;
use apex_types::Name;
use std::alloc::{AllocError, Global};

/// The name that a word is.
fn name_of(word: &[u8]) -> Option<Name>
    ensures { result ≡ name_of word.now }
{
    Name::from_bytes(word)
}

/// The names that a text lists, with commas between them. None if one is no name.
fn read_names(alloc: Global, text: &[u8]) -> Result<Option<Vec<Name>>, AllocError>
    ensures { IfOk result
        (λ found. option_map (λ list. list.items) found ≡ names_of text.now) }
{
    let mut names = Vec::new(alloc);
    let mut left = text;
    loop {
        let (word, behind) = cut(left, b',');
        let Some(name) = name_of(word) else {
            return Ok(None);
        };
        names.push(name)?;
        let Some(rest) = behind else {
            return Ok(Some(names));
        };
        left = rest;
    }
}

/// The names that a text lists, if there is a text. None if one is no name.
pub fn names_given(
    alloc: Global,
    text: Option<&str>,
) -> Result<Option<Option<Vec<Name>>>, AllocError>
    ensures { IfOk result (λ found. option_map (option_map (λ list. list.items)) found
        ≡ names_in (option_map (λ given. given.now) text.entry)) }
{
    match text {
        Some(text) => match read_names(alloc, text.as_bytes())? {
            Some(names) => Ok(Some(Some(names))),
            None => Ok(None),
        },
        None => Ok(Some(None)),
    }
}
