//! How a table is linted.
ghost use Rattle.std.specs.Prelude.{◌≡◌, map, option_map, IfOk};
ghost use Rattle.apex_tasks.specs.Lints.{allowed_of, file_of, form_of, lint_asked, lint_said};
ghost use Rattle.apex_tasks.specs.Words.{lint_words_said};

use crate::words::LintWords;
use apex_json::Form;
use apex_warnings::allowed_in;
use std::alloc::{AllocError, Global};

/// How a table is linted.
#[derive(Drop)]
pub struct Lint<'a> {
    /// The form of the report.
    pub form: Form,
    /// The name under which the table is reported.
    pub file: &'a str,
    /// The words of the warnings that are left out.
    pub allowed: Vec<&'a str>,
}

fn form_of(json: bool) -> Form
    ensures { result ≡ form_of json }
{
    if json { Form::Json } else { Form::Text }
}

/// The name under which the table is reported: `-` if none is given.
fn file_of<'a>(name: Option<&'a str>) -> &'a str
    ensures { result.now ≡ file_of (option_map (λ text. text.now) name.entry) }
{
    match name {
        Some(name) => name,
        None => "-",
    }
}

/// The words of the warnings that are left out. None if one of them is no warning's word.
fn allowed_of<'a>(alloc: Global, allow: Option<&'a str>) -> Result<Option<Vec<&'a str>>, AllocError>
    ensures { IfOk result (λ o. option_map (λ v. map (λ w. w.now) v.items) o
        ≡ allowed_of (option_map (λ text. text.now) allow.entry)) }
{
    match allow {
        Some(text) => allowed_in(alloc, text),
        None => Ok(Some(Vec::new(alloc))),
    }
}

/// How a table is linted, by the options. None if a word is no warning's.
pub fn lint_asked<'a>(alloc: Global, words: LintWords<'a>) -> Result<Option<Lint<'a>>, AllocError>
    ensures { IfOk result (λ o. option_map lint_said o
        ≡ lint_asked (lint_words_said words.entry)) }
{
    match allowed_of(alloc, words.allow)? {
        Some(allowed) => Ok(Some(Lint {
            form: form_of(words.json),
            file: file_of(words.name),
            allowed,
        })),
        None => Ok(None),
    }
}
