//! What was meant by an unknown word: the nearest key, service or name, or all that there are.
use crate::outside::{LeftOut, left_out};
use crate::plain::keys_of;
use crate::shown::{MOST_SHOWN, put_text};
use crate::suggestions::nearest;
use crate::wordings::Wording;
use apex_calls::CATALOGUE;
use apex_words::Section;
use std::alloc::{AllocError, Global};

/// Puts the words with commas between them.
fn put_list(text: &mut Wording, words: &[&str]) {
    let mut front = "";
    for word in words {
        text.put(front);
        text.put(word);
        if !word.is_empty() {
            front = ", ";
        }
    }
}

/// Puts the question whether this word was meant.
fn put_question(text: &mut Wording, meant: &str) {
    text.put_between("; did you mean ", meant, "?");
}

/// The nearest one of these words, if one is near; none is near to a word that is too long to be
/// shown.
fn near<'w>(alloc: Global, word: &str, words: &[&'w str]) -> Result<Option<&'w str>, AllocError> {
    if word.len() > MOST_SHOWN {
        return Ok(None);
    }
    nearest(alloc, word, words)
}

/// The word that is nearest to this one, or else to this one in capitals, or else in small letters.
fn near_in_any_case<'w>(
    alloc: Global,
    word: &str,
    words: &[&'w str],
) -> Result<Option<&'w str>, AllocError> {
    if let Some(meant) = near(alloc, word, words)? {
        return Ok(Some(meant));
    }
    let capitals = word.to_ascii_uppercase(alloc)?;
    if let Some(meant) = near(alloc, capitals.as_str(), words)? {
        return Ok(Some(meant));
    }
    let small = word.to_ascii_lowercase(alloc)?;
    near(alloc, small.as_str(), words)
}

/// Puts the offer of the nearest one of these words, or of all of them if none is near.
pub fn put_offer(text: &mut Wording, word: &str, words: &[&str]) {
    if words.is_empty() {
        text.put("; there is none");
        return;
    }
    match near_in_any_case(text.alloc(), word, words) {
        Ok(Some(meant)) => put_question(text, meant),
        Ok(None) => {
            text.put("; there is ");
            put_list(text, words);
        }
        Err(_) => text.refuse(),
    }
}

/// The words of all keys of the section.
fn key_words(alloc: Global, section: Section) -> Result<Vec<&'static str>, AllocError> {
    keys_of(section).iter().map(|key| key.word()).collect(alloc)
}

/// Puts what a key that the section does not have may be meant as.
pub fn put_other_key(text: &mut Wording, section: Section, name: &str) {
    match section {
        Section::Top => text.put("the table has no such key at its top"),
        _ => text.put_between("the section ", section.word(), " has no such key"),
    }
    match key_words(text.alloc(), section) {
        Ok(words) => put_offer(text, name, &words),
        Err(_) => text.refuse(),
    }
}

/// The words of all services.
fn service_words(alloc: Global) -> Result<Vec<&'static str>, AllocError> {
    CATALOGUE.iter().map(|row| row.word).collect(alloc)
}

/// The service that is nearest to the word, if one is near.
fn near_service(alloc: Global, word: &str) -> Result<Option<&'static str>, AllocError> {
    let words = service_words(alloc)?;
    near_in_any_case(alloc, word, &words)
}

/// Puts that no service has this word, and which one is near to it.
fn put_unknown_service(text: &mut Wording, word: &str) {
    put_text(text, word);
    text.put(" is no service");
    match near_service(text.alloc(), word) {
        Ok(Some(meant)) => put_question(text, meant),
        Ok(None) => {}
        Err(_) => text.refuse(),
    }
}

/// Puts what this profile has in place of a service of ARINC 653.
fn put_left_out(text: &mut Wording, row: &LeftOut) {
    text.put_between(
        "this profile leaves ",
        row.word,
        " of ARINC 653 out, and has ",
    );
    text.put(row.instead.unwrap_or("nothing"));
    text.put(" in its place");
}

/// Puts why no service has this word.
pub fn put_no_service(text: &mut Wording, word: &str) {
    match left_out(word) {
        Some(row) => put_left_out(text, row),
        None if word.is_empty() => {
            text.put("a step begins with a service, without a space before it");
        }
        None => put_unknown_service(text, word),
    }
}
