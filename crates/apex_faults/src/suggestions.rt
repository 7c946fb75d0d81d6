//! The word that was meant, if one is near to the word that is given.
ghost use Rattle.std.specs.Prelude.{◌≡◌, length, map, option_map, IfOk};
ghost use Rattle.apex_faults.specs.Suggestions.{edits, near, nearer, nearest};

use std::alloc::{AllocError, Global};

/// The edits that lead from one word to the other: each inserts, removes or replaces a character.
fn edits(alloc: Global, word: &str, other: &str) -> Result<usize, AllocError>
    ensures { IfOk result (λ n. n ≡ edits word.now other.now) }
{
    strsim::levenshtein(alloc, word, other)
}

/// The nearer one of the nearest word so far and another word.
fn nearer<'w>(
    alloc: Global,
    word: &str,
    best: Option<&'w str>,
    other: &'w str,
) -> Result<Option<&'w str>, AllocError>
    ensures { IfOk result (λ o. option_map (λ w. w.now) o
        ≡ nearer word.now (option_map (λ w. w.now) best.entry) other.now) }
{
    let count = edits(alloc, word, other)?;
    match best {
        Some(best) if count >= edits(alloc, word, best)? => Ok(Some(best)),
        None if count > word.len() / 2 => Ok(None),
        _ => Ok(Some(other)),
    }
}

/// The nearest one of these words, by the edits that lead to it from the given word; none if each
/// one takes more edits than half as many as the given word has bytes. Fails only for want of
/// memory.
pub fn nearest<'w>(
    alloc: Global,
    word: &str,
    others: &[&'w str],
) -> Result<Option<&'w str>, AllocError>
    ensures { IfOk result (λ o. option_map (λ w. w.now) o
        ≡ nearest word.now (map (λ w. w.now) others.now)) }
{
    let mut best = None;
    for other in others {
        best = nearer(alloc, word, best, other)?;
    }
    Ok(best)
}
