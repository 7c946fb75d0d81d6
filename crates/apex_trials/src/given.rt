//! The words that the operating system gives.

use apex_console::{CliFault, given_words};
use linked_list_allocator::LocalHeap;
use std::alloc::{Allocator, Global};
use std::env::{Env, FillError};
use std::process::Abort;

/// The number of words: their list takes more memory than the reading of one of them.
const WORDS: usize = 32;

/// The first of them.
const FIRST: [&[u8]; 6] = [b"apex", b"replay", b"--schedule", b"0*8 t1", b"", b"more"];

/// More than the words take, in steps of a heap.
const STEPS: usize = 1_024;

/// The bytes by which a heap's blocks grow.
const STEP: usize = 16;

/// The words that a program was given.
#[derive(Drop)]
struct Given<'a> {
    words: &'a [&'a [u8]],
}

impl<'a> Env for Given<'a> {
    fn arg(&self, i: usize, buf: &mut [u8]) -> Result<usize, FillError> {
        let Some(word) = self.words.get(i) else {
            return Err(FillError::NotPresent);
        };
        let Some(room) = buf.get_mut(..word.len()) else {
            return Err(FillError::TooLong);
        };
        room.copy_from_slice(word);
        Ok(word.len())
    }

    fn var(&self, _name: &str, _buf: &mut [u8]) -> Result<usize, FillError> {
        Err(FillError::NotPresent)
    }

    fn var_at(&self, _i: usize, _buf: &mut [u8]) -> Result<usize, FillError> {
        Err(FillError::NotPresent)
    }
}

/// Whether the words are these bytes.
fn are_words<A: Allocator>(given: &[String<A>], words: &[&[u8]]) -> bool {
    for (given, word) in given.iter().zip(words) {
        if given.as_bytes() != *word {
            return false;
        }
    }
    given.len() == words.len()
}

#[test]
fn a_word_that_is_no_text_is_usage(rt: HostRuntime) {
    let words: [&[u8]; 3] = [b"apex", b"replay", b"\xff"];
    let given = given_words(&(&Given { words: &words }, rt.alloc()));
    assert!(rt; given.err() == Some(CliFault::Usage));
}

/// Whether a heap of this many steps has memory for the words. If it has none, that is the fault.
fn has_memory<'a, R: Abort>(rt: &R, alloc: Global, words: &'a [&'a [u8]], steps: usize) -> bool {
    let heap = LocalHeap::new(alloc, steps.saturating_mul(STEP)).expect(rt, "memory for the heap");
    match given_words(&(&Given { words }, &heap)) {
        Ok(given) => {
            assert!(rt; are_words(given.as_slice(), words));
            true
        }
        Err(fault) => {
            assert_eq!(rt; fault, CliFault::Memory);
            false
        }
    }
}

/// A heap that is one step longer refuses a later request, up to the last one.
#[test]
fn all_words_are_passed_on_or_memory_is_wanted(rt: HostRuntime) {
    let mut words = [b"word".as_slice(); WORDS];
    words[..FIRST.len()].copy_from_slice(&FIRST);
    let mut is_refused = false;
    let mut is_given = false;
    for steps in 0..STEPS {
        if has_memory(&rt, rt.alloc(), &words, steps) {
            is_given = true;
        } else {
            is_refused = true;
        }
    }
    assert!(rt; is_refused && is_given);
}
