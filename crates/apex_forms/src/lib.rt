//! The canonical form of a situation and of what a pace counts, and the words in which a search
//! stores it.
#![tactic(auto)]

mod canonical;
mod codes;
mod forms;
mod objects;
mod parts;
mod records;
mod stored;

pub use canonical::canonical_form;
pub use objects::{BLACKBOARD_WORDS, BUFFER_WORDS, EVENT_FLAG_WORDS, MUTEX_WORDS, SEMAPHORE_WORDS};
pub use records::RECORD_WORDS;
pub use stored::{CORE_WORDS, HEAD_WORDS, put_words, word_count};
