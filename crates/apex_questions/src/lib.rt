//! What a search is asked for: facts of an entry, with their words, or the greatest response of a
//! process.
#![tactic(auto)]

mod facts;
mod searches;
mod words;

pub use facts::{Fact, Facts, MOST_FACTS};
pub use searches::{Search, Sought};
pub use words::{fact_of, word_of};
