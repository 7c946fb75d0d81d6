//! Makes a situation again from the words in which a search stores it, and the laws of canonical
//! forms and their words.
#![tactic(auto)]

mod copied;
mod laws;
mod objects;
mod premises;
mod records;
mod restored;
mod values;

pub use copied::restore_known;
pub use laws::{forms_stay_in_bounds, same_forms_have_the_same_words, words_are_exact};
pub use premises::{forms_are_ready, forms_reach, parts_are_kept, turns_are_few};
pub use restored::restore;
