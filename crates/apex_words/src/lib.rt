//! The words of a table's text: its sections and keys, its faults and what they are about, and the values
//! that the words of a step write.
#![tactic(auto)]

mod fault;
mod forms;
mod key;
mod subject;

pub use fault::{Place, Section, TableFault};
pub use forms::{
    entry_of, is_message, is_number, is_timeout, message_bytes, number, place_of_name,
    requested_mode, timeout, words,
};
pub use key::Key;
pub use subject::{Part, Subject};
