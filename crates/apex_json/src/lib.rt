//! The form of what is written, and the text of strings of JSON.
#![tactic(auto)]

mod forms;
mod laws;
mod strings;

pub use forms::{Form, pick};
pub use laws::strings_are_read_back;
pub use strings::{MOST_ESCAPE, add_json, put_json};
