//! Texts in buffers of a fixed room: bytes, words and numbers are put behind what is there. It takes no
//! memory.
#![tactic(auto)]

mod digits;
mod lines;
mod strings;

pub use digits::hex_digit;
pub use lines::{put, put_bytes, put_long_number, put_number};
pub use strings::{push_long_number, push_number};
