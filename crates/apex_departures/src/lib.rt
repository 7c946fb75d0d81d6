//! A history that departs from the machine's, explained: the line that was given, the line that the
//! machine expects, the column in which they differ, and the reason of the machine's entry.
#![tactic(auto)]

mod explaining;
mod lines;
mod pages;
mod putting;
mod shown;
mod whys;

pub use explaining::{explain, fault_in_memory};
pub use putting::plain_bytes_are_those_of_ascii;
pub use shown::{ShownLines, shown_lines};
pub use whys::why;
