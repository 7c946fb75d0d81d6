//! The history of one avionics partition: the log of its entries, their printed lines, and the
//! readers and writers that count what failed.
#![tactic(auto)]

mod calls;
mod counting;
mod devices;
mod entry_parts;
mod events;
mod histories;
mod lent;
mod pages;
mod printing;
mod puts;
mod reading;
mod sources;
mod status;
mod status_rows;
mod steps;
mod stored;
mod texts;
mod words;

pub use counting::Counted;
pub use devices::FailAt;
pub use events::{LineFault, read_line};
pub use histories::Log;
pub use lent::Entries;
pub use pages::{Gathered, Page};
pub use printing::{print_entry, print_history};
pub use puts::{DIGIT_PAIRS, LINES_ROOM, Lines, put_call_of, put_line, put_message, put_reply_of};
pub use reading::{ReadFault, read_all};
pub use sources::{Sink, Source};
pub use status::{gather_row, print_row};
pub use status_rows::StatusRow;
pub use steps::NextSteps;
pub use texts::{code_word, deadline_word, mode_word, state_word, up_word};
pub use words::{Ticks, cut, read_core, read_ticks};
