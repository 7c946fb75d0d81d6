//! The history and the status listing of one avionics partition as JSON: an object for each entry
//! and for each row of the listing, a line each.
#![tactic(auto)]

mod answers;
mod elements;
mod entries;
mod histories;
mod laws;
mod lines;
mod listing;
mod messages;
mod rows;
mod texts;
mod waits;
mod writing;

pub use answers::{MOST_FAULT, put_count, put_fault, put_front, put_next};
pub use entries::put_entry_object;
pub use histories::print_history_objects;
pub use laws::texts_are_read_back;
pub use lines::{MOST_OBJECT, OBJECTS_ROOM, ObjectLines};
pub use listing::print_listing_objects;
pub use writing::{hand_on, make_room};
