//! What is asked to be shown: how a run is given, how it is shown, and the window of its entries.
#![tactic(auto)]

mod schedules;
mod showings;
mod windows;

pub use schedules::{BadSchedule, ItemsFault, ScheduleReason, read_items};
pub use showings::{Chart, Listing, Picture, RunSource, Showing, View};
pub use windows::{Bound, EmptyWindow, EntryRange, Window};
