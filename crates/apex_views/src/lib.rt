//! A run that is shown: that of a schedule, of a pace or of a history, as a picture or as a listing.
#![tactic(auto)]

mod departures;
mod faults;
mod listings;
mod parts;
mod plans;
mod rows;
mod runs;
mod showing;
mod sources;

pub use departures::Departure;
pub use faults::{ShowFault, excerpt_line, schedule_line, window_line};
pub use showing::{Shown, show_run};
pub use sources::{Given, GivenRun, given_by};
