//! The pace, which says what schedules are meant if a table comes without one: how many turns a core
//! has before time may pass, and how many ticks work takes.
#![tactic(auto)]

mod laws;
mod paces;
mod pacing;

pub use laws::{
    first_schedule_keeps_the_pace, no_turn_is_idle, tighter_paces_allow_no_more, time_goes_on,
};
pub use paces::{Pace, USUAL_TURNS, limits_of_the_profile};
pub use pacing::{AtPace, may_turn, next_tick, takes_turn};
