//! The scales of pictures: the axis along which the columns of one stand, and the length of a tick of a
//! trace.
#![tactic(auto)]

mod axes;
mod ticks;

pub use axes::Axis;
pub use ticks::{LEAST_TICK, LONGEST_TICK, TickLength, limits_of_the_profile};
