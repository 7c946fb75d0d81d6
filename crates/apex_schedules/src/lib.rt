//! The texts of schedules: reading them as items, also with groups, and printing events as the
//! fewest items.
#![tactic(auto)]

mod groups;
mod laws;
mod pieces;
mod printing;
mod schedule;

pub use groups::{Place, ScheduleFault, read_grouped};
pub use laws::{
    a_text_without_groups_is_a_schedule, events_are_read_back, no_schedule_has_fewer_items,
};
pub use printing::print_schedule;
pub use schedule::{Item, are_cores_below, read_positive, read_schedule};
