//! The partition's kernel: what each event does, over any store.
#![tactic(auto)]

mod deeds;
mod events;
mod kernels;
mod laws;
mod situations;
mod ticks;
mod works;

pub use deeds::Deed;
pub use events::{event_of, events_in};
pub use kernels::Kernel;
pub use laws::{
    first_waiter_is_first, most_urgent_runs, mutexes_are_owned_in_order, nobody_waits_in_vain,
    values_and_dues_are_in_range,
};
pub use situations::Situation;
pub use works::Works;
