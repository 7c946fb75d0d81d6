//! The names that a table gives, and the processes that texts name.
#![tactic(auto)]

mod names;
mod processes;

pub use names::{
    blackboard_name, buffer_name, event_flag_name, mutex_name, object_name, process_name,
    semaphore_name,
};
pub use processes::process_of;
