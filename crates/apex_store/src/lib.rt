//! The store of a partition's processes: the trait [`Store`], which is said in the machine's own
//! words, and [`PlainStore`], which answers by scans.
#![tactic(auto)]

mod dues;
mod handovers;
mod laws;
mod objects;
mod opening;
mod orders;
mod owners;
mod periods;
mod plain_store;
mod scan;
mod store;
mod waiting;
mod waking;

pub use dues::due_after;
pub use handovers::{halt, hand_over};
pub use laws::{
    chosen_is_first, first_due_is_lowest, first_missed_is_lowest, first_waiter_is_first,
    most_urgent_runs, next_instant_is_least, next_release_is_least, next_waiter_is_next,
    one_process_runs, opens_with_distinct_stamps, running_is_chosen, stamps_stay_distinct,
    waits_in_one_queue,
};
pub use objects::{Object, serve_object};
pub use owners::{is_owner, is_waiting_owner};
pub use periods::release_after;
pub use plain_store::{PlainStore, stays_level};
pub use store::Store;
pub use waiting::wait_for;
pub use waking::{grant, grant_all, is_unfit};
