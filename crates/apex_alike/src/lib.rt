//! Situations that are alike, and machines that are: they differ in the names of stamps, in a shift
//! of time and in what no longer matters, and every event keeps them so. Each law is the contract of
//! a function that changes nothing.
#![tactic(auto)]

mod closed;
mod forms;
mod steps;

pub use closed::{
    closed_runs_come_to_all, closed_search_finds_misses, closed_search_finds_standstills,
    closed_search_sees_all, closed_situations_see_all, single_ticks_see_all,
};
pub use forms::{
    alike_rosters_have_one_form, canonical_forms_are_alike, canonical_forms_decide,
    canonical_rosters_can_be_served,
};
pub use steps::{alike_choose_alike, alike_steps_stay_alike, situations_step_alike};
