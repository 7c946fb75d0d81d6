//! What a search is asked for.

use crate::facts::Fact;
use apex_calls::Service;
use apex_pace::Pace;
use apex_types::Name;

/// What a search looks for.
#[derive(Clone, Copy)]
pub enum Sought {
    /// This fact, of the process of this name or number and of this service, or else of any.
    Fact(Fact, Option<Name>, Option<Service>),
    /// Each of all facts, of this process and of this service, or else of any.
    Facts(Option<Name>, Option<Service>),
    /// The greatest response of the process of this name or number.
    Response(Name),
}

/// What a search is asked for.
#[derive(Clone, Copy)]
pub struct Search {
    /// The fact, the facts or the response for which it looks.
    pub sought: Sought,
    /// How fast the cores are in the schedules among which it looks.
    pub pace: Pace,
    /// The number of states for which there is room.
    pub room: u32,
    /// The number of jobs that share the search. The answer does not depend on it.
    pub jobs: u32,
}
