//! The profiles of a partition.
ghost use Rattle.std.specs.Prelude.{◌≡◌, ◌≤◌};
ghost use Rattle.apex_types.specs.declared.limits.TheConstants.{MOST_OWNED, MOST_PROCESSES};
ghost use Rattle.apex_machine.specs.table.Profiles.{owned_of, processes_of, profile_of};

use apex_types::{MOST_OWNED, MOST_OWNED_IN_ONE, MOST_PROCESSES, MOST_PROCESSES_IN_ONE};

/// The limits that a table may reach: those of profile 1, or the larger ones of profile 2 (this
/// profile).
#[derive(Clone, Copy, PartialEq, Eq)]
pub enum Profile {
    /// At most 32 processes, and at most 1 mutex that a process owns at once.
    One,
    /// At most 64 processes, and at most 4 mutexes that a process owns at once.
    Two,
}

impl Profile {
    /// The profile of this number: One of 1, and Two of any other. A table's number is 1 or 2.
    pub fn of(number: u32) -> Profile
        ensures { result ≡ profile_of number }
    {
        if number == 1 {
            Profile::One
        } else {
            Profile::Two
        }
    }

    /// The most processes that a table may have.
    pub fn processes(self) -> usize
        ensures value { result ≡ processes_of self }
        ensures range { result ≤ MOST_PROCESSES }
    {
        match self {
            Profile::One => MOST_PROCESSES_IN_ONE,
            Profile::Two => MOST_PROCESSES,
        }
    }

    /// The most mutexes that a process may own at once.
    pub fn owned(self) -> usize
        ensures value { result ≡ owned_of self }
        ensures range { (1 ≤ result) × (result ≤ MOST_OWNED) }
    {
        match self {
            Profile::One => MOST_OWNED_IN_ONE,
            Profile::Two => MOST_OWNED,
        }
    }
}
