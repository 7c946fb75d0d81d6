//! The ends of a search, and the faults with which it ends.
ghost use Rattle.std.specs.Prelude.{◌≡◌};
ghost use Rattle.apex_console.specs.Faults.{fault_of_read};
ghost use Rattle.apex_console.specs.declared.CliFault.TheVariants.{Memory};
ghost use Rattle.apex_inquiries.specs.declared.endings.SearchFault.TheVariants.{Common};

use apex_console::CliFault;
use apex_history::ReadFault;
use apex_types::Name;
use std::alloc::AllocError;

/// The end of a search that meets no fault.
#[derive(Clone, Copy, PartialEq, Eq)]
pub enum SearchEnding {
    /// A schedule was found.
    Found,
    /// No schedule leads to what is looked for.
    Never,
}

/// The reason why a search has no answer.
#[derive(Clone, Copy)]
pub enum SearchFault {
    /// A fault that the program `apex` has too.
    Common(CliFault),
    /// The table has no process of this name or number.
    NoProcess(Name),
    /// The search has room for this many states, and reached more.
    StatesFull(u32),
}

impl From<CliFault> for SearchFault {
    ghost from_gives = { λ error fault. fault ≡ Common error };

    fn from(error: CliFault) -> SearchFault {
        SearchFault::Common(error)
    }
}

impl From<AllocError> for SearchFault {
    ghost from_gives = { λ _ fault. fault ≡ Common Memory };

    fn from(_error: AllocError) -> SearchFault {
        SearchFault::Common(CliFault::Memory)
    }
}

impl From<ReadFault> for SearchFault {
    ghost from_gives = { λ error fault. fault ≡ Common (fault_of_read error) };

    fn from(error: ReadFault) -> SearchFault {
        SearchFault::Common(CliFault::from(error))
    }
}
