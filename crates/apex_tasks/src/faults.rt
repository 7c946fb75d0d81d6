//! The reason why words ask for nothing, and the line that reports ill-formed words.
ghost use Rattle.std.specs.Prelude.{◌≡◌};
ghost use Rattle.apex_console.specs.declared.CliFault.TheVariants.{Memory};
ghost use Rattle.apex_tasks.specs.Faults.{fault_of_items};
ghost use Rattle.apex_tasks.specs.declared.faults.TaskFault.TheVariants.{Common};

use apex_console::CliFault;
use apex_showings::{BadSchedule, ItemsFault};
use std::alloc::AllocError;

/// The line that reports ill-formed words.
pub const USAGE: &str =
    "apex_lab: usage: apex_lab svg|trace|vcd|lines|status|report|schedule [--schedule S|--until T], apex_lab search [--for WORD|--worst P], apex_lab lint|step|check, apex_lab why --entry N\n";

/// The reason why words ask for nothing.
#[derive(Clone, Copy)]
pub enum TaskFault {
    /// Ill-formed words, or no memory.
    Common(CliFault),
    /// The text is no schedule.
    Schedule(BadSchedule),
}

impl From<CliFault> for TaskFault {
    ghost from_gives = { λ error fault. fault ≡ Common error };

    fn from(error: CliFault) -> TaskFault {
        TaskFault::Common(error)
    }
}

impl From<AllocError> for TaskFault {
    ghost from_gives = { λ _ fault. fault ≡ Common Memory };

    fn from(_error: AllocError) -> TaskFault {
        TaskFault::Common(CliFault::Memory)
    }
}

impl From<ItemsFault> for TaskFault {
    ghost from_gives = { λ error fault. fault ≡ fault_of_items error };

    fn from(error: ItemsFault) -> TaskFault {
        match error {
            ItemsFault::Memory => TaskFault::Common(CliFault::Memory),
            ItemsFault::Schedule(bad) => TaskFault::Schedule(bad),
        }
    }
}
