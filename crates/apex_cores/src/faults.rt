//! Why a run came to nothing.
ghost use Rattle.std.specs.Prelude.{◌≡◌};

use std::alloc::AllocError;
use thiserror::Error;

/// The reason why a run came to nothing (this profile). No partition is left of it, and no thread.
#[derive(Clone, Copy, Debug, PartialEq, Eq, Error)]
pub enum RunFault {
    /// A growth was refused.
    #[error("out of memory")]
    Memory,
    /// A thread was refused.
    #[error("no thread")]
    NoThread,
}

impl From<AllocError> for RunFault {
    ghost use Rattle.apex_cores.specs.declared.faults.RunFault.TheVariants.{Memory};

    ghost from_gives = { λ _ fault. fault ≡ Memory };

    fn from(_refused: AllocError) -> RunFault {
        RunFault::Memory
    }
}
