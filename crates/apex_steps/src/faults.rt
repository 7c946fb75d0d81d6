//! The faults with which a session ends.
ghost use Rattle.std.specs.Prelude.{◌≡◌};
ghost use Rattle.apex_steps.specs.Faults.{fault_of_leading};
ghost use Rattle.apex_steps.specs.declared.faults.StepFault.TheVariants.{Memory, Write};

use apex_check::LeadingFault;
use apex_words::TableFault;
use std::alloc::AllocError;
use std::io;
use thiserror::Error;

/// The reason why a session ended before its text did.
#[derive(Clone, Copy, Debug, PartialEq, Eq, Error)]
pub enum StepFault {
    /// A growth was refused.
    #[error("out of memory")]
    Memory,
    /// The text before the separator is no table. The fault is never `TableFault::Memory`.
    #[error("table refused: {0}")]
    Table(TableFault),
    /// No line is exactly `%%`.
    #[error("no separator")]
    NoSeparator,
    /// A read of the text failed.
    #[error("read failed")]
    Read,
    /// A write of an answer failed.
    #[error("write failed")]
    Write,
}

impl From<AllocError> for StepFault {
    ghost from_gives = { λ _ fault. fault ≡ Memory };

    fn from(_error: AllocError) -> StepFault {
        StepFault::Memory
    }
}

impl From<LeadingFault> for StepFault {
    ghost from_gives = { λ error fault. fault ≡ fault_of_leading error };

    fn from(error: LeadingFault) -> StepFault {
        match error {
            LeadingFault::Memory => StepFault::Memory,
            LeadingFault::Table(fault) => StepFault::Table(fault),
            LeadingFault::NoSeparator => StepFault::NoSeparator,
            LeadingFault::Read => StepFault::Read,
        }
    }
}

impl From<io::Error> for StepFault {
    ghost from_gives = { λ _ fault. fault ≡ Write };

    fn from(_error: io::Error) -> StepFault {
        StepFault::Write
    }
}
