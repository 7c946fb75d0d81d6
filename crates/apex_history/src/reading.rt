//! All bytes of a reader.
ghost use Rattle.std.specs.Prelude.{◌≡◌, IfOk, IfSome, OnOk, OnErr};
ghost use Rattle.std.specs.Io.KnownBytes.{IsAtEnd};
ghost use Rattle.apex_history.specs.Counted.{inner_of, failures_of, ConsumesSome, CountsReadFault};
ghost use Rattle.apex_history.specs.declared.reading.ReadFault.TheVariants.{Memory};

use crate::counting::Counted;
use crate::sources::Source;
use std::alloc::{AllocError, Global};
use std::io::Read;
use thiserror::Error;

/// The reason why the bytes of a reader were not read to their end.
#[derive(Clone, Copy, Debug, PartialEq, Eq, Error)]
pub enum ReadFault {
    /// A growth was refused.
    #[error("out of memory")]
    Memory,
    /// A read failed.
    #[error("read failed")]
    Read,
}

impl From<AllocError> for ReadFault {
    ghost from_gives = { λ _ e. e ≡ Memory };

    fn from(_e: AllocError) -> ReadFault {
        ReadFault::Memory
    }
}

/// Reads to the end, and gives all the bytes. `Read` at the first read that fails, and `Memory` if
/// a growth was refused; it stops there.
pub fn read_all<R: Source>(alloc: Global, reader: &mut Counted<R>) -> Result<Vec<u8>, ReadFault>
    ensures bytes { IfOk result
        (λ all. IfSome (R.remaining (inner_of reader.old)) (λ xs. all.items ≡ xs)) }
    ensures end { OnOk result (IsAtEnd (R.remaining (inner_of reader.new))) }
    ensures beginning { OnErr result
        (ConsumesSome (R.remaining (inner_of reader.old)) (R.remaining (inner_of reader.new))) }
    ensures counted { CountsReadFault result (failures_of reader.old) (failures_of reader.new) }
{
    let mut all = Vec::new(alloc);
    let mut chunk = [0; 4096];
    loop {
        let Ok(count) = reader.read(&mut chunk) else {
            return Err(ReadFault::Read);
        };
        if count == 0 {
            return Ok(all);
        }
        all.extend_from_slice(&chunk[..count])?;
    }
}
