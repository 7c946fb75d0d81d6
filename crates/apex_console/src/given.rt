//! The words that the operating system gives.
ghost use Rattle.std.specs.Prelude.{IfErr};
ghost use Rattle.apex_console.specs.Faults.{IsUsageOrMemory};

use crate::faults::CliFault;
use std::alloc::Alloc;
use std::env::Env;
use std::{env, io};

/// All words that the program is given, its name first. A word that is no text is ill-formed.
///
/// `Usage` for such a word, and `Memory` if memory is refused.
pub fn given_words<R: Env + Alloc>(rt: &R) -> Result<Vec<String<R::A>, R::A>, CliFault>
    ensures { IfErr result IsUsageOrMemory }
{
    match env::args(rt) {
        Ok(args) => Ok(args.collect::<Vec<String<R::A>, R::A>>(rt.alloc())?),
        Err(error) if error.kind() == io::ErrorKind::OutOfMemory => Err(CliFault::Memory),
        // A word is no text.
        Err(_) => Err(CliFault::Usage),
    }
}
