//! The way back to the first state.
ghost use Rattle.std.specs.Prelude.{◌≡◌, ℕ, List, IfOk};
ghost use Rattle.apex_explore.specs.Levels.{IsTrail};

use apex_states::Origin;
use std::alloc::{AllocError, Global};

/// The choices that lead from the first state to the one at `place`, which is `depth` choices away
/// from it.
pub(crate) fn path_to(
    alloc: Global,
    origins: &[Origin],
    place: usize,
    depth: usize,
) -> Result<Vec<u32>, AllocError>
    requires { (path : List ℕ) × IsTrail origins.now depth place path }
    ensures { IfOk result (λ path. IsTrail origins.now depth place path.items) }
{
    let mut path = Vec::new(alloc);
    let mut at = place;
    for _ in 0..depth {
        let origin = origins[at];
        path.push(origin.choice)?;
        at = origin.parent as usize;
    }
    path.reverse();
    Ok(path)
}
