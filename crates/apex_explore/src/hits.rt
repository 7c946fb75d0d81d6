//! Whether a path hits.
ghost use Rattle.std.specs.Prelude.{◌≡◌, ◌↔◌, IfOk, IsTrue, length};
ghost use Rattle.apex_explore.specs.Paths.{IsHit};
ghost use Rattle.apex_explore.specs.Systems.{step_within};

use crate::systems::{System, Taken};
use std::alloc::{AllocError, Global};

/// The path hits from the state in `state` on. `next` has room for one more state.
fn ends_in_hit<S: System>(
    system: &S,
    workspace: &mut S::Workspace,
    state: &mut [u64],
    next: &mut [u64],
    path: &[u32],
) -> bool
    requires known { S.is_state system.now state.old }
    requires state { length state.old ≡ S.word_count system.now }
    requires next { length next.old ≡ S.word_count system.now }
    requires workspace { S.is_workspace system.now workspace.old }
    ensures { let step = step_within (S.choice_count system.now) (S.step system.now) in
        IsTrue result ↔ IsHit step state.old path.now }
{
    for place in 0..path.len() {
        let choice = path[place];
        if choice >= system.choices() {
            return false;
        }
        system.enter(workspace, state);
        match system.next(workspace, state, choice, next) {
            Taken::Refused => return false,
            Taken::Hit => return place + 1 == path.len(),
            Taken::Next => state.copy_from_slice(next),
        }
    }
    false
}

/// The path hits from the system's first state: its last choice hits in the state to which the
/// choices before it lead. Fails only for want of memory.
pub fn is_hit<S: System>(alloc: Global, system: &S, path: &[u32]) -> Result<bool, AllocError>
    ensures { let step = step_within (S.choice_count system.now) (S.step system.now) in
        IfOk result (λ answer. IsTrue answer ↔ IsHit step (S.start system.now) path.now) }
{
    let width = system.width();
    let mut workspace = system.workspace(alloc)?;
    let mut state = vec![in alloc; 0; width]?;
    let mut next = vec![in alloc; 0; width]?;
    let state = state.as_mut_slice();
    system.first(state);
    Ok(ends_in_hit(system, &mut workspace, state, next.as_mut_slice(), path))
}
