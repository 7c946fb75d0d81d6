//! What the choices in some states of a level do, found beside the search.
ghost use Rattle.std.specs.Prelude.{◌≡◌, ◌+◌, ◌^◌, ◌<◌, ◌≤◌, length, slice_get, Some, IfOk, IfSome};
ghost use Rattle.apex_explore.specs.Parts.{Expands, FindsMore, IsExpansion, IsFilling};
ghost use Rattle.apex_explore.specs.Systems.{step_within};
ghost use Rattle.apex_states.specs.Finds.{no_finds};
ghost use Rattle.apex_states.specs.Lists.{AllAre};

use crate::systems::{System, Taken};
use apex_states::{Batch, Expansion, Finds, Origin};
use std::alloc::{AllocError, Global};
use std::mem::drop;

/// Makes each choice in the state, which is the one at `place`, until one hits: the choice. Fails only
/// for want of memory.
fn expand_state<S: System>(
    alloc: Global,
    system: &S,
    workspace: &mut S::Workspace,
    state: &[u64],
    next: &mut [u64],
    place: usize,
    finds: &mut Finds,
) -> Result<Option<u32>, AllocError>
    requires fits { place < 2 ^ 32 }
    requires known { S.is_state system.now state.now }
    requires state { length state.now ≡ S.word_count system.now }
    requires next { length next.old ≡ S.word_count system.now }
    requires workspace { S.is_workspace system.now workspace.old }
    requires finds { IsFilling (S.word_count system.now) (S.is_state system.now) finds.old }
    ensures more { let step = step_within (S.choice_count system.now) (S.step system.now) in
        IfOk result (λ _. FindsMore step place state.now finds.old finds.new) }
    ensures outcome { let step = step_within (S.choice_count system.now) (S.step system.now) in
        IfOk result (Expands step state.now finds.new) }
    ensures workspace { IfOk result (λ _. S.is_workspace system.now workspace.new) }
    ensures finds { IfOk result (λ _.
        IsFilling (S.word_count system.now) (S.is_state system.now) finds.new) }
{
    finds.begin(alloc, state)?;
    system.enter(workspace, state);
    for choice in 0..system.choices() {
        match system.next(workspace, state, choice, next) {
            Taken::Refused => {}
            Taken::Hit => return Ok(Some(choice)),
            Taken::Next => {
                let origin = Origin {
                    parent: place as u32,
                    choice,
                };
                finds.put(alloc, next, origin)?;
            }
        }
    }
    Ok(None)
}

/// Makes each choice in the states of the batch, until one hits. Fails only for want of memory.
pub(crate) fn expand_batch<S: System>(
    alloc: Global,
    system: &S,
    workspace: &mut S::Workspace,
    next: &mut [u64],
    batch: &Batch,
) -> Result<Expansion, AllocError>
    requires width { batch.now.width ≡ S.word_count system.now }
    requires fits { batch.now.first + length batch.now.states ≤ 2 ^ 32 }
    requires states { AllAre (S.is_state system.now) batch.now.states }
    requires next { length next.old ≡ S.word_count system.now }
    requires workspace { S.is_workspace system.now workspace.old }
    ensures expansion { let step = step_within (S.choice_count system.now) (S.step system.now) in
        IfOk result (IsExpansion step (S.word_count system.now) (S.is_state system.now) batch.now) }
    ensures workspace { IfOk result (λ _. S.is_workspace system.now workspace.new) }
{
    let mut finds = Finds::new(alloc, system.width())?;
    for at in 0..batch.len() {
        let place = batch.first() + at;
        let state = batch.state(at);
        match expand_state(alloc, system, workspace, state, next, place, &mut finds) {
            Ok(Some(choice)) => {
                return Ok(Expansion {
                    finds,
                    end: place,
                    hit: Some(choice),
                });
            }
            Ok(None) => {}
            Err(error) => {
                drop(finds);
                return Err(error);
            }
        }
    }
    Ok(Expansion {
        finds,
        end: batch.first() + batch.len(),
        hit: None,
    })
}
