//! Threads expand the states on desks.
ghost use Rattle.std.specs.Prelude.{◌≡◌, ℕ, ◌<◌, length, IfOk};
ghost use Rattle.apex_explore.specs.Desks.{IsDesk, IsMade, IsReady};
ghost use Rattle.apex_explore.specs.Systems.{step_within};
ghost use Rattle.apex_jobs.specs.Rounds.{AreExpansions, AreGathered, AreLaidOut};
ghost use Rattle.apex_states.specs.Batches.{Copies};
ghost use Rattle.apex_states.specs.Lists.{AllAre};
ghost use Rattle.apex_states.specs.States.{Reached};

use crate::apart::for_each_apart;
use apex_explore::{Desk, System};
use apex_states::Expansion;
use std::alloc::{AllocError, Global};
use std::marker::{Send, Sync};
use std::thread::Threads;

/// Takes what was made at each desk. Fails only for want of memory.
pub(crate) fn gather<W: Drop, S: System<Workspace = W>>(
    alloc: Global,
    system: &S,
    desks: &mut [Desk<W>],
) -> Result<Vec<Expansion>, AllocError>
    requires { let step = step_within (S.choice_count system.now) (S.step system.now) in
        AllAre (λ desk. (copies : Copies) × IsMade step (S.word_count system.now)
        (S.is_state system.now) (S.is_workspace system.now) copies desk) desks.old }
    ensures gathered { IfOk result (λ expansions. AreGathered desks.old expansions.items) }
    ensures desks { IfOk result (λ _.
        AllAre (IsDesk (S.word_count system.now) (S.is_workspace system.now)) desks.new) }
{
    let mut expansions = Vec::new(alloc);
    for place in 0..desks.len() {
        let Some(made) = desks[place].take() else {
            unreachable!()
        };
        expansions.push(made?)?;
    }
    Ok(expansions)
}

/// Makes each choice in the states of each desk, until one hits there. A thread works at each desk, if one
/// can be made for it, and the caller waits. Fails only for want of memory.
pub(crate) fn expand_all<R: Threads + Sync, W: Drop + Send, S: System<Workspace = W> + Sync>(
    rt: &R,
    alloc: Global,
    system: &S,
    desks: &mut [Desk<W>],
) -> Result<Vec<Expansion>, AllocError>
    requires some { 0 < length desks.old }
    requires desks { AllAre (IsDesk (S.word_count system.now) (S.is_workspace system.now))
        desks.old }
    requires ready { AllAre (IsReady (S.is_state system.now)) desks.old }
    ensures expansions { let step = step_within (S.choice_count system.now) (S.step system.now) in
        IfOk result (λ expansions. (reached : Reached) (from limit : ℕ)
        → reached.width ≡ S.word_count system.now
        → AreLaidOut (S.is_state system.now) reached from limit desks.old
        → AreExpansions step (S.is_state system.now) reached from limit expansions.items) }
    ensures desks { IfOk result (λ _.
        AllAre (IsDesk (S.word_count system.now) (S.is_workspace system.now)) desks.new) }
{
    let expand = |_place: usize, desk: &mut Desk<W>|
        requires { IsDesk (S.word_count system.now) (S.is_workspace system.now) desk.now
            × IsReady (S.is_state system.now) desk.now }
        ensures { let step = step_within (S.choice_count system.entry.now)
            (S.step system.entry.now) in
            IsMade step (S.word_count system.entry.now) (S.is_state system.entry.now)
            (S.is_workspace system.entry.now) desk.entry.now.batch desk.exit.now }
    { desk.expand(alloc, system) };
    for_each_apart(rt, desks, &expand);
    gather(alloc, system, desks)
}
