//! States are laid out on desks and expanded there, while nothing else is done.
ghost use Rattle.std.specs.Prelude.{◌≡◌, ◌+◌, ◌^◌, ◌<◌, ◌≤◌, length, IfOk};
ghost use Rattle.apex_explore.specs.Desks.{IsDesk};
ghost use Rattle.apex_explore.specs.Systems.{step_within};
ghost use Rattle.apex_jobs.specs.Rounds.{AreExpansions, IsDone, start_at};
ghost use Rattle.apex_states.specs.Lists.{AllAre};

use crate::apart::for_each_apart;
use crate::expanding::gather;
use crate::laying::{all_laid, size_for, start_of};
use apex_explore::{Desk, System};
use apex_states::{Expansion, States};
use std::alloc::{AllocError, Global};
use std::marker::{Send, Sync};
use std::thread::Threads;

/// Lays out copies of the states from the place `from` on and before `limit` on the desk, and makes each
/// choice in them, until one hits there.
fn lay_out_and_expand<W: Drop, S: System<Workspace = W>>(
    alloc: Global,
    system: &S,
    states: &States,
    desk: &mut Desk<W>,
    from: usize,
    limit: usize,
)
    requires in_order { from ≤ limit }
    requires within { limit ≤ length states.now.states }
    requires few { limit ≤ 2 ^ 32 }
    requires width { states.now.width ≡ S.word_count system.now }
    requires states { AllAre (S.is_state system.now) states.now.states }
    requires desk { IsDesk (S.word_count system.now) (S.is_workspace system.now) desk.old }
    ensures { let step = step_within (S.choice_count system.now) (S.step system.now) in
        IfOk desk.new.laid (λ _. IsDone step (S.word_count system.now) (S.is_state system.now)
        (S.is_workspace system.now) states.now from limit desk.new) }
{
    desk.lay_out(alloc, states, from, limit);
    if desk.laid().is_ok() {
        desk.expand(alloc, system);
    }
}

/// Lays out copies of the states from the place `from` on and before `limit` on the desks, about the same
/// number on each, and makes each choice in them, until one hits at a desk. A thread does both at each
/// desk, if one can be made for it, and the caller waits. Fails only for want of memory.
pub(crate) fn begin_all<R: Threads + Sync, W: Drop + Send, S: System<Workspace = W> + Sync>(
    rt: &R,
    alloc: Global,
    system: &S,
    states: &States,
    desks: &mut [Desk<W>],
    from: usize,
    limit: usize,
) -> Result<Vec<Expansion>, AllocError>
    requires some { 0 < length desks.old }
    requires in_order { from ≤ limit }
    requires within { limit ≤ length states.now.states }
    requires width { states.now.width ≡ S.word_count system.now }
    requires states { AllAre (S.is_state system.now) states.now.states }
    requires desks { AllAre (IsDesk (S.word_count system.now) (S.is_workspace system.now))
        desks.old }
    ensures expansions { let step = step_within (S.choice_count system.now) (S.step system.now) in
        IfOk result (λ expansions. AreExpansions step (S.is_state system.now) states.now from limit
        expansions.items) }
    ensures desks { IfOk result (λ _.
        AllAre (IsDesk (S.word_count system.now) (S.is_workspace system.now)) desks.new) }
{
    let _ = states.len();
    let size = size_for(limit - from, desks.len());
    let work = |place: usize, desk: &mut Desk<W>|
        requires { (place + 1 < 2 ^ 64) × (from ≤ limit) × (limit ≤ length states.now.states)
            × (limit ≤ 2 ^ 32) × (states.now.width ≡ S.word_count system.now)
            × AllAre (S.is_state system.now) states.now.states
            × IsDesk (S.word_count system.now) (S.is_workspace system.now) desk.now }
        ensures { let step = step_within (S.choice_count system.entry.now)
            (S.step system.entry.now) in
            IfOk desk.exit.now.laid (λ _. IsDone step (S.word_count system.entry.now)
            (S.is_state system.entry.now) (S.is_workspace system.entry.now) states.entry.now
            (start_at from limit size place) (start_at from limit size (place + 1)) desk.exit.now) }
    {
        let start = start_of(from, limit, size, place);
        let end = start_of(from, limit, size, place + 1);
        lay_out_and_expand(alloc, system, states, desk, start, end)
    };
    for_each_apart(rt, desks, &work);
    all_laid(desks)?;
    gather(alloc, system, desks)
}
