//! States of a level are laid out on desks.
ghost use Rattle.std.specs.Prelude.{◌≡◌, ◌+◌, ◌*◌, ◌^◌, ◌<◌, ◌≤◌, length, IfOk};
ghost use Rattle.apex_explore.specs.Desks.{IsDesk};
ghost use Rattle.apex_jobs.specs.Rounds.{AreLaidOut, IsLaid, LaysOut, start_at};
ghost use Rattle.apex_states.specs.Lists.{AllAre};

use crate::apart::for_each_apart;
use apex_explore::{Desk, System};
use apex_states::States;
use std::alloc::{AllocError, Global};
use std::marker::{Send, Sync};
use std::thread::Threads;

/// The place of the first state of a desk, if each has this many of the states from `from` on and before
/// `limit`, as far as they go.
pub(crate) fn start_of(from: usize, limit: usize, size: usize, desk: usize) -> usize
    ensures { result ≡ start_at from limit size desk }
{
    limit.min(from.saturating_add(size.saturating_mul(desk)))
}

/// A number of states for each desk, so that the desks have room for all.
pub(crate) fn size_for(states: usize, desks: usize) -> usize
    requires { 0 < desks }
    ensures { states ≤ result * desks }
{
    (states / desks).saturating_add(1)
}

/// A number of states for each desk but the last one, so that the desks have room for all. The last one has
/// about two thirds as many, since its thread may share a processor with the one that keeps what was found.
fn size_beside(states: usize, desks: usize) -> usize
    requires { 0 < desks }
    ensures { states ≤ result * desks }
{
    let thirds = desks.saturating_mul(3) - 1;
    (states / thirds).saturating_add(1).saturating_mul(3)
}

/// Fails if there was no memory for the states of a desk.
pub(crate) fn all_laid<W: Drop>(desks: &[Desk<W>]) -> Result<(), AllocError>
    ensures { IfOk result (λ _. AllAre IsLaid desks.now) }
{
    for place in 0..desks.len() {
        desks[place].laid()?;
    }
    Ok(())
}

/// Lays out copies of the states from the place `from` on and before `limit` on the desks, about the same
/// number on each but the last one. A thread copies those of each desk, if one can be made for it, and the
/// caller waits. Fails only for want of memory.
pub(crate) fn lay_out_all<R: Threads + Sync, W: Drop + Send, S: System<Workspace = W>>(
    rt: &R,
    alloc: Global,
    system: &S,
    states: &States,
    desks: &mut [Desk<W>],
    from: usize,
    limit: usize,
) -> Result<(), AllocError>
    requires some { 0 < length desks.old }
    requires in_order { from ≤ limit }
    requires within { limit ≤ length states.now.states }
    requires width { states.now.width ≡ S.word_count system.now }
    requires states { AllAre (S.is_state system.now) states.now.states }
    requires desks { AllAre (IsDesk (S.word_count system.now) (S.is_workspace system.now))
        desks.old }
    ensures laid { IfOk result (λ _.
        AreLaidOut (S.is_state system.now) states.now from limit desks.new) }
    ensures desks { IfOk result (λ _.
        AllAre (IsDesk (S.word_count system.now) (S.is_workspace system.now)) desks.new) }
{
    let _ = states.len();
    let count = desks.len();
    let size = size_beside(limit - from, count);
    let lay_out = |place: usize, desk: &mut Desk<W>|
        requires { (place + 1 < 2 ^ 64) × (from ≤ limit) × (limit ≤ length states.now.states)
            × (desk.now.batch.width ≡ states.now.width) }
        ensures { LaysOut states.entry.now (start_at from limit size place)
            (start_at from limit size (place + 1)) desk.entry.now desk.exit.now }
    {
        let start = start_of(from, limit, size, place);
        let end = start_of(from, limit, size, place + 1);
        desk.lay_out(alloc, states, start, end)
    };
    for_each_apart(rt, desks, &lay_out);
    all_laid(desks)
}
