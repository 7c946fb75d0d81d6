//! What was found is kept while threads find more.
ghost use Rattle.std.specs.Thread.{IsSend, IsSync};
ghost use Rattle.std.specs.Prelude.{◌≡◌, ℕ, ◌<◌, length, IfOk};
ghost use Rattle.apex_explore.specs.Desks.{IsDesk, IsReady};
ghost use Rattle.apex_explore.specs.Parts.{Fit};
ghost use Rattle.apex_explore.specs.Searches.{IsOver, IsUnderWay};
ghost use Rattle.apex_explore.specs.Systems.{step_within};
ghost use Rattle.apex_jobs.specs.Rounds.{AreExpansions, AreLaidOut, IsTaken};
ghost use Rattle.apex_states.specs.Lists.{AllAre};
ghost use Rattle.apex_states.specs.States.{Reached};

use crate::expanding::expand_all;
use apex_explore::{Desk, Search, Stop, System};
use apex_states::Expansion;
use std::alloc::{AllocError, Global};
use std::marker::{Send, Sync};
use std::thread::{Threads, join_mut};

/// Goes on by these expansions, which end at `limit`, in a thread of its own, while others expand the states
/// on the desks and the caller waits: why the search stops, if it does, and what they found. Fails only for
/// want of memory.
pub(crate) fn take_and_expand<R: Threads + Sync, W: Drop + Send, S: System<Workspace = W> + Sync>(
    rt: &R,
    alloc: Global,
    system: &S,
    search: &mut Search<W>,
    limit: usize,
    expansions: &[Expansion],
    desks: &mut [Desk<W>],
) -> Result<(Option<Stop>, Vec<Expansion>), AllocError>
    requires over { IsOver (S.word_count system.now) (S.is_state system.now)
        (S.is_workspace system.now) search.old }
    requires searched { let step = step_within (S.choice_count system.now) (S.step system.now) in
        IsUnderWay step (S.start system.now) search.old }
    requires fit { let step = step_within (S.choice_count system.now) (S.step system.now) in
        Fit step (S.is_state system.now) search.old.states search.old.front limit expansions.now }
    requires some { 0 < length desks.old }
    requires desks { AllAre (IsDesk (S.word_count system.now) (S.is_workspace system.now))
        desks.old }
    requires ready { AllAre (IsReady (S.is_state system.now)) desks.old }
    ensures taken { let step = step_within (S.choice_count system.now) (S.step system.now) in
        IfOk result (λ took. IsTaken step (S.start system.now) (S.word_count system.now)
        (S.is_state system.now) (S.is_workspace system.now) limit search.old search.new took.0) }
    ensures expansions { let step = step_within (S.choice_count system.now) (S.step system.now) in
        IfOk result (λ took. (reached : Reached) (from limit : ℕ)
        → reached.width ≡ S.word_count system.now
        → AreLaidOut (S.is_state system.now) reached from limit desks.old
        → AreExpansions step (S.is_state system.now) reached from limit took.1.items) }
    ensures desks { IfOk result (λ _.
        AllAre (IsDesk (S.word_count system.now) (S.is_workspace system.now)) desks.new) }
{
    let mut expand = || -> Result<Vec<Expansion>, AllocError>
        requires { IsSync R.row × IsSync S.row × IsSend W.row × (0 < length desks.now)
            × AllAre (IsDesk (S.word_count system.now) (S.is_workspace system.now)) desks.now
            × AllAre (IsReady (S.is_state system.now)) desks.now }
        ensures { let step = step_within (S.choice_count system.entry.now)
            (S.step system.entry.now) in
            IfOk result (λ expansions. ((reached : Reached) (from limit : ℕ)
            → reached.width ≡ S.word_count system.entry.now
            → AreLaidOut (S.is_state system.entry.now) reached from limit desks.entry.now
            → AreExpansions step (S.is_state system.entry.now) reached from limit expansions.items)
            × AllAre (IsDesk (S.word_count system.entry.now) (S.is_workspace system.entry.now))
            desks.exit.now) }
    { expand_all(rt, alloc, system, desks) };
    let mut take = || -> Result<Option<Stop>, AllocError>
        requires { let step = step_within (S.choice_count system.now) (S.step system.now) in
            IsOver (S.word_count system.now) (S.is_state system.now) (S.is_workspace system.now)
            search.now × IsUnderWay step (S.start system.now) search.now
            × Fit step (S.is_state system.now) search.now.states search.now.front limit
            expansions.now }
        ensures { let step = step_within (S.choice_count system.entry.now)
            (S.step system.entry.now) in
            IfOk result (IsTaken step (S.start system.entry.now) (S.word_count system.entry.now)
            (S.is_state system.entry.now) (S.is_workspace system.entry.now) limit
            search.entry.now search.exit.now) }
    { search.take(alloc, system, limit, expansions) };
    let (stopped, found) = join_mut(rt, &mut take, &mut expand);
    Ok((stopped?, found?))
}
