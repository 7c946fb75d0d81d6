//! The states that were found in parts of a level are kept.
ghost use Rattle.std.specs.Prelude.{◌≡◌, ◌≤◌, length, take, IfOk, None};
ghost use Rattle.apex_explore.specs.Parts.{Fit, FitsOne, Follows, IsPast, Stands};
ghost use Rattle.apex_explore.specs.Systems.{step_within};
ghost use Rattle.apex_states.specs.Expansions.{found_in};

use crate::fronts::Front;
use crate::search::Stop;
use crate::systems::System;
use apex_states::{Expansion, States};
use std::alloc::{AllocError, Global};

/// How far expansions go.
#[derive(Clone, Copy)]
struct Reach {
    /// The number of those up to the first that ends in a hit, this one included.
    count: usize,
    /// Where the last one of these ends.
    end: usize,
    /// The choice that hits there, if one does.
    hit: Option<u32>,
}

/// How far the expansions go from the front on. They end at `limit`.
fn reach_of<S: System>(
    system: &S,
    states: &States,
    front: Front,
    limit: usize,
    expansions: &[Expansion],
) -> Reach
    requires { let step = step_within (S.choice_count system.now) (S.step system.now) in
        Fit step (S.is_state system.now) states.now front limit expansions.now }
    ensures count { result.count ≤ length expansions.now }
    ensures fits { let step = step_within (S.choice_count system.now) (S.step system.now) in
        let found = found_in states.now.width (take result.count expansions.now) in
        FitsOne step (S.is_state system.now) states.now front
        (record { finds = found; end = result.end; hit = result.hit }) }
    ensures whole { result.hit ≡ None → result.end ≡ limit }
{
    let mut end = front.at;
    for place in 0..expansions.len() {
        let expansion = &expansions[place];
        end = expansion.end;
        match expansion.hit {
            Some(choice) => {
                return Reach {
                    count: place + 1,
                    end,
                    hit: Some(choice),
                };
            }
            None => {}
        }
    }
    Reach {
        count: expansions.len(),
        end,
        hit: None,
    }
}

/// Keeps the states of the expansions in order, until a choice hits or there is no room for a state: why
/// the search stops then. They end at `limit`. Fails only for want of memory.
pub(crate) fn take_all<S: System>(
    alloc: Global,
    system: &S,
    states: &mut States,
    front: &mut Front,
    limit: usize,
    expansions: &[Expansion],
) -> Result<Option<Stop>, AllocError>
    requires stands { let step = step_within (S.choice_count system.now) (S.step system.now) in
        Stands step (S.is_state system.now) (S.start system.now) (S.word_count system.now)
        states.old front.old }
    requires fit { let step = step_within (S.choice_count system.now) (S.step system.now) in
        Fit step (S.is_state system.now) states.old front.old limit expansions.now }
    ensures follows { let step = step_within (S.choice_count system.now) (S.step system.now) in
        IfOk result (Follows step (S.is_state system.now) (S.start system.now)
        (S.word_count system.now) states.old states.new front.new) }
    ensures past { IfOk result (λ stop. stop ≡ None → IsPast limit front.old front.new) }
{
    let reach = reach_of(system, states, *front, limit, expansions);
    let kept = states.keep_all(alloc, &expansions[..reach.count])?;
    if !kept {
        return Ok(Some(Stop::Over));
    }
    front.at = reach.end;
    match reach.hit {
        Some(choice) => Ok(Some(Stop::Struck(choice))),
        None => Ok(None),
    }
}
