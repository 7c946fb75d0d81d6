//! The choices in one state, and the search from the first state to an answer.
ghost use Rattle.std.specs.Prelude.{◌≡◌, ◌+◌, ◌^◌, ◌<◌, length, IfOk, IfSome, None};
ghost use Rattle.apex_explore.specs.Answers.{Says};
ghost use Rattle.apex_explore.specs.Levels.{Comes, GoesOn, IsAt, Stops};
ghost use Rattle.apex_states.specs.Lists.{AllAre};
ghost use Rattle.apex_explore.specs.Systems.{step_within};

use crate::answers::Answer;
use crate::fronts::Front;
use crate::searches::Search;
use crate::systems::{System, Taken};
use crate::watches::Watch;
use apex_states::{Origin, States};
use std::alloc::{AllocError, Global};
use std::mem::drop;

/// What came of the choices in one state.
enum Expanded {
    All,
    Struck(u32),
    Over,
}

/// Why a search stops.
#[derive(Clone, Copy)]
pub enum Stop {
    /// The choice hits in the state at the front.
    Struck(u32),
    /// There is no room for a state to which a choice goes on in a state of the level.
    Over,
    /// Each state is done.
    Done,
}

/// Makes each choice in the state at `place`, until one hits or goes on to a state for which there
/// is no room. Fails only for want of memory.
fn expand<S: System>(
    alloc: Global,
    system: &S,
    workspace: &mut S::Workspace,
    state: &mut [u64],
    next: &mut [u64],
    states: &mut States,
    place: usize,
) -> Result<Expanded, AllocError>
    requires paired { length states.old.origins ≡ length states.old.states }
    requires place { place < length states.old.states }
    requires fits { place < 2 ^ 32 }
    requires width { states.old.width ≡ S.word_count system.now }
    requires state { length state.old ≡ S.word_count system.now }
    requires next { length next.old ≡ S.word_count system.now }
    requires workspace { S.is_workspace system.now workspace.old }
    requires states { AllAre (S.is_state system.now) states.old.states }
    ensures grows { let step = step_within (S.choice_count system.now) (S.step system.now) in
        IfOk result (λ _. GoesOn step place states.old states.new) }
    ensures outcome { let step = step_within (S.choice_count system.now) (S.step system.now) in
        IfOk result (Comes step states.new.states states.old.room place) }
    ensures width { IfOk result (λ _. states.new.width ≡ states.old.width) }
    ensures room { IfOk result (λ _. states.new.room ≡ states.old.room) }
    ensures workspace { IfOk result (λ _. S.is_workspace system.now workspace.new) }
    ensures states { IfOk result (λ _. AllAre (S.is_state system.now) states.new.states) }
{
    states.restore(place, state);
    system.enter(workspace, state);
    for choice in 0..system.choices() {
        match system.next(workspace, state, choice, next) {
            Taken::Refused => {}
            Taken::Hit => return Ok(Expanded::Struck(choice)),
            Taken::Next => {
                let origin = Origin {
                    parent: place as u32,
                    choice,
                };
                let kept = states.keep(alloc, next, origin)?;
                if !kept {
                    return Ok(Expanded::Over);
                }
            }
        }
    }
    Ok(Expanded::All)
}

/// Goes on from the front for this many states, or until a choice hits or goes on to a state for
/// which there is no room, or each state is done. Fails only for want of memory.
pub(crate) fn advance<S: System>(
    alloc: Global,
    system: &S,
    workspace: &mut S::Workspace,
    state: &mut [u64],
    next: &mut [u64],
    states: &mut States,
    front: &mut Front,
    count: usize,
) -> Result<Option<Stop>, AllocError>
    requires level { let step = step_within (S.choice_count system.now) (S.step system.now) in
        IsAt step (S.start system.now) states.old front.old }
    requires width { states.old.width ≡ S.word_count system.now }
    requires state { length state.old ≡ S.word_count system.now }
    requires next { length next.old ≡ S.word_count system.now }
    requires workspace { S.is_workspace system.now workspace.old }
    requires states { AllAre (S.is_state system.now) states.old.states }
    ensures level { let step = step_within (S.choice_count system.now) (S.step system.now) in
        IfOk result (λ _. IsAt step (S.start system.now) states.new front.new) }
    ensures stop { let step = step_within (S.choice_count system.now) (S.step system.now) in
        IfOk result (λ stop. IfSome stop (Stops step states.new front.new)) }
    ensures count { IfOk result (λ stop. stop ≡ None → front.new.at ≡ front.old.at + count) }
    ensures width { IfOk result (λ _. states.new.width ≡ states.old.width) }
    ensures room { IfOk result (λ _. states.new.room ≡ states.old.room) }
    ensures workspace { IfOk result (λ _. S.is_workspace system.now workspace.new) }
    ensures states { IfOk result (λ _. AllAre (S.is_state system.now) states.new.states) }
{
    for made in 0..count {
        let reached = states.len();
        if front.at >= reached {
            return Ok(Some(Stop::Done));
        }
        *front = front.turned(reached);
        let expanded = expand(alloc, system, workspace, state, next, states, front.at)?;
        match expanded {
            Expanded::All => front.at += 1,
            Expanded::Struck(choice) => return Ok(Some(Stop::Struck(choice))),
            Expanded::Over => return Ok(Some(Stop::Over)),
        }
    }
    Ok(None)
}

/// Searches the system's states, nearest first, for a choice that hits.
///
/// The room for `room` states and for their index is taken before the first step; a workspace and
/// the words of two states, too. What states have in common is kept once: the room for that grows
/// with the states, and the path that is found takes memory. Fails only for want of it.
pub fn explore<S: System, V: Watch>(
    alloc: Global,
    system: &S,
    room: u32,
    watch: &mut V,
) -> Result<Answer, AllocError>
    ensures { let step = step_within (S.choice_count system.now) (S.step system.now) in
        IfOk result (Says step (S.start system.now) room) }
{
    let mut search = Search::new(alloc, system, room)?;
    let answer = search.go_on(alloc, system, watch);
    drop(search);
    answer
}
