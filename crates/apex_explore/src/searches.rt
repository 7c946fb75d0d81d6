//! A search that can go on after an answer.
ghost use Rattle.std.specs.Prelude.{◌≡◌, ◌≤◌, ◌+◌, length, IfOk, IfSome, None};
ghost use Rattle.apex_explore.specs.Answers.{Says};
ghost use Rattle.apex_explore.specs.Levels.{Stops, first_front, turned};
ghost use Rattle.apex_explore.specs.Parts.{Fit, IsPast};
ghost use Rattle.apex_explore.specs.Searches.{AreLeft, AreSearched, IsOver, IsSearched};
ghost use Rattle.apex_explore.specs.Searches.{IsSearchedBefore, IsUnderWay, room_of};
ghost use Rattle.apex_explore.specs.Systems.{step_within};
ghost use Rattle.apex_states.specs.Lists.{AllAre, IsFront};

use crate::answers::Answer;
use crate::fronts::Front;
use crate::paths::path_to;
use crate::search::{Stop, advance};
use crate::systems::System;
use crate::taking::take_all;
use crate::watches::Watch;
use apex_states::{Expansion, Origin, States};
use std::alloc::{AllocError, Global};
use std::mem::drop;

/// After this many states a search shows how far it has come.
const STRIDE: usize = 4096;

/// Places of states, from `from` on and before `limit`.
#[derive(Clone, Copy)]
pub struct Places {
    /// The first place, counted from 0.
    pub from: usize,
    /// The place behind the last one.
    pub limit: usize,
}

/// A search: the states that it has reached, and how far it has come.
///
/// It goes on by the steps of a system. After an answer it can go on by those of another one that
/// looks for less: each choice does there what it did before, unless it hit.
#[derive(Drop)]
pub struct Search<W> {
    states: States,
    front: Front,
    workspace: W,
    /// The words of the state in which the choices are made.
    state: Vec<u64>,
    /// The words of the state to which a choice goes on.
    next: Vec<u64>,
}

/// The states that a search has reached at first: the system's first one, whose words `first` has
/// then, or none if there is no room. Fails only for want of memory.
fn reached_first<S: System>(
    alloc: Global,
    system: &S,
    first: &mut [u64],
    room: u32,
) -> Result<States, AllocError>
    requires { length first.old ≡ S.word_count system.now }
    ensures width { IfOk result (λ states. states.width ≡ S.word_count system.now) }
    ensures states { IfOk result (λ states. AllAre (S.is_state system.now) states.states) }
    ensures searched { let step = step_within (S.choice_count system.now) (S.step system.now) in
        IfOk result (λ states. AreSearched step (S.start system.now) states first_front) }
    ensures room { IfOk result (λ states. states.room ≡ room) }
{
    let mut states = States::new(alloc, first.len(), room)?;
    system.first(first);
    let nowhere = Origin {
        parent: 0,
        choice: 0,
    };
    match states.keep(alloc, first, nowhere) {
        Ok(_) => Ok(states),
        Err(error) => {
            drop(states);
            Err(error)
        }
    }
}

impl<W: Drop> Search<W> {
    /// A search that has reached the system's first state alone, or none if there is no room.
    ///
    /// The room for `room` states and for their index is taken here; a workspace and the words of two
    /// states, too. What states have in common is kept once: the room for that grows with the states.
    /// Fails only for want of memory.
    pub fn new<S: System<Workspace = W>>(
        alloc: Global,
        system: &S,
        room: u32,
    ) -> Result<Search<W>, AllocError>
        ensures over { IfOk result (IsOver (S.word_count system.now) (S.is_state system.now)
            (S.is_workspace system.now)) }
        ensures searched { let step = step_within (S.choice_count system.now) (S.step system.now) in
            IfOk result (IsSearched step (S.start system.now)) }
        ensures room { IfOk result (λ search. room_of search ≡ room) }
    {
        let width = system.width();
        let workspace = system.workspace(alloc)?;
        let state = vec![in alloc; 0; width]?;
        let mut next = vec![in alloc; 0; width]?;
        let states = reached_first(alloc, system, next.as_mut_slice(), room)?;
        Ok(Search {
            states,
            front: Front::first(),
            workspace,
            state,
            next,
        })
    }

    /// The number of states that were reached: none if there is no room for one.
    pub fn len(&self) -> usize
        ensures { result ≡ length self.now.states.states }
    {
        self.states.len()
    }

    /// Shows how far the search has come. It has reached no more states than there is room for.
    pub fn show<V: Watch>(&self, watch: &mut V)
        ensures { length self.now.states.states ≤ room_of self.now }
    {
        watch.reached(self.states.len(), self.front.depth);
    }

    /// The states of the level that are left, the next one first, or none if each state is done.
    pub fn turn<S: System<Workspace = W>>(&mut self, system: &S) -> Option<Places>
        requires searched { let step = step_within (S.choice_count system.now)
            (S.step system.now) in
            IsUnderWay step (S.start system.now) self.old }
        ensures searched { let step = step_within (S.choice_count system.now) (S.step system.now) in
            IsUnderWay step (S.start system.now) self.new }
        ensures left { IfSome result (AreLeft self.new.front) }
        ensures done { result ≡ None → length self.new.states.states ≤ self.new.front.at }
        ensures same { self.new ≡ record self.old { front = self.new.front } }
        ensures further { self.old.front.at ≡ self.new.front.at }
        ensures turned { IfSome result (λ _.
            self.new.front ≡ turned self.old.front (length self.old.states.states)) }
    {
        let states = self.states.len();
        if self.front.at >= states {
            return None;
        }
        self.front = self.front.turned(states);
        Some(Places {
            from: self.front.at,
            limit: self.front.level_end,
        })
    }

    /// Goes on for this many states, one after the other, or until there is an answer: why it stops
    /// then. Fails only for want of memory.
    pub fn go_on_for<S: System<Workspace = W>>(
        &mut self,
        alloc: Global,
        system: &S,
        count: usize,
    ) -> Result<Option<Stop>, AllocError>
        requires over { IsOver (S.word_count system.now) (S.is_state system.now)
            (S.is_workspace system.now) self.old }
        requires searched { let step = step_within (S.choice_count system.now)
            (S.step system.now) in
            IsUnderWay step (S.start system.now) self.old }
        ensures over { IfOk result (λ _. IsOver (S.word_count system.now) (S.is_state system.now)
            (S.is_workspace system.now) self.new) }
        ensures searched { let step = step_within (S.choice_count system.now) (S.step system.now) in
            IfOk result (λ _. IsUnderWay step (S.start system.now) self.new) }
        ensures stop { let step = step_within (S.choice_count system.now) (S.step system.now) in
            IfOk result (λ stop. IfSome stop (Stops step self.new.states self.new.front)) }
        ensures count { IfOk result (λ stop. stop ≡ None
            → self.new.front.at ≡ self.old.front.at + count) }
        ensures room { IfOk result (λ _. room_of self.new ≡ room_of self.old) }
    {
        let (state, next) = (self.state.as_mut_slice(), self.next.as_mut_slice());
        advance(
            alloc,
            system,
            &mut self.workspace,
            state,
            next,
            &mut self.states,
            &mut self.front,
            count,
        )
    }

    /// The states that were reached.
    pub fn states(&self) -> &States
        ensures { result.now ≡ self.now.states }
    {
        &self.states
    }

    /// Goes on by these expansions of the states from the one that is next on and before `limit`, or
    /// until there is an answer: why it stops then. Fails only for want of memory.
    pub fn take<S: System<Workspace = W>>(
        &mut self,
        alloc: Global,
        system: &S,
        limit: usize,
        expansions: &[Expansion],
    ) -> Result<Option<Stop>, AllocError>
        requires over { IsOver (S.word_count system.now) (S.is_state system.now)
            (S.is_workspace system.now) self.old }
        requires searched { let step = step_within (S.choice_count system.now)
            (S.step system.now) in
            IsUnderWay step (S.start system.now) self.old }
        requires fit { let step = step_within (S.choice_count system.now) (S.step system.now) in
            Fit step (S.is_state system.now) self.old.states self.old.front limit expansions.now }
        ensures over { IfOk result (λ _. IsOver (S.word_count system.now) (S.is_state system.now)
            (S.is_workspace system.now) self.new) }
        ensures searched { let step = step_within (S.choice_count system.now) (S.step system.now) in
            IfOk result (λ _. IsUnderWay step (S.start system.now) self.new) }
        ensures stop { let step = step_within (S.choice_count system.now) (S.step system.now) in
            IfOk result (λ stop. IfSome stop (Stops step self.new.states self.new.front)) }
        ensures past { IfOk result (λ stop. stop ≡ None
            → IsPast limit self.old.front self.new.front) }
        ensures states { IfOk result (λ _. IsFront self.old.states.states self.new.states.states) }
        ensures room { IfOk result (λ _. room_of self.new ≡ room_of self.old) }
    {
        take_all(
            alloc,
            system,
            &mut self.states,
            &mut self.front,
            limit,
            expansions,
        )
    }

    /// The answer of a search that stops. Fails only for want of memory.
    pub fn answer<S: System<Workspace = W>>(
        &self,
        alloc: Global,
        system: &S,
        stop: Stop,
    ) -> Result<Answer, AllocError>
        requires searched { let step = step_within (S.choice_count system.now)
            (S.step system.now) in
            IsUnderWay step (S.start system.now) self.now }
        requires stop { let step = step_within (S.choice_count system.now) (S.step system.now) in
            Stops step self.now.states self.now.front stop }
        ensures { let step = step_within (S.choice_count system.now) (S.step system.now) in
            IfOk result (Says step (S.start system.now) (room_of self.now)) }
    {
        let Front { at, depth, .. } = self.front;
        let states = self.states.len();
        match stop {
            Stop::Struck(choice) => {
                let mut path = path_to(alloc, self.states.origins(), at, depth)?;
                path.push(choice)?;
                Ok(Answer::Found(path))
            }
            Stop::Over => Ok(Answer::Full { depth }),
            Stop::Done => Ok(Answer::Closed { states }),
        }
    }

    /// Searches on, nearest states first, for a choice of the system that hits: its answer says what
    /// that of a search anew says. What the states have in common takes memory, and so does the
    /// path that is found. Fails only for want of it: nothing is known of the search then, so it can
    /// only be dropped.
    pub fn go_on<S: System<Workspace = W>, V: Watch>(
        &mut self,
        alloc: Global,
        system: &S,
        watch: &mut V,
    ) -> Result<Answer, AllocError>
        requires over { IsOver (S.word_count system.now) (S.is_state system.now)
            (S.is_workspace system.now) self.old }
        requires searched { let step = step_within (S.choice_count system.now) (S.step system.now)
            in IsSearchedBefore step (S.start system.now) self.old }
        ensures says { let step = step_within (S.choice_count system.now) (S.step system.now) in
            IfOk result (Says step (S.start system.now) (room_of self.old)) }
        ensures over { IfOk result (λ _. IsOver (S.word_count system.now) (S.is_state system.now)
            (S.is_workspace system.now) self.new) }
        ensures searched { let step = step_within (S.choice_count system.now) (S.step system.now) in
            IfOk result (λ _. IsSearched step (S.start system.now) self.new) }
        ensures room { IfOk result (λ _. room_of self.new ≡ room_of self.old) }
    {
        if self.len() == 0 {
            return Ok(Answer::Full { depth: 0 });
        }
        loop {
            self.show(watch);
            let stopped = self.go_on_for(alloc, system, STRIDE)?;
            match stopped {
                Some(stop) => return self.answer(alloc, system, stop),
                None => {}
            }
        }
    }
}
