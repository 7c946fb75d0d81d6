//! Desks at which states are expanded beside the search.
ghost use Rattle.std.specs.Prelude.{◌≡◌, ◌≤◌, length, IfOk, None, Some};
ghost use Rattle.apex_explore.specs.Desks.{IsDesk, IsMade, IsReady};
ghost use Rattle.apex_explore.specs.Systems.{step_within};
ghost use Rattle.apex_states.specs.Batches.{IsCopied};

use crate::parts::expand_batch;
use crate::systems::System;
use apex_states::{Batch, Expansion, States};
use std::alloc::{AllocError, Global};
use std::mem;
use std::mem::drop;

/// What one thread needs to expand states: copies of them, and a workspace of its own.
#[derive(Drop)]
pub struct Desk<W> {
    pub(crate) workspace: W,
    /// The words of the state to which a choice goes on.
    pub(crate) next: Vec<u64>,
    /// The states that are expanded.
    pub(crate) batch: Batch,
    /// Whether there was memory for them.
    pub(crate) laid: Result<(), AllocError>,
    /// What the choices in these states do, once that is made.
    pub(crate) made: Option<Result<Expansion, AllocError>>,
}

impl<W: Drop> Desk<W> {
    /// A desk without states. It takes a workspace and the words of a state. Fails only for want of
    /// memory.
    pub fn new<S: System<Workspace = W>>(alloc: Global, system: &S) -> Result<Desk<W>, AllocError>
        ensures { IfOk result (IsDesk (S.word_count system.now) (S.is_workspace system.now)) }
    {
        let width = system.width();
        Ok(Desk {
            workspace: system.workspace(alloc)?,
            next: vec![in alloc; 0; width]?,
            batch: Batch::new(alloc, width),
            laid: Ok(()),
            made: None,
        })
    }

    /// Lays out copies of the states from the place `from` on and before `limit`, in place of those that
    /// were here.
    pub fn lay_out(&mut self, alloc: Global, states: &States, from: usize, limit: usize)
        requires in_order { from ≤ limit }
        requires within { limit ≤ length states.now.states }
        requires width { self.old.batch.width ≡ states.now.width }
        ensures copied { IfOk self.new.laid (λ _.
            IsCopied states.now from limit self.new.batch) }
        ensures same { self.new
            ≡ record self.old { batch = self.new.batch; laid = self.new.laid } }
    {
        self.laid = self.batch.copy(alloc, states, from, limit);
    }

    /// Fails only if there was no memory for the states that were laid out last.
    pub fn laid(&self) -> Result<(), AllocError>
        ensures { result ≡ self.now.laid }
    {
        self.laid
    }

    /// Makes each choice in the states of the desk, until one hits.
    pub fn expand<S: System<Workspace = W>>(&mut self, alloc: Global, system: &S)
        requires desk { IsDesk (S.word_count system.now) (S.is_workspace system.now) self.old }
        requires ready { IsReady (S.is_state system.now) self.old }
        ensures { let step = step_within (S.choice_count system.now) (S.step system.now) in
            IsMade step (S.word_count system.now) (S.is_state system.now)
            (S.is_workspace system.now) self.old.batch self.new }
    {
        let next = self.next.as_mut_slice();
        let made = expand_batch(alloc, system, &mut self.workspace, next, &self.batch);
        drop(mem::replace(&mut self.made, Some(made)));
    }

    /// What was made at the desk, if it was not taken yet.
    pub fn take(&mut self) -> Option<Result<Expansion, AllocError>>
        ensures made { result ≡ self.old.made }
        ensures same { self.new ≡ record self.old { made = None } }
    {
        self.made.take()
    }
}
