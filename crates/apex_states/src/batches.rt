//! A copy of some states.
ghost use Rattle.std.specs.Prelude.{◌≡◌, ◌<◌, ◌≤◌, ◌++◌, ◌∷◌, [], length, slice_get, Some, IfOk};
ghost use Rattle.apex_states.specs.Batches.{no_copies, IsCopied};

use crate::rows::Rows;
use crate::states::States;
use std::alloc::{AllocError, Global};
use std::marker::Model;

/// A copy of the words of states that are at places one after the other.
#[derive(Drop)]
pub struct Batch {
    /// The place of the first one.
    first: usize,
    states: Rows,
}

impl Model for Batch {
    ghost use Rattle.apex_states.specs.Batches.{Copies};

    ghost Value = { Copies };

    ghost view = { λ b. record { first = b.first; width = b.states.width; states = b.states.rows } };
}

impl Batch {
    /// No states, of `width` words each. Takes no memory.
    pub fn new(alloc: Global, width: usize) -> Batch
        ensures { result ≡ no_copies width }
    {
        Batch {
            first: 0,
            states: Rows::empty(alloc, width),
        }
    }

    /// The place of the first state.
    pub fn first(&self) -> usize
        ensures { result ≡ self.now.first }
    {
        self.first
    }

    /// The number of states.
    pub fn len(&self) -> usize
        ensures { result ≡ length self.now.states }
    {
        self.states.len()
    }

    /// The words of the state that is this many places behind the first one.
    pub fn state(&self, at: usize) -> &[u64]
        requires { at < length self.now.states }
        ensures state { slice_get self.now.states at ≡ Some result.now }
        ensures width { length result.now ≡ self.now.width }
    {
        self.states.row(at)
    }

    /// No states from now on. The next one that is put there is that of this place.
    fn begin(&mut self, first: usize)
        ensures { self.new ≡ record self.old { first = first; states = [] } }
    {
        self.first = first;
        self.states.clear();
    }

    /// Puts a state behind the others. Fails only for want of memory.
    fn put(&mut self, state: &[u64]) -> Result<(), AllocError>
        requires { length state.now ≡ self.old.width }
        ensures { IfOk result (λ _. self.new
            ≡ record self.old { states = self.old.states ++ state.now ∷ [] }) }
    {
        self.states.push_more(state)
    }

    /// Copies the states from the place `from` on and before `limit`, in place of those that are here.
    /// Fails only for want of memory.
    pub fn copy(
        &mut self,
        alloc: Global,
        states: &States,
        from: usize,
        limit: usize,
    ) -> Result<(), AllocError>
        requires in_order { from ≤ limit }
        requires within { limit ≤ length states.now.states }
        requires width { self.old.width ≡ states.now.width }
        ensures { IfOk result (λ _. IsCopied states.now from limit self.new) }
    {
        self.begin(from);
        let (mut left, mut right) = (Vec::new(alloc), Vec::new(alloc));
        let mut state = vec![in alloc; 0; self.states.width()]?;
        let state = state.as_mut_slice();
        for place in from..limit {
            states.read(alloc, place, &mut left, &mut right, state)?;
            self.put(state)?;
        }
        Ok(())
    }
}
