//! The pairs of the numbers of the halves of states, and where each state comes from.
ghost use Rattle.std.specs.Prelude.{◌≡◌, ℕ, ◌^◌, ◌<◌, ◌≤◌, [], ◌∷◌, length, slice_get, Some, IfOk};
ghost use Rattle.apex_states.specs.Halves.{number_on};
ghost use Rattle.apex_states.specs.Registers.{AreApart};
ghost use Rattle.apex_states.specs.States.{no_states, IsKept, IsSided};

use crate::halves::Side;
use crate::pairs::Pair;
use crate::registers::{Entered, Register};
use crate::states::Origin;
use std::alloc::{AllocError, Global};
use std::marker::Model;

/// A pair of numbers for each state, each once, in the order in which they were found, and the origin
/// of each. Contracts see it as states of one word. The room for all, and for the index by which pairs
/// are found, is taken when the value is made.
#[derive(Drop)]
pub(crate) struct Roots {
    pairs: Register,
    origins: Vec<Origin>,
}

impl Model for Roots {
    ghost use Rattle.std.specs.Prelude.{◌≡◌, ◌≤◌, length, vec_capacity};
    ghost use Rattle.apex_states.specs.States.{Reached};

    ghost Value = { Reached };

    ghost view = { λ r. record {
      width = r.pairs.width;
      room = r.pairs.room;
      states = r.pairs.rows;
      origins = r.origins.items;
    } };

    ghost invariant = { λ r. (r.pairs.width ≡ 1)
        × (length r.origins.items ≡ length r.pairs.rows)
        × (r.pairs.room ≤ vec_capacity r.origins) };
}

impl Roots {
    /// No pairs, with room for `room` of them. Fails only for want of memory.
    pub(crate) fn new(alloc: Global, room: u32) -> Result<Roots, AllocError>
        ensures { IfOk result (λ roots. roots ≡ no_states 1 room) }
    {
        Ok(Roots {
            pairs: Register::new(alloc, 1, room)?,
            origins: Vec::with_capacity(alloc, room as usize)?,
        })
    }

    pub(crate) fn len(&self) -> usize
        ensures len { result ≡ length self.now.states }
        ensures room { result ≤ self.now.room }
        ensures few { self.now.room < 2 ^ 32 }
        ensures apart { AreApart self.now.states }
        ensures paired { length self.now.origins ≡ length self.now.states }
    {
        self.pairs.len()
    }

    pub(crate) fn origins(&self) -> &[Origin]
        ensures { result.now ≡ self.now.origins }
    {
        self.origins.as_slice()
    }

    /// The number on this side of the pair at the place.
    pub(crate) fn number(&self, place: usize, side: Side) -> u32
        requires { place < length self.now.states }
        ensures { (pair : ℕ) × (slice_get self.now.states place ≡ Some (pair ∷ []))
            × (result ≡ number_on side pair) }
    {
        let pair = Pair::of(self.pairs.row(place)[0]);
        match side {
            Side::Left => pair.left,
            Side::Right => pair.right,
        }
    }

    /// The number on this side of each pair, in order. Fails only for want of memory.
    pub(crate) fn numbers(&self, alloc: Global, side: Side) -> Result<Vec<u32>, AllocError>
        ensures { IfOk result (λ numbers.
            IsSided self.now side numbers.items (length self.now.states)) }
    {
        let mut numbers = Vec::with_capacity(alloc, self.len())?;
        for place in 0..self.len() {
            numbers.push(self.number(place, side))?;
        }
        Ok(numbers)
    }

    /// Takes more room if there is none for one pair more. Fails only for want of memory.
    pub(crate) fn make_room(&mut self, alloc: Global) -> Result<(), AllocError>
        ensures room { IfOk result (λ _. length self.new.states < self.new.room) }
        ensures same { self.new ≡ record self.old { room = self.new.room } }
    {
        if !self.pairs.is_full() {
            return Ok(());
        }
        let pairs = self.pairs.grown(alloc)?;
        self.origins.reserve(pairs.room() - self.origins.len())?;
        self.pairs = pairs;
        Ok(())
    }

    /// Enters the pair as the last one if it is not there yet: false if there is no room for it.
    pub(crate) fn enter(&mut self, pair: u64, origin: Origin) -> bool
        ensures { IsKept self.old (pair ∷ []) origin result self.new }
    {
        match self.pairs.enter(&[pair]) {
            Entered::Known(_) => true,
            Entered::New(_) => {
                self.origins.push_reserved(origin);
                true
            }
            Entered::Full => false,
        }
    }
}
