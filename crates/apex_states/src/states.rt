//! The states that a search has reached, and where each of them comes from.
ghost use Rattle.std.specs.Prelude.{◌≡◌, ◌^◌, ◌<◌, ◌≤◌, length, slice_get, Some, IfOk};
ghost use Rattle.apex_states.specs.Expansions.{found_in, IsWide};
ghost use Rattle.apex_states.specs.Finds.{found_of, AreKept};
ghost use Rattle.apex_states.specs.Halves.{width_on, IsHalf};
ghost use Rattle.apex_states.specs.Keeping.{AreNumbered};
ghost use Rattle.apex_states.specs.Lists.{AllAre};
ghost use Rattle.apex_states.specs.Registers.{AreApart};
ghost use Rattle.apex_states.specs.States.{no_states, IsKept};

use crate::expansions::Expansion;
use crate::halves::{Half, Side};
use crate::keeping::{enter_all, gather_origins, number_both, pair_all};
use crate::pairs::Pair;
use crate::roots::Roots;
use std::alloc::{AllocError, Global};
use std::marker::Model;

/// The choice by which a state was found, and the place of the state that it was made in.
#[derive(Clone, Copy)]
pub struct Origin {
    /// The place of that state, counted from 0. 0 for the first state, too.
    pub parent: u32,
    /// The number of the choice, counted from 0. 0 for the first state, too.
    pub choice: u32,
}

/// States in the order in which they were found, each once, and the origin of each.
///
/// A state is kept as the pair of the numbers of its halves, and its halves as trees. The room for
/// the pairs, their index and the origins is taken when the value is made; that for the trees grows.
#[derive(Drop)]
pub struct States {
    roots: Roots,
    left: Half,
    right: Half,
}

impl Model for States {
    ghost use Rattle.apex_states.specs.States.{Reached, IsStored, seen};

    ghost Value = { Reached };

    ghost view = { λ s. seen s.roots s.left s.right };

    ghost invariant = { λ s. IsStored s.roots s.left s.right };
}

impl States {
    /// No states, with room for `room` of them, of `width` words each. Fails only for want of
    /// memory.
    pub fn new(alloc: Global, width: usize, room: u32) -> Result<States, AllocError>
        ensures { IfOk result (λ states. states ≡ no_states width room) }
    {
        let middle = width / 2;
        Ok(States {
            roots: Roots::new(alloc, room)?,
            left: Half::new(alloc, Side::Left, middle)?,
            right: Half::new(alloc, Side::Right, width - middle)?,
        })
    }

    /// The number of states.
    pub fn len(&self) -> usize
        ensures len { result ≡ length self.now.states }
        ensures room { result ≤ self.now.room }
        ensures few { self.now.room < 2 ^ 32 }
        ensures apart { AreApart self.now.states }
        ensures paired { length self.now.origins ≡ length self.now.states }
    {
        self.roots.len()
    }

    /// Puts the words of the state at the place into these. States that are kept next are nearly
    /// that one.
    pub fn restore(&mut self, place: usize, state: &mut [u64])
        requires place { place < length self.old.states }
        requires width { length state.old ≡ self.old.width }
        ensures state { slice_get self.old.states place ≡ Some state.new }
        ensures same { self.new ≡ self.old }
    {
        self.left.restore(self.roots.number(place, Side::Left));
        self.right.restore(self.roots.number(place, Side::Right));
        let (front, back) = state.split_at_mut(self.left.width());
        front.copy_from_slice(self.left.words());
        back.copy_from_slice(self.right.words());
    }

    /// Puts the words of the state at the place into these. `left` and `right` are room for its trees.
    /// Fails only for want of memory.
    pub(crate) fn read(
        &self,
        alloc: Global,
        place: usize,
        left: &mut Vec<u64>,
        right: &mut Vec<u64>,
        state: &mut [u64],
    ) -> Result<(), AllocError>
        requires place { place < length self.now.states }
        requires width { length state.old ≡ self.now.width }
        ensures { IfOk result (λ _. slice_get self.now.states place ≡ Some state.new) }
    {
        let front_number = self.roots.number(place, Side::Left);
        let back_number = self.roots.number(place, Side::Right);
        let (front, back) = state.split_at_mut(self.left.width());
        self.left.read(alloc, front_number, left, front)?;
        self.right.read(alloc, back_number, right, back)?;
        Ok(())
    }

    /// States that are kept next are nearly this one. Fails only for want of memory.
    pub(crate) fn begin(&mut self, alloc: Global, state: &[u64]) -> Result<(), AllocError>
        requires { length state.now ≡ self.old.width }
        ensures { self.new ≡ self.old }
    {
        self.left.begin(alloc, state)?;
        self.right.begin(alloc, state)?;
        Ok(())
    }

    /// Takes more room if there is none for one state more. Fails only for want of memory.
    pub(crate) fn make_room(&mut self, alloc: Global) -> Result<(), AllocError>
        ensures room { IfOk result (λ _. length self.new.states < self.new.room) }
        ensures same { self.new ≡ record self.old { room = self.new.room } }
    {
        self.roots.make_room(alloc)
    }

    /// The halves on this side, and the number of that of each state, in order. Fails only for want of
    /// memory.
    pub(crate) fn numbered(
        &self,
        alloc: Global,
        side: Side,
    ) -> Result<(&Half, Vec<u32>), AllocError>
        ensures half { IfOk result (λ r. IsHalf r.0.now) }
        ensures width { IfOk result (λ r. r.0.now.width ≡ width_on side self.now.width) }
        ensures numbers { IfOk result (λ r. r.0.now.side ≡ side
            × AreNumbered r.0.now (found_of self.now) r.1.items) }
    {
        let numbers = self.roots.numbers(alloc, side)?;
        let half = match side {
            Side::Left => &self.left,
            Side::Right => &self.right,
        };
        Ok((half, numbers))
    }

    /// The origin of each state.
    pub fn origins(&self) -> &[Origin]
        ensures { result.now ≡ self.now.origins }
    {
        self.roots.origins()
    }

    /// Keeps the state as the last one if it is not there yet: false if there is no room for it.
    /// Fails only for want of memory.
    pub fn keep(&mut self, alloc: Global, state: &[u64], origin: Origin) -> Result<bool, AllocError>
        requires { length state.now ≡ self.old.width }
        ensures { IfOk result (λ kept. IsKept self.old state.now origin kept self.new) }
    {
        let left = self.left.number(alloc, state)?;
        let right = self.right.number(alloc, state)?;
        Ok(self.roots.enter(Pair { left, right }.word(), origin))
    }

    /// Keeps the states that were found in the expansions, in order, until there is no room for one: false
    /// then. Fails only for want of memory.
    pub fn keep_all(&mut self, alloc: Global, expansions: &[Expansion]) -> Result<bool, AllocError>
        requires paired { length self.old.origins ≡ length self.old.states }
        requires wide { AllAre (IsWide self.old.width) expansions.now }
        ensures { IfOk result (AreKept (found_in self.old.width expansions.now) self.old self.new) }
    {
        let origins = gather_origins(alloc, expansions)?;
        let (left, right) = (&mut self.left, &mut self.right);
        let (lefts, rights) = number_both(alloc, left, right, expansions)?;
        let pairs = pair_all(alloc, lefts.as_slice(), rights.as_slice())?;
        Ok(enter_all(&mut self.roots, pairs.as_slice(), origins.as_slice()))
    }
}
