//! The halves of states on one side, as trees of their words.
ghost use Rattle.std.specs.Prelude.{◌≡◌, ℕ, ◌<◌, ◌≤◌, ◌++◌, List, drop, length, IfOk};
ghost use Rattle.apex_states.specs.Halves.{part_of, IsHalf, IsNumber, StillHas};
ghost use Rattle.apex_states.specs.Nodes.{ArePartsFound};

use crate::nodes::Nodes;
use std::alloc::{AllocError, Global};

/// How many pairs lie above a part of a half.
const DEPTH: u32 = 2;

/// The parts of a half: 2 ^ `DEPTH`.
const PARTS: usize = 4;

/// A side of a state.
#[derive(Clone, Copy)]
pub(crate) enum Side {
    Left,
    Right,
}

/// The words of the state on this side, of which there are `width`.
fn part(side: Side, width: usize, state: &[u64]) -> &[u64]
    requires { width ≤ length state.now }
    ensures { result.now ≡ part_of side width state.now }
{
    match side {
        Side::Left => &state[..width],
        Side::Right => &state[state.len() - width..],
    }
}

/// Puts these words in place of the first ones.
fn put_front(words: &mut [u64], front: &[u64])
    requires { length front.now ≤ length words.old }
    ensures { words.new ≡ front.now ++ drop (length front.now) words.old }
{
    words[..front.len()].copy_from_slice(front);
}

/// Takes room for this many words, unless it is there. Fails only for want of memory.
fn make_room(alloc: Global, words: &mut Vec<u64>, size: usize) -> Result<(), AllocError>
    ensures { IfOk result (λ _. length words.new.items ≡ size) }
{
    if words.len() != size {
        *words = vec![in alloc; 0; size]?;
    }
    Ok(())
}

/// Halves of states, all of one side. Each distinct one has a number, and those that share parts
/// share their memory.
#[derive(Drop)]
pub(crate) struct Half {
    side: Side,
    width: usize,
    nodes: Nodes,
    /// The words of a half, and some zeros that never change, so that all are cut into equal parts.
    words: Vec<u64>,
    /// Those of the half that was restored last. One that is numbered next is nearly this one.
    here: Vec<u64>,
    /// Its number.
    number: u32,
}

impl Half {
    /// Halves on this side, of `width` words each. Fails only for want of memory.
    pub(crate) fn new(alloc: Global, side: Side, width: usize) -> Result<Half, AllocError>
        ensures half { IfOk result IsHalf }
        ensures side { IfOk result (λ half. half.side ≡ side) }
        ensures width { IfOk result (λ half. half.width ≡ width) }
    {
        let part = width / PARTS + 1;
        let Some(size) = part.checked_mul(PARTS) else {
            return Err(AllocError);
        };
        let mut nodes = Nodes::new(alloc, part)?;
        let words = vec![in alloc; 0; size]?;
        let here = vec![in alloc; 0; size]?;
        let number = nodes.number(alloc, DEPTH, here.as_slice())?;
        Ok(Half {
            side,
            width,
            nodes,
            words,
            here,
            number,
        })
    }

    pub(crate) fn side(&self) -> Side
        ensures { result ≡ self.now.side }
    {
        self.side
    }

    pub(crate) fn width(&self) -> usize
        ensures { result ≡ self.now.width }
    {
        self.width
    }

    /// The number of the half of this state. What the half has in common with the one that was restored
    /// last is not looked up. Fails only for want of memory.
    pub(crate) fn number(&mut self, alloc: Global, state: &[u64]) -> Result<u32, AllocError>
        requires half { IsHalf self.old }
        requires state { self.old.width ≤ length state.now }
        ensures number { IfOk result (λ number.
            IsNumber self.new number (part_of self.old.side self.old.width state.now)) }
        ensures held { StillHas self.old self.new }
        ensures half { IsHalf self.new }
    {
        put_front(
            self.words.as_mut_slice(),
            part(self.side, self.width, state),
        );
        let (words, here) = (self.words.as_slice(), self.here.as_slice());
        self.nodes
            .number_like(alloc, DEPTH, words, here, self.number)
    }

    /// The number of the half of this state. Those that are numbered next are nearly that one. Fails only
    /// for want of memory.
    pub(crate) fn begin(&mut self, alloc: Global, state: &[u64]) -> Result<u32, AllocError>
        requires half { IsHalf self.old }
        requires state { self.old.width ≤ length state.now }
        ensures number { IfOk result (λ number.
            IsNumber self.new number (part_of self.old.side self.old.width state.now)) }
        ensures held { StillHas self.old self.new }
        ensures half { IsHalf self.new }
    {
        let number = self.number(alloc, state)?;
        put_front(self.here.as_mut_slice(), part(self.side, self.width, state));
        self.number = number;
        Ok(number)
    }

    /// The number of each half is below this.
    pub(crate) fn count(&self) -> usize
        ensures { (number : ℕ) (k : List ℕ) → IsNumber self.now number k → number < result }
    {
        self.nodes.pair_count()
    }

    /// How many parts the halves have: the number of each is below this.
    pub(crate) fn part_count(&self) -> usize
        ensures { result ≡ length self.now.nodes.parts.rows }
    {
        self.nodes.part_count()
    }

    /// The number among these halves of the known one with this number. `parts` has the numbers of
    /// the known parts that were found before. Fails only for want of memory.
    pub(crate) fn translate(
        &mut self,
        alloc: Global,
        known: &Half,
        number: u32,
        parts: &mut [Option<u32>],
    ) -> Result<u32, AllocError>
        requires half { IsHalf self.old }
        requires known { IsHalf known.now }
        requires width { known.now.width ≡ self.old.width }
        requires number { (k : List ℕ) × IsNumber known.now number k }
        requires parts { ArePartsFound known.now.nodes self.old.nodes parts.old }
        requires slots { length parts.old ≡ length known.now.nodes.parts.rows }
        ensures number { IfOk result (λ among. (k : List ℕ)
            → IsNumber known.now number k → IsNumber self.new among k) }
        ensures parts { ArePartsFound known.now.nodes self.new.nodes parts.new }
        ensures slots { length parts.new ≡ length parts.old }
        ensures held { StillHas self.old self.new }
        ensures half { IsHalf self.new }
    {
        self.nodes
            .translate(alloc, &known.nodes, DEPTH, number, parts)
    }

    /// Restores the half with this number: those that are numbered next are nearly that one.
    pub(crate) fn restore(&mut self, number: u32)
        requires half { IsHalf self.old }
        requires known { (k : List ℕ) × IsNumber self.old number k }
        ensures number { self.new.number ≡ number }
        ensures held { StillHas self.old self.new }
        ensures half { IsHalf self.new }
    {
        if number != self.number {
            self.nodes.restore(DEPTH, number, self.here.as_mut_slice());
            self.number = number;
        }
    }

    /// The words of the half that was restored last.
    pub(crate) fn words(&self) -> &[u64]
        requires { IsHalf self.now }
        ensures { IsNumber self.now self.now.number result.now }
    {
        &self.here.as_slice()[..self.width]
    }

    /// Puts the words of the half with this number into these. `room` is for those of its tree. Fails only
    /// for want of memory.
    pub(crate) fn read(
        &self,
        alloc: Global,
        number: u32,
        room: &mut Vec<u64>,
        words: &mut [u64],
    ) -> Result<(), AllocError>
        requires half { IsHalf self.now }
        requires known { (k : List ℕ) × IsNumber self.now number k }
        requires words { length words.old ≡ self.now.width }
        ensures { IfOk result (λ _. IsNumber self.now number words.new) }
    {
        make_room(alloc, room, self.words.len())?;
        self.nodes.restore(DEPTH, number, room.as_mut_slice());
        words.copy_from_slice(&room.as_slice()[..self.width]);
        Ok(())
    }
}
