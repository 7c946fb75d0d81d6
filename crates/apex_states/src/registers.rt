//! Rows of words, each once. The number of a row is its place.
ghost use Rattle.std.specs.Prelude.{◌≡◌, ◌^◌, ◌<◌, ◌≤◌, true, false, length, slice_get, None, Some, IfOk, IfSome};
ghost use Rattle.apex_states.specs.Index.{IsKnown};
ghost use Rattle.apex_states.specs.Lists.{IsFront};
ghost use Rattle.apex_states.specs.Registers.{AreApart, IsEntered, IsGrown};
ghost use Rattle.apex_states.specs.Rows.{no_rows};

use crate::index::{Index, Probe};
use crate::rows::Rows;
use std::alloc::{AllocError, Global};
use std::marker::Model;

/// As many rows, and any more, don't grow.
const MOST_ROWS: usize = 0x7fff_0000;

/// The room of a register that has had none.
const LEAST_ROOM: u32 = 64;

/// What came of a row that was to be entered.
#[derive(Clone, Copy)]
pub(crate) enum Entered {
    /// It was there already, with this number.
    Known(u32),
    /// It is the last one now, with this number.
    New(u32),
    /// It isn't there, and there is no room for it.
    Full,
}

/// Rows of one width, each once, and the index by which they are found.
#[derive(Drop)]
pub(crate) struct Register {
    rows: Rows,
    index: Index,
}

impl Model for Register {
    ghost use Rattle.std.specs.Prelude.{vec_capacity};
    ghost use Rattle.apex_states.specs.Index.{cells_of};
    ghost use Rattle.apex_states.specs.Registers.{IsRegistered};
    ghost use Rattle.apex_states.specs.Rows.{Packed};

    ghost Value = { Packed };

    ghost view = { λ r. r.rows };

    ghost invariant = { λ r.
        IsRegistered r.rows (cells_of r.index) (vec_capacity r.index.slots) };
}

impl Register {
    /// No rows, with room for `room` of them, which is taken now. Fails only for want of memory.
    pub(crate) fn new(alloc: Global, width: usize, room: u32) -> Result<Register, AllocError>
        ensures { IfOk result (λ register. register ≡ no_rows width room) }
    {
        Ok(Register {
            rows: Rows::new(alloc, width, room)?,
            index: Index::new(alloc, room)?,
        })
    }

    pub(crate) fn len(&self) -> usize
        ensures len { result ≡ length self.now.rows }
        ensures room { result ≤ self.now.room }
        ensures few { self.now.room < 2 ^ 32 }
        ensures apart { AreApart self.now.rows }
    {
        self.rows.len()
    }

    pub(crate) fn room(&self) -> usize
        ensures { result ≡ self.now.room }
    {
        self.rows.room()
    }

    pub(crate) fn is_full(&self) -> bool
        ensures full { result ≡ true → length self.now.rows ≡ self.now.room }
        ensures room { result ≡ false → length self.now.rows < self.now.room }
    {
        self.rows.is_full()
    }

    pub(crate) fn row(&self, number: usize) -> &[u64]
        requires { number < length self.now.rows }
        ensures row { slice_get self.now.rows number ≡ Some result.now }
        ensures width { length result.now ≡ self.now.width }
    {
        self.rows.row(number)
    }

    /// Enters the row as the last one if it is not there yet.
    pub(crate) fn enter(&mut self, row: &[u64]) -> Entered
        requires { length row.now ≡ self.old.width }
        ensures { IsEntered self.old row.now result self.new }
    {
        self.index.widen(&self.rows);
        let slot = match self.index.find(&self.rows, row) {
            Probe::At(place) => return Entered::Known(place as u32),
            Probe::Nowhere(slot) => slot,
        };
        if self.rows.is_full() {
            return Entered::Full;
        }
        let number = self.rows.len() as u32;
        self.index.enter(slot, number);
        self.rows.push(row);
        Entered::New(number)
    }

    /// The same rows, with room for as many more and some. Fails only for want of memory, which is
    /// also the answer to more than 2^31 rows.
    pub(crate) fn grown(&self, alloc: Global) -> Result<Register, AllocError>
        ensures { IfOk result (IsGrown self.now) }
    {
        let count = self.rows.len();
        if count >= MOST_ROWS {
            return Err(AllocError);
        }
        let room = 2 * count as u32 + LEAST_ROOM;
        let mut grown = Register::new(alloc, self.rows.width(), room)?;
        for place in 0..count {
            grown.enter(self.rows.row(place));
        }
        Ok(grown)
    }

    /// Takes more room if there is none for one row more. Fails only for want of memory, which is
    /// also the answer to more than 2^31 rows.
    fn make_room(&mut self, alloc: Global) -> Result<(), AllocError>
        ensures room { IfOk result (λ _. length self.new.rows < self.new.room) }
        ensures rows { self.new.rows ≡ self.old.rows }
        ensures width { self.new.width ≡ self.old.width }
        ensures apart { AreApart self.new.rows }
    {
        if self.rows.is_full() {
            *self = self.grown(alloc)?;
        }
        Ok(())
    }

    /// The number of the row, which is entered if it is not there yet: room is taken as it is needed.
    /// Fails only for want of memory, which is also the answer to more than 2^31 rows.
    pub(crate) fn number(&mut self, alloc: Global, row: &[u64]) -> Result<u32, AllocError>
        requires { length row.now ≡ self.old.width }
        ensures number { IfOk result (λ number. slice_get self.new.rows number ≡ Some row.now) }
        ensures rows { IsFront self.old.rows self.new.rows }
        ensures width { self.new.width ≡ self.old.width }
        ensures apart { AreApart self.new.rows }
    {
        self.make_room(alloc)?;
        match self.enter(row) {
            Entered::Known(number) => Ok(number),
            Entered::New(number) => Ok(number),
            Entered::Full => unreachable!(),
        }
    }
}
