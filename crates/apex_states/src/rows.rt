//! Rows of words, all equally long, one after the other in one piece of memory.
ghost use Rattle.std.specs.Prelude.{◌≡◌, ◌<◌, true, false, [], ◌∷◌, ◌++◌, length, slice_get, Some, IfOk, IfErr};
ghost use Rattle.apex_states.specs.Rows.{no_rows};

use std::alloc::{AllocError, Global};
use std::marker::Model;

/// Rows of `width` words each, with room for `room` of them, which is taken when they are made.
#[derive(Drop)]
pub(crate) struct Rows {
    width: usize,
    room: usize,
    count: usize,
    words: Vec<u64>,
}

impl Model for Rows {
    ghost use Rattle.std.specs.Prelude.{vec_capacity};
    ghost use Rattle.apex_states.specs.Rows.{Packed, rows_in, IsPacked};

    ghost Value = { Packed };

    ghost view = { λ r. record {
      width = r.width;
      room = r.room;
      rows = rows_in r.width r.count r.words.items;
    } };

    ghost invariant = { λ r. IsPacked r.width r.room r.count r.words.items (vec_capacity r.words) };
}

impl Rows {
    /// No rows, with room for `room` of them. Fails only for want of memory.
    pub(crate) fn new(alloc: Global, width: usize, room: u32) -> Result<Rows, AllocError>
        ensures { IfOk result (λ rows. rows ≡ no_rows width room) }
    {
        let room = room as usize;
        let Some(words) = room.checked_mul(width) else {
            return Err(AllocError);
        };
        Ok(Rows {
            width,
            room,
            count: 0,
            words: Vec::with_capacity(alloc, words)?,
        })
    }

    /// No rows, with room for none. Takes no memory.
    pub(crate) fn empty(alloc: Global, width: usize) -> Rows
        ensures { result ≡ no_rows width 0 }
    {
        Rows {
            width,
            room: 0,
            count: 0,
            words: Vec::new(alloc),
        }
    }

    pub(crate) fn width(&self) -> usize
        ensures { result ≡ self.now.width }
    {
        self.width
    }

    pub(crate) fn room(&self) -> usize
        ensures { result ≡ self.now.room }
    {
        self.room
    }

    pub(crate) fn len(&self) -> usize
        ensures { result ≡ length self.now.rows }
    {
        self.count
    }

    pub(crate) fn is_full(&self) -> bool
        ensures full { result ≡ true → length self.now.rows ≡ self.now.room }
        ensures room { result ≡ false → length self.now.rows < self.now.room }
    {
        self.count == self.room
    }

    pub(crate) fn row(&self, place: usize) -> &[u64]
        requires { place < length self.now.rows }
        ensures row { slice_get self.now.rows place ≡ Some result.now }
        ensures width { length result.now ≡ self.now.width }
    {
        let start = place * self.width;
        &self.words.as_slice()[start..start + self.width]
    }

    /// Puts a row after the others.
    pub(crate) fn push(&mut self, row: &[u64])
        requires width { length row.now ≡ self.old.width }
        requires room { length self.old.rows < self.old.room }
        ensures { self.new ≡ record self.old { rows = self.old.rows ++ row.now ∷ [] } }
    {
        match self.words.extend_from_slice(row) {
            Ok(()) => self.count += 1,
            Err(AllocError) => unreachable!(),
        }
    }

    /// No rows from now on. The room stays.
    pub(crate) fn clear(&mut self)
        ensures { self.new ≡ record self.old { rows = [] } }
    {
        self.words.clear();
        self.count = 0;
    }

    /// Puts a row after the others, with room for it if there is none. Fails only for want of memory.
    pub(crate) fn push_more(&mut self, row: &[u64]) -> Result<(), AllocError>
        requires { length row.now ≡ self.old.width }
        ensures rows { IfOk result (λ _. self.new.rows ≡ self.old.rows ++ row.now ∷ []) }
        ensures width { self.new.width ≡ self.old.width }
        ensures same { IfErr result (λ _. self.new ≡ self.old) }
    {
        let Some(count) = self.count.checked_add(1) else {
            return Err(AllocError);
        };
        self.words.extend_from_slice(row)?;
        self.count = count;
        self.room = self.room.max(count);
        Ok(())
    }
}
