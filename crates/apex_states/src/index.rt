//! Which rows are there already: their places, by a hash of their words.
ghost use Rattle.std.specs.Prelude.{◌≡◌, ◌<◌, ◌≤◌, ◌+◌, ◌*◌, length, None, Some, slice_set, vec_capacity, IfOk};
ghost use Rattle.apex_states.specs.Index.{after, cells_of, hashed_four, home_of, mixed, place_in, taken_in, IsFoundAmong, IsIndexed, IsOpen, IsStart};
ghost use Rattle.apex_states.specs.Registers.{IsRegistered};

use crate::rows::Rows;
use crate::words::are_same;
use std::alloc::{AllocError, Global};

/// An odd number whose bits look random.
const FACTOR: u64 = 0x9e37_79b9_7f4a_7c15;

/// Where a row is, or which slot is free for it.
#[derive(Clone, Copy)]
pub(crate) enum Probe {
    /// The row is at this place.
    At(usize),
    /// The row isn't there, and this slot is free for it.
    Nowhere(usize),
}

/// The place of a row, or none.
#[derive(Clone, Copy)]
pub(crate) struct Slot {
    /// One more than the place; 0 for none, so that a slot has 4 bytes.
    code: u32,
}

/// A slot with no place.
const VACANT: Slot = Slot { code: 0 };

impl Slot {
    fn of(place: u32) -> Slot
        requires { place < u32.MAX }
        ensures { place_in result ≡ Some place }
    {
        Slot { code: place + 1 }
    }

    fn place(self) -> Option<usize>
        ensures { result ≡ place_in self }
    {
        if self.code == 0 {
            None
        } else {
            Some((self.code - 1) as usize)
        }
    }
}

/// The hash so far and one more word.
fn mix(hash: u64, word: u64) -> u64
    ensures { result ≡ mixed hash word }
{
    (hash ^ word).wrapping_mul(FACTOR)
}

/// The hash of the four words from the place on. It does not depend on the words before, so a processor
/// computes several at once.
fn hash_four(row: &[u64], place: usize) -> u64
    requires { place + 3 < length row.now }
    ensures { result ≡ hashed_four row.now place }
{
    mix(
        mix(mix(row[place], row[place + 1]), row[place + 2]),
        row[place + 3],
    )
}

/// The slot at which the search for a row begins. It is as far among the slots as the hash is among
/// the words, so that the highest bits decide, on which all others have an effect.
#[tactic(auto, unfolding(crate::specs::Index::home_of))]
pub(crate) fn home(row: &[u64], size: usize) -> usize
    requires { 0 < size }
    ensures { result ≡ home_of size row.now }
{
    let fours = row.len() / 4;
    let mut hash = 0;
    for at in 0..fours {
        hash = mix(hash, hash_four(row, 4 * at));
    }
    let hash = row[4 * fours..]
        .iter()
        .fold(hash, |hash, word| mix(hash, *word));
    (u128::from(hash) * size as u128 / 0x1_0000_0000_0000_0000) as usize
}

/// The slot a number of steps after this one; after the last slot comes the first.
fn slot_after(size: usize, slot: usize, steps: usize) -> usize
    requires slot { slot < size }
    requires steps { steps < size }
    ensures { result ≡ after size slot steps }
{
    if steps < size - slot {
        slot + steps
    } else {
        steps - (size - slot)
    }
}

/// There are at most as many slots at first.
const FIRST_SLOTS: usize = 0x1_0000;

/// Slots of which about half are taken at most. The memory for all is taken when the value is made,
/// but there are only as many as the rows need so far: the fewer they are, the more of them stay in
/// a cache.
#[derive(Drop)]
pub(crate) struct Index {
    slots: Vec<Slot>,
}

impl Index {
    /// Vacant slots, and memory for those that `room` rows need. Fails only for want of memory.
    pub(crate) fn new(alloc: Global, room: u32) -> Result<Index, AllocError>
        ensures { IfOk result (λ index. IsStart index room) }
    {
        let most = 2 * room as usize + 1;
        let mut slots = Vec::with_capacity(alloc, most)?;
        slots.resize(most.min(FIRST_SLOTS), VACANT)?;
        Ok(Index { slots })
    }

    /// Where this row is among the rows, or the slot that is free for it.
    pub(crate) fn find(&self, rows: &Rows, row: &[u64]) -> Probe
        requires indexed { IsIndexed (cells_of self.now) rows.now.rows }
        requires vacant { length rows.now.rows < length self.now.slots.items }
        requires width { length row.now ≡ rows.now.width }
        ensures { IsFoundAmong (cells_of self.now) rows.now.rows row.now result }
    {
        let size = self.slots.len();
        let home = home(row, size);
        for steps in 0..size {
            let slot = slot_after(size, home, steps);
            match self.slots[slot].place() {
                None => return Probe::Nowhere(slot),
                Some(place) if are_same(rows.row(place), row) => return Probe::At(place),
                Some(_) => {}
            }
        }
        unreachable!()
    }

    /// The slot has this place from now on.
    pub(crate) fn enter(&mut self, slot: usize, place: u32)
        requires slot { slot < length self.old.slots.items }
        requires place { place < u32.MAX }
        ensures cells { cells_of self.new ≡ slice_set (cells_of self.old) slot (Some place) }
        ensures memory { vec_capacity self.new.slots ≡ vec_capacity self.old.slots }
    {
        self.slots[slot] = Slot::of(place);
    }

    /// The slot that is free for a row which has none.
    fn free(&self, row: &[u64]) -> usize
        requires { taken_in (cells_of self.now) < length self.now.slots.items }
        ensures { IsOpen (cells_of self.now) row.now result }
    {
        let size = self.slots.len();
        let home = home(row, size);
        for steps in 0..size {
            let slot = slot_after(size, home, steps);
            match self.slots[slot].place() {
                None => return slot,
                Some(_) => {}
            }
        }
        unreachable!()
    }

    /// As many slots as this, with the places of all rows.
    fn fill(&mut self, rows: &Rows, size: usize)
        requires size { length rows.now.rows < size }
        requires few { length rows.now.rows ≤ u32.MAX }
        requires memory { size ≤ vec_capacity self.old.slots }
        ensures indexed { IsIndexed (cells_of self.new) rows.now.rows }
        ensures size { length self.new.slots.items ≡ size }
        ensures memory { vec_capacity self.old.slots ≤ vec_capacity self.new.slots }
    {
        self.slots.clear();
        match self.slots.resize(size, VACANT) {
            Ok(()) => {}
            Err(AllocError) => unreachable!(),
        }
        for place in 0..rows.len() {
            let slot = self.free(rows.row(place));
            self.enter(slot, place as u32);
        }
    }

    /// More slots if half of them are nearly taken, up to those that there is memory for.
    pub(crate) fn widen(&mut self, rows: &Rows)
        requires { IsRegistered rows.now (cells_of self.old) (vec_capacity self.old.slots) }
        ensures kept { IsRegistered rows.now (cells_of self.new) (vec_capacity self.new.slots) }
        ensures wide { length rows.now.rows < rows.now.room
            → length rows.now.rows + 1 < length self.new.slots.items }
    {
        let most = 2 * rows.room() + 1;
        let size = self.slots.len();
        if 2 * rows.len() + 1 >= size && size < most {
            self.fill(rows, most.min(2 * size));
        }
    }
}
