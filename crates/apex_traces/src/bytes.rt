//! Bytes in a buffer of fixed room. A text of known length is copied by a few instructions, and one of
//! any length by a call.
ghost use Rattle.std.specs.Prelude.{◌≡◌, ◌+◌, ◌^◌, ◌<◌, ◌≤◌, [], ◌∷◌, ◌++◌, length, take};
ghost use Rattle.arrayvec.specs.ArrayVec.{array_vec_len};

use std::marker::Model;
use std::simd::Simd;

/// The bytes of a short copy of known length: fewer are copied by a call.
const SHORT: usize = 4;

/// The bytes of a copy of middle length.
const MIDDLE: usize = 2 * SHORT;

/// The bytes of a long copy: more than two of them are copied by a call.
const LONG: usize = 2 * MIDDLE;

/// Puts the first N bytes at a place, by one load and one store. N is a power of two.
#[inline(always)]
fn put_front<const N: usize>(cells: &mut [u8], place: usize, bytes: &[u8])
    requires { (N ≤ length bytes.now) × (place + N ≤ length cells.old) }
    ensures kept { take (place + N) cells.new ≡ take place cells.old ++ take N bytes.now }
    ensures len { length cells.new ≡ length cells.old }
{
    Simd::<u8, N>::from_slice(bytes).copy_to_slice(&mut cells[place..]);
}

/// Bytes in a buffer of fixed room.
#[derive(Drop)]
pub struct Bytes<const ROOM: usize> {
    /// The number of the bytes. It is before the cells, and narrower than their addresses: so a
    /// compiler sees that no copy into the cells changes it.
    count: u32,
    cells: [u8; ROOM],
}

impl<const ROOM: usize> Model for Bytes<ROOM> {
    ghost use Rattle.std.specs.Prelude.{◌≡◌, ◌^◌, ◌<◌, ◌≤◌, ℕ, length, take};
    ghost use Rattle.arrayvec.specs.ArrayVec.{ArrayVec};

    ghost Value = { ArrayVec ℕ };

    ghost view = { λ b. record { items = take b.count b.cells } };

    ghost invariant = { λ b. (b.count ≤ ROOM) × (length b.cells ≡ ROOM) × (ROOM < 2 ^ 32) };
}

impl<const ROOM: usize> Bytes<ROOM> {
    /// A buffer without bytes.
    pub fn new() -> Bytes<ROOM>
        requires { ROOM < 2 ^ 32 }
        ensures { result.items ≡ [] }
    {
        Bytes {
            count: 0,
            cells: [0; ROOM],
        }
    }

    /// The number of bytes.
    pub fn len(&self) -> usize
        ensures { result ≡ array_vec_len self.now }
    {
        self.count as usize
    }

    /// Forgets all bytes.
    pub fn clear(&mut self)
        ensures { self.new.items ≡ [] }
    {
        self.count = 0;
    }

    /// The bytes.
    pub fn as_slice(&self) -> &[u8]
        ensures value { result.now ≡ self.now.items }
        ensures fits { length result.now ≤ ROOM }
    {
        &self.cells[..self.count as usize]
    }

    /// Appends a byte.
    #[inline(always)]
    pub(crate) fn push(&mut self, byte: u8)
        requires { array_vec_len self.old < ROOM }
        ensures items { self.new.items ≡ self.old.items ++ byte ∷ [] }
        ensures len { array_vec_len self.new ≡ array_vec_len self.old + 1 }
    {
        self.cells[self.count as usize] = byte;
        self.count += 1;
    }

    /// Appends these bytes by one copy.
    #[inline(always)]
    pub(crate) fn extend(&mut self, more: &[u8])
        requires { array_vec_len self.old + length more.now ≤ ROOM }
        ensures items { self.new.items ≡ self.old.items ++ more.now }
        ensures len { array_vec_len self.new ≡ array_vec_len self.old + length more.now }
    {
        let place = self.count as usize;
        let cells = &mut self.cells[..];
        cells[place..place + more.len()].copy_from_slice(more);
        self.count += more.len() as u32;
    }

    /// Appends these bytes by two copies of the same length, which overlap.
    #[inline(always)]
    fn extend_by_ends<const N: usize>(&mut self, more: &[u8])
        requires covers { (N ≤ length more.now) × (length more.now ≤ N + N) }
        requires room { array_vec_len self.old + length more.now ≤ ROOM }
        ensures items { self.new.items ≡ self.old.items ++ more.now }
        ensures len { array_vec_len self.new ≡ array_vec_len self.old + length more.now }
    {
        let (place, last) = (self.count as usize, more.len() - N);
        let cells = &mut self.cells[..];
        put_front::<N>(cells, place, more);
        put_front::<N>(cells, place + last, &more[last..]);
        self.count += more.len() as u32;
    }

    /// Appends these bytes, of which there are mostly few. A copy of a length that is not known is a
    /// call, so few bytes are two copies of known length.
    #[inline(always)]
    pub(crate) fn extend_by_few(&mut self, more: &[u8])
        requires { array_vec_len self.old + length more.now ≤ ROOM }
        ensures items { self.new.items ≡ self.old.items ++ more.now }
        ensures len { array_vec_len self.new ≡ array_vec_len self.old + length more.now }
    {
        let count = more.len();
        if count < SHORT || count > 2 * LONG {
            self.extend(more);
        } else if count <= 2 * SHORT {
            self.extend_by_ends::<SHORT>(more);
        } else if count <= 2 * MIDDLE {
            self.extend_by_ends::<MIDDLE>(more);
        } else {
            self.extend_by_ends::<LONG>(more);
        }
    }

    /// Appends the first bytes of a text. It copies N bytes, a number that is known, and keeps the
    /// first `count` of them.
    #[inline(always)]
    pub(crate) fn extend_by_front<const N: usize>(&mut self, more: &[u8], count: u32)
        requires few { count ≤ N }
        requires long { N ≤ length more.now }
        requires room { array_vec_len self.old + N ≤ ROOM }
        ensures items { self.new.items ≡ self.old.items ++ take count more.now }
        ensures len { array_vec_len self.new ≡ array_vec_len self.old + count }
    {
        put_front::<N>(&mut self.cells[..], self.count as usize, more);
        self.count += count;
    }

    /// Appends the bytes of another buffer. It copies that whole buffer, whose size is known, and
    /// keeps the bytes of it.
    #[inline(always)]
    pub(crate) fn append<const N: usize>(&mut self, more: &Bytes<N>)
        requires { array_vec_len self.old + N ≤ ROOM }
        ensures items { self.new.items ≡ self.old.items ++ more.now.items }
        ensures len { array_vec_len self.new ≡ array_vec_len self.old + array_vec_len more.now }
        ensures short { array_vec_len self.new ≤ array_vec_len self.old + N }
    {
        let place = self.count as usize;
        // A copy of its own: so a compiler need not ask whether the two buffers overlap.
        let copy = more.cells;
        let cells = &mut self.cells[..];
        cells[place..place + N].copy_from_slice(&copy);
        self.count += more.count;
    }
}
