//! The places of a byte among the next bytes, found all at once.
ghost use Rattle.std.specs.Prelude.{◌≡◌, ◌≢◌, ℕ, ◌+◌, ◌<◌, ◌≤◌, length, slice_index};
ghost use Rattle.std.specs.Int.{bit_at};
ghost use Rattle.apex_incoming.specs.Places.{ArePlaces};
ghost use Rattle.apex_incoming.specs.declared.lanes.TheConstants.{LANES};

use std::simd::prelude::*;

/// The number of bytes that are looked at at once.
pub(crate) const LANES: usize = 32;

/// The places of this byte among the first [`LANES`] bytes: bit k is set if it is at place k.
#[inline(always)]
pub(crate) fn places_of(byte: u8, bytes: &[u8]) -> u64
    requires { LANES ≤ length bytes.now }
    ensures places { ArePlaces byte bytes.now result }
    ensures all { (k : ℕ) → k < LANES → slice_index bytes.now k ≡ byte → bit_at result k ≡ 1 }
{
    u8x32::from_slice(bytes)
        .simd_eq(u8x32::splat(byte))
        .to_bitmask()
}

/// The place of the lowest bit that is set.
#[inline(always)]
pub(crate) fn lowest(bits: u64) -> usize
    requires { bits ≢ 0 }
    ensures bound { result < 64 }
    ensures set { bit_at bits result ≡ 1 }
    ensures below { (k : ℕ) → k < result → bit_at bits k ≡ 0 }
{
    bits.trailing_zeros() as usize
}

/// The bits below this place.
#[inline(always)]
pub(crate) fn below(bits: u64, place: usize) -> u64
    requires { place < 64 }
    ensures kept { (k : ℕ) → k < place → bit_at result k ≡ bit_at bits k }
    ensures no_more { (k : ℕ) → bit_at result k ≡ 1 → k < place }
{
    bits & ((1 << place) - 1)
}

/// The bits behind this place, the next one lowest.
#[inline(always)]
pub(crate) fn behind(bits: u64, place: usize) -> u64
    requires { place < 64 }
    ensures { (k : ℕ) → bit_at result k ≡ bit_at bits (place + 1 + k) }
{
    bits >> place >> 1
}
