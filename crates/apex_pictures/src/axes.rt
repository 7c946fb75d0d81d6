//! The axis of a picture, and the places of its columns along it.
ghost use Rattle.std.specs.Prelude.{◌≡◌, ◌+◌, ◌-◌, ◌*◌, ◌<◌, ◌≤◌, IfOk, length};
ghost use Rattle.std.specs.List.Sorted.{IsNonDecreasingBy};
ghost use Rattle.apex_types.specs.Limits.{latest};
ghost use Rattle.apex_pictures.specs.Axes.{behind_of, idle_width, places_of, ticks_before, ticks_width, time_of};
ghost use Rattle.apex_pictures.specs.declared.excerpts.TheConstants.{MOST_COLUMNS};

use crate::excerpts::Timed;
use apex_scales::Axis;
use std::alloc::{AllocError, Global};

/// The least distance from one column to the next, in pixels.
pub const COLUMN: u32 = 32;

/// The width of a tick along an axis of time, in pixels, if there is room for all of them.
pub const TICK: u32 = 8;

/// The most room that the ticks of a picture have, in pixels.
pub const MOST_ROOM: u32 = 32_000;

/// The width of these ticks, out of `all` ticks that are drawn.
fn ticks_width(all: u64, ticks: u64) -> u32
    requires within { ticks ≤ all }
    requires range { all ≤ latest }
    ensures value { result ≡ ticks_width all ticks }
    ensures range { result ≤ 32000 }
{
    let share = u64::from(MOST_ROOM) * ticks / all.max(1);
    share.min(u64::from(TICK) * ticks) as u32
}

/// The width of these ticks along an axis, out of `all` ticks that are drawn.
fn idle_width(axis: Axis, all: u64, ticks: u64) -> u32
    requires within { ticks ≤ all }
    requires range { all ≤ latest }
    ensures value { result ≡ idle_width axis all ticks }
    ensures range { result ≤ 32000 }
{
    match axis {
        Axis::Entries => 0,
        Axis::Time => ticks_width(all, ticks),
    }
}

/// The time of the entry behind `before` others of these, in ticks; 0 if there is no such entry.
pub(crate) fn time_of(entries: &[Timed], before: usize) -> u64
    ensures { result ≡ time_of entries.now before }
{
    match entries.get(before) {
        Some(entry) => entry.now,
        None => 0,
    }
}

/// The ticks from the first of these entries to the one behind `before` others.
fn ticks_before(entries: &[Timed], before: usize) -> u64
    ensures { result ≡ ticks_before entries.now before }
{
    time_of(entries, before).saturating_sub(time_of(entries, 0))
}

/// The place of the column behind this many others, before which there are these ticks, out of `all`.
fn place_at(axis: Axis, columns: u32, all: u64, ticks: u64) -> u32
    requires few { columns ≤ MOST_COLUMNS }
    requires within { ticks ≤ all }
    requires range { all ≤ latest }
    ensures value { result ≡ COLUMN * columns + idle_width axis all ticks }
    ensures range { result ≤ 100000 }
{
    COLUMN * columns + idle_width(axis, all, ticks)
}

/// The places of the columns of these entries, none of which is later than one behind it.
pub(crate) fn places_of(
    alloc: Global,
    axis: Axis,
    entries: &[Timed],
) -> Result<Vec<u32>, AllocError>
    requires few { length entries.now ≤ MOST_COLUMNS }
    requires rises { IsNonDecreasingBy (λ entry. entry.now) entries.now }
    requires range { time_of entries.now (length entries.now - 1) ≤ latest }
    ensures { IfOk result (λ places. places.items ≡ places_of axis entries.now) }
{
    let all = ticks_before(entries, entries.len().saturating_sub(1));
    let mut places = Vec::new(alloc);
    for before in 0..entries.len() {
        let ticks = ticks_before(entries, before);
        places.push(place_at(axis, before as u32, all, ticks))?;
    }
    Ok(places)
}

/// The place behind the last column of these entries.
pub(crate) fn behind_of(axis: Axis, entries: &[Timed]) -> u32
    requires few { length entries.now ≤ MOST_COLUMNS }
    requires range { time_of entries.now (length entries.now - 1) ≤ latest }
    ensures value { result ≡ behind_of axis entries.now }
    ensures range { result ≤ 200000 }
{
    let last = entries.len().saturating_sub(1);
    let all = ticks_before(entries, last);
    place_at(axis, last as u32, all, all) + COLUMN
}
