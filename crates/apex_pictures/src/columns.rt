//! The columns of a picture: the entries that have one, and their places.
ghost use Rattle.std.specs.Prelude.{◌≡◌, ◌+◌, ◌<◌, ◌≤◌, ◌^◌, IfOk};
ghost use Rattle.apex_pictures.specs.Axes.{HasColumns};
ghost use Rattle.apex_pictures.specs.Excerpts.{columns_of, first_number, last_number};
ghost use Rattle.apex_pictures.specs.Svg.{column_at, column_before, is_begun, shows};

use crate::axes::{behind_of, places_of, time_of};
use crate::excerpts::{Excerpt, Extent, Timed, first_number, is_unfolded, last_number};
use apex_dispatch::Kernel;
use apex_scales::Axis;
use apex_store::Store;
use apex_types::LentEntry;
use std::alloc::{AllocError, Global};

/// The columns of a picture.
#[derive(Drop)]
pub struct Columns {
    /// Whether eventless entries are folded: they have no column.
    pub(crate) fold: bool,
    /// The entries that have a column.
    pub drawn: Vec<Timed>,
    /// What is drawn, if more was asked for.
    pub excerpt: Option<Excerpt>,
    /// The place of each column, from the first one, in pixels.
    pub places: Vec<u32>,
    /// The place behind the last column.
    pub behind: u32,
}

/// The entries of a kernel's history that have a column in an extent, if there is room for all of them.
fn columns_of<S: Store>(
    alloc: Global,
    kernel: &Kernel<S>,
    extent: Extent,
) -> Result<Vec<Timed>, AllocError>
    ensures { IfOk result (λ columns. columns.items
        ≡ columns_of extent kernel.now.machine.history) }
{
    let mut columns = Vec::new(alloc);
    for entry in kernel.entries() {
        if extent.has_column(&entry) {
            columns.push(Timed::of(&entry))?;
        }
    }
    Ok(columns)
}

impl Columns {
    /// The columns of an extent of a kernel's history along an axis.
    pub(crate) fn new<S: Store>(
        alloc: Global,
        kernel: &Kernel<S>,
        axis: Axis,
        extent: Extent,
    ) -> Result<Columns, AllocError>
        ensures has { IfOk result (HasColumns axis extent kernel.now.machine.history) }
        ensures range { IfOk result (λ columns. columns.behind ≤ 200000) }
    {
        kernel.holds();
        let columns = columns_of(alloc, kernel, extent)?;
        let cut = extent.side.cut(columns.as_slice());
        let mut drawn = Vec::new(alloc);
        drawn.extend_from_slice(cut)?;
        Ok(Columns {
            fold: extent.fold,
            drawn,
            excerpt: extent
                .side
                .excerpt(columns.as_slice(), kernel.entries().len()),
            places: places_of(alloc, axis, cut)?,
            behind: behind_of(axis, cut),
        })
    }

    /// Whether the entry has a column that is drawn.
    pub(crate) fn shows(&self, entry: &LentEntry<'_>) -> bool
        ensures { result ≡ shows self.now entry.entry.now }
    {
        let drawn = self.drawn.as_slice();
        let within = first_number(drawn) <= entry.number && entry.number <= last_number(drawn);
        within && is_unfolded(self.fold, entry)
    }

    /// How many columns are before that of the entry of this number.
    pub(crate) fn before(&self, number: u32) -> usize
        ensures value { result ≡ column_before self.now number }
        ensures range { result < 2 ^ 63 }
    {
        let drawn = self.drawn.as_slice();
        drawn.iter().filter(|entry| entry.number < number).count()
    }

    /// The place of the column behind this many others, from the first one.
    pub(crate) fn at(&self, before: usize) -> u64
        ensures value { result ≡ column_at self.now before }
        ensures range { result < 2 ^ 32 }
    {
        match self.places.as_slice().get(before) {
            Some(place) => u64::from(*place),
            None => u64::from(self.behind),
        }
    }

    /// Whether the entry has the first column, or is later than that of the column before its own.
    pub(crate) fn is_begun(&self, entry: &LentEntry<'_>) -> bool
        ensures { result ≡ is_begun self.now entry.entry.now }
    {
        let before = self.before(entry.number);
        before == 0 || time_of(self.drawn.as_slice(), before - 1) < entry.now
    }
}
