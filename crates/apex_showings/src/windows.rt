//! The window of a history: its entries from a bound to a bound.
ghost use Rattle.std.specs.Prelude.{◌≡◌};
ghost use Rattle.apex_showings.specs.Windows.{empty_in, has_time, is_from, is_in, is_to, range_in, widened};

use apex_dispatch::Kernel;
use apex_store::Store;
use apex_types::LentEntry;

/// A bound of a window.
#[derive(Clone, Copy)]
pub enum Bound {
    /// The entry of this number, from 1.
    Entry(u32),
    /// A time in ticks.
    Time(u64),
}

/// The entries of a history that are not before a bound, and not behind another one.
#[derive(Clone, Copy)]
pub struct Window {
    /// The bound before which no entry of the window is.
    pub first: Bound,
    /// The bound behind which no entry of the window is.
    pub last: Bound,
}

/// The numbers of the first entry of a window and of the last one.
#[derive(Clone, Copy)]
pub struct EntryRange {
    /// The number of the first entry in the history, counted from 1.
    pub first: u32,
    /// The number of the last entry, which is in the window, too.
    pub last: u32,
}

/// A window in which a run has no entry, or none but idle ones.
#[derive(Clone, Copy)]
pub struct EmptyWindow {
    /// The window that was asked for.
    pub window: Window,
    /// Whether idle entries are folded.
    pub fold: bool,
    /// The number of entries of the run.
    pub entries: usize,
    /// The time at its end, in ticks.
    pub now: u64,
}

/// Whether an entry is not before a bound.
fn is_from(bound: Bound, entry: &LentEntry<'_>) -> bool
    ensures { result ≡ is_from bound entry.entry.now }
{
    match bound {
        Bound::Entry(number) => number <= entry.number,
        Bound::Time(time) => time <= entry.now,
    }
}

/// Whether an entry is not behind a bound.
fn is_to(bound: Bound, entry: &LentEntry<'_>) -> bool
    ensures { result ≡ is_to bound entry.entry.now }
{
    match bound {
        Bound::Entry(number) => entry.number <= number,
        Bound::Time(time) => entry.now <= time,
    }
}

/// The range, up to the number of this entry.
fn widened(range: Option<EntryRange>, entry: &LentEntry<'_>) -> EntryRange
    ensures { result ≡ widened range entry.entry.now.number }
{
    match range {
        Some(range) => EntryRange {
            first: range.first,
            last: entry.number,
        },
        None => EntryRange {
            first: entry.number,
            last: entry.number,
        },
    }
}

impl Window {
    /// Whether an entry is in the window.
    fn has(self, entry: &LentEntry<'_>) -> bool
        ensures { result ≡ is_in self entry.entry.now }
    {
        is_from(self.first, entry) && is_to(self.last, entry)
    }

    /// Whether a bound is a time.
    pub fn has_time(self) -> bool
        ensures { result ≡ has_time self }
    {
        matches!(self.first, Bound::Time(_)) || matches!(self.last, Bound::Time(_))
    }

    /// The numbers of the first entry of a kernel's history that is in the window, and of the last
    /// one. None if none is.
    pub fn range_in<S: Store>(self, kernel: &Kernel<S>) -> Option<EntryRange>
        ensures { result ≡ range_in self kernel.now.machine.history }
    {
        let mut range = None;
        for entry in kernel.entries() {
            if self.has(&entry) {
                range = Some(widened(range, &entry));
            }
        }
        range
    }

    /// The window, in which a kernel's history has no entry, or none but idle ones if these are folded.
    pub fn empty_in<S: Store>(self, fold: bool, kernel: &Kernel<S>) -> EmptyWindow
        ensures { result ≡ empty_in self fold kernel.now.machine }
    {
        EmptyWindow {
            window: self,
            fold,
            entries: kernel.entries().len(),
            now: kernel.now(),
        }
    }
}
