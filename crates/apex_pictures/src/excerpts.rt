//! What a picture shows of the entries that it is asked to show.
ghost use Rattle.std.specs.Prelude.{◌≡◌, ◌≤◌, length};
ghost use Rattle.apex_pictures.specs.Excerpts.{cut, excerpt_in, first_number, has_column, is_eventless, is_unfolded, last_number, left_out, timed};
ghost use Rattle.apex_pictures.specs.declared.excerpts.TheConstants.{MOST_COLUMNS};

use apex_types::LentEntry;

/// The most columns that are drawn as SVG.
pub const MOST_COLUMNS: u32 = 2_000;

/// The side of an extent on which columns are drawn, if it has more than [`MOST_COLUMNS`].
#[derive(Clone, Copy, PartialEq, Eq)]
pub enum Side {
    /// The first columns are drawn.
    First,
    /// The last columns are drawn.
    Last,
}

/// The entries that a picture is asked to show.
#[derive(Clone, Copy)]
pub struct Extent {
    /// The number of the first entry.
    pub first: u32,
    /// The number of the last one.
    pub last: u32,
    /// The side on which columns are drawn, if they are too many.
    pub side: Side,
    /// Whether eventless entries are folded: they have no column.
    pub fold: bool,
}

/// The entries of a run that a picture shows, of which more were asked for.
#[derive(Clone, Copy)]
pub struct Excerpt {
    /// The number of the first entry that has a column.
    pub first: u32,
    /// The number of the last one.
    pub last: u32,
    /// The number of entries of the run.
    pub entries: usize,
}

/// An entry that has a column.
#[derive(Clone, Copy)]
pub struct Timed {
    /// Its number in the history, counted from 1.
    pub number: u32,
    /// In ticks.
    pub now: u64,
}

/// Whether the entry is an idle turn, or a tick at which nothing happens.
fn is_eventless(entry: &LentEntry<'_>) -> bool
    ensures { result ≡ is_eventless entry.entry.now }
{
    entry.call.is_none() && entry.notices.is_empty()
}

/// Whether the entry is not folded.
pub(crate) fn is_unfolded(fold: bool, entry: &LentEntry<'_>) -> bool
    ensures { result ≡ is_unfolded fold entry.entry.now }
{
    !(fold && is_eventless(entry))
}

impl Timed {
    /// The number and the time of an entry.
    pub(crate) fn of(entry: &LentEntry<'_>) -> Timed
        ensures { result ≡ timed entry.entry.now }
    {
        Timed {
            number: entry.number,
            now: entry.now,
        }
    }
}

impl Extent {
    /// Whether the entry has a column, if there is room for all of them.
    pub(crate) fn has_column(self, entry: &LentEntry<'_>) -> bool
        ensures { result ≡ has_column self entry.entry.now }
    {
        let within = self.first <= entry.number && entry.number <= self.last;
        within && is_unfolded(self.fold, entry)
    }
}

impl Side {
    /// How many of these columns come before those that are drawn.
    fn left_out(self, columns: usize) -> usize
        ensures value { result ≡ left_out self columns }
        ensures within { result ≤ columns }
    {
        match self {
            Side::First => 0,
            Side::Last => columns.saturating_sub(MOST_COLUMNS as usize),
        }
    }

    /// Those of these columns that are drawn, [`MOST_COLUMNS`] at the most.
    pub(crate) fn cut(self, columns: &[Timed]) -> &[Timed]
        ensures value { result.now ≡ cut self columns.now }
        ensures few { length result.now ≤ MOST_COLUMNS }
    {
        let (_, behind) = columns.split_at(self.left_out(columns.len()));
        let (drawn, _) = behind.split_at((MOST_COLUMNS as usize).min(behind.len()));
        drawn
    }

    /// What is drawn of these columns, in a run of `entries` entries. None if all of them are.
    pub(crate) fn excerpt(self, columns: &[Timed], entries: usize) -> Option<Excerpt>
        ensures { result ≡ excerpt_in self columns.now entries }
    {
        if columns.len() <= MOST_COLUMNS as usize {
            return None;
        }
        let drawn = self.cut(columns);
        Some(Excerpt {
            first: first_number(drawn),
            last: last_number(drawn),
            entries,
        })
    }
}

/// The number of the first of these entries; 0 if there is none.
pub(crate) fn first_number(entries: &[Timed]) -> u32
    ensures { result ≡ first_number entries.now }
{
    match entries.first() {
        Some(entry) => entry.number,
        None => 0,
    }
}

/// The number of the last of these entries; 0 if there is none.
pub(crate) fn last_number(entries: &[Timed]) -> u32
    ensures { result ≡ last_number entries.now }
{
    match entries.last() {
        Some(entry) => entry.number,
        None => 0,
    }
}
