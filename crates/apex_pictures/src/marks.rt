//! The mark of a departure.
ghost use Rattle.std.specs.Prelude.{◌≡◌, ◌+◌, length, max, min};
ghost use Rattle.apex_pictures.specs.declared.marks.TheConstants.{MOST_LETTERS};

/// The most letters of a line of a mark for which a picture is made wider.
const MOST_LETTERS: usize = 20_000;

/// The mark of the place at which a history departs from what the partition does: the two lines, as
/// they are shown.
#[derive(Drop)]
pub struct Mark {
    /// The line that the machine expects.
    pub expected: Vec<u8>,
    /// The line that was given.
    pub given: Vec<u8>,
}

impl Mark {
    /// The number of letters of the longer line and of the longer word before a line,
    /// [`MOST_LETTERS`] at the most.
    pub(crate) fn letters(&self) -> u32
        ensures { result ≡ min (max (length self.now.expected.items)
            (length self.now.given.items) + 10) MOST_LETTERS }
    {
        let longer = self.expected.len().max(self.given.len());
        longer.saturating_add(10).min(MOST_LETTERS) as u32
    }
}
