//! The number of nodes and records that have been looked at.
use std::cell::Cell;

/// A count that goes up by one at each visit, and stays at the greatest `u64`. No contract speaks
/// of it.
#[derive(Drop)]
pub struct Visits {
    /// The number of visits, less 2^64 each time that it went past the greatest `u64`: a sum that
    /// stays there takes more instructions.
    count: Cell<u64>,
    /// It went past the greatest `u64`.
    is_past: Cell<bool>,
}

impl Visits {
    /// No visit so far.
    pub fn new() -> Visits {
        Visits {
            count: Cell::new(0),
            is_past: Cell::new(false),
        }
    }

    /// One visit more.
    pub fn note(&self) {
        self.note_all(1);
    }

    /// As many visits more.
    pub fn note_all(&self, count: usize) {
        let (sum, wraps) = self.count.get().overflowing_add(count as u64);
        self.count.set(sum);
        if wraps {
            self.is_past.set(true);
        }
    }

    /// The number of visits.
    pub fn count(&self) -> u64 {
        if self.is_past.get() {
            u64::MAX
        } else {
            self.count.get()
        }
    }
}
