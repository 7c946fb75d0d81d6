//! The history that a scribe has finished.
ghost use Rattle.std.specs.Prelude.{◌≡◌};
ghost use Rattle.apex_receipts.specs.Receipts.{IsAtItsPlace};

use crate::law::Known;
use crate::naming::Naming;
use crate::receipts::Receipt;
use std::marker::{Model, PhantomData};

/// A history that is finished. Contracts see it as its entries, the oldest first; the entries
/// themselves are kept elsewhere.
#[derive(Drop)]
pub struct Story<P: Naming> {
    pub(crate) seen: Known,
    pub(crate) of: PhantomData<P>,
}

impl<P: Naming> Model for Story<P> {
    ghost use Rattle.std.specs.Prelude.{◌≡◌, ◌≤◌, List};
    ghost use Rattle.apex_types.specs.declared.entries.Entry.{Entry};
    ghost use Rattle.apex_receipts.specs.Notes.{ends, entries_of};

    ghost Value = { List Entry };

    ghost view = { λ s. entries_of P.scribe s.seen.log };

    ghost invariant = { λ s. (s.seen.book ≡ P.book) × (1 ≤ ends P.scribe s.seen.log) };
}

impl<P: Naming> Story<P> {
    /// The receipt's entry is in the history, at its number and its place.
    pub fn confirm(&self, receipt: &Receipt<P>)
        ensures { IsAtItsPlace self.now receipt.now.entry receipt.now.place }
    {
        let mut all = self.seen.again();
        all.learn(&receipt.seen);
    }
}
