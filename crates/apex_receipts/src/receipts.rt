//! The receipt that an entry gives its maker.
ghost use Rattle.std.specs.Prelude.{◌≡◌};

use crate::law::Known;
use crate::naming::Naming;
use apex_types::Entry;
use std::marker::{Model, PhantomData};

/// An entry of the history, and its place among those of its core or of the ticker, counted from 1
/// (this profile). Only the scribe makes one.
#[derive(Drop)]
pub struct Receipt<P: Naming> {
    pub(crate) entry: Entry,
    pub(crate) place: u32,
    /// The history with this entry as its last one.
    pub(crate) seen: Known,
    pub(crate) of: PhantomData<P>,
}

impl<P: Naming> Model for Receipt<P> {
    ghost use Rattle.std.specs.Prelude.{◌≡◌};
    ghost use Rattle.apex_receipts.specs.Notes.{ends, entries_of};
    ghost use Rattle.apex_receipts.specs.Receipts.{Confirmed, IsAtItsPlace};

    ghost Value = { Confirmed };

    ghost view = { λ r. record { entry = r.entry; place = r.place } };

    ghost invariant = { λ r. (r.seen.book ≡ P.book)
        × IsAtItsPlace (entries_of P.scribe r.seen.log) r.entry r.place
        × (ends P.scribe r.seen.log ≡ 0) };
}

impl<P: Naming> Receipt<P> {
    /// The entry.
    pub fn entry(&self) -> &Entry
        ensures { result.now ≡ self.now.entry }
    {
        &self.entry
    }

    /// Its place among the entries of its core or of the ticker, counted from 1.
    pub fn place(&self) -> u32
        ensures { result ≡ self.now.place }
    {
        self.place
    }
}
