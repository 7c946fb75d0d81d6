//! A reader of a partition's fronts, which takes no lock.
ghost use Rattle.std.specs.Prelude.{◌≡◌, IsSome, Some};
ghost use mathlib.Core.List.{IsPrefix};
ghost use Rattle.apex_board.specs.Cells.{known_in};
ghost use Rattle.apex_board.specs.Fronts.{IsFrontAfter};
ghost use Rattle.apex_board.specs.declared.law.View.TheVariants.{Reads};

use crate::access::Access;
use crate::fronts::Front;
use crate::law::Reading;
use apex_receipts::Naming;
use std::marker::{Model, PhantomData};
use std::sync::Wait;

/// A reader of a partition's fronts, which never takes the partition's lock (this profile). Contracts see
/// it as the history that it has seen or was told of; it keeps none of its entries.
#[derive(Drop)]
pub struct Reader<P: Naming> {
    access: Access,
    cores: usize,
    of: PhantomData<P>,
}

impl<P: Naming> Model for Reader<P> {
    ghost use Rattle.std.specs.Prelude.{◌≡◌, List, Some};
    ghost use Rattle.apex_types.specs.declared.entries.Entry.{Entry};
    ghost use Rattle.apex_board.specs.Cells.{known_in};
    ghost use Rattle.apex_board.specs.declared.law.View.TheVariants.{Reads};

    ghost Value = { List Entry };

    ghost view = { λ r. known_in r.access.knows };

    ghost invariant = { λ r. (P.cell ≡ Some r.access.cell)
        × (r.access.knows ≡ Reads P.table (known_in r.access.knows))
        × (r.cores ≡ P.table.cores) };
}

impl<P: Naming> Reader<P> {
    /// The reader with this access to the partition's cell.
    pub(crate) fn new(access: Access, cores: usize) -> Reader<P>
        requires name { P.cell ≡ Some access.cell }
        requires knows { access.knows ≡ Reads P.table (known_in access.knows) }
        requires cores { cores ≡ P.table.cores }
        ensures { result ≡ known_in access.knows }
    {
        Reader {
            access,
            cores,
            of: PhantomData,
        }
    }

    /// The number of the partition's cores.
    pub(crate) fn cores(&self) -> usize
        ensures { result ≡ P.table.cores }
    {
        self.cores
    }

    /// Its partition has a cell.
    pub fn is_of_a_cell(&self)
        ensures { IsSome P.cell }
    {
        let _cores = self.cores;
    }

    /// Its access.
    pub(crate) fn into_access(self) -> Access
        ensures name { P.cell ≡ Some result.cell }
        ensures knows { result.knows ≡ Reads P.table self }
    {
        let Reader {
            access,
            cores: _,
            of: _,
        } = self;
        access
    }

    /// The front of the partition after some event: that of the last state of a run of the table, for
    /// some list of events. The history of that run has each history that this reader saw before, or was
    /// told of, as a prefix.
    ///
    /// It never takes the partition's lock, and tries again while a front is being published. It promises
    /// only if it returns.
    pub fn read<R: Wait>(&mut self, rt: &R) -> Front
        ensures later { IsPrefix self.old self.new }
        ensures front { IsFrontAfter P.table self.new result }
    {
        let words = self.access.load::<Reading, R>(rt);
        Front::from_words(&words, self.cores)
    }
}
