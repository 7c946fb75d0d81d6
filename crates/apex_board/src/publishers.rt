//! The publisher of a partition's fronts, under its lock.
ghost use Rattle.std.specs.Prelude.{◌≡◌, ◌≤◌, [], ◌∷◌, ◌++◌, IfOk, Some};
ghost use Rattle.apex_types.specs.declared.limits.TheConstants.{MOST_CORES};
ghost use mathlib.Core.List.{IsPrefix};
ghost use Rattle.apex_board.specs.Fronts.{FitsWords, IsFrontAfter, Shows};
ghost use Rattle.apex_board.specs.declared.law.View.TheVariants.{Blank};

use crate::access::Access;
use crate::fronts::Front;
use crate::law::{Adding, Finding, Next, Opening, Telling};
use crate::readers::Reader;
use apex_receipts::Naming;
use apex_types::Entry;
use std::alloc::AllocError;
use std::marker::{Brand, Model, PhantomData};
use std::sync::Wait;

/// The publisher of a partition's fronts (this profile). Contracts see it as the history after which it
/// has published; it keeps none of the entries.
#[derive(Drop)]
pub struct Publisher<P: Naming> {
    access: Access,
    of: PhantomData<P>,
}

impl<P: Naming> Model for Publisher<P> {
    ghost use Rattle.std.specs.Prelude.{◌≡◌, List, Some};
    ghost use Rattle.apex_types.specs.declared.entries.Entry.{Entry};
    ghost use Rattle.apex_board.specs.Cells.{known_in, told_in};
    ghost use Rattle.apex_board.specs.declared.law.View.TheVariants.{Publishes};

    ghost Value = { List Entry };

    ghost view = { λ p. known_in p.access.knows };

    ghost invariant = { λ p. (P.cell ≡ Some p.access.cell)
        × (p.access.knows
        ≡ Publishes P.table (known_in p.access.knows) (told_in p.access.knows)) };
}

/// Publishes the words of the front after one entry more. `X` names the history with it.
fn publish_as<P: Naming, X: Next, R: Wait>(
    rt: &R,
    publisher: &mut Publisher<P>,
    words: [u64; 3],
    _latest: &Entry,
)
    requires named { X.history ≡ publisher.old ++ _latest.now ∷ [] }
    requires shows { Shows P.table X.history words }
    ensures { publisher.new ≡ publisher.old ++ _latest.entry.now ∷ [] }
{
    publisher.access.swap::<Adding<X>, R>(rt, words);
}

impl<P: Naming> Publisher<P> {
    /// The publisher of a partition that opens, with the access to its cell.
    pub(crate) fn new(mut access: Access) -> Publisher<P>
        requires name { P.cell ≡ Some access.cell }
        requires blank { access.knows ≡ Blank }
        requires few_cores { P.table.cores ≤ MOST_CORES }
        ensures { result ≡ [] }
    {
        let _nobody = access.split::<Opening<P>>();
        Publisher {
            access,
            of: PhantomData,
        }
    }

    /// A reader that has seen the published history. Fails only for want of memory.
    pub(crate) fn reader(&mut self, cores: usize) -> Result<Reader<P>, AllocError>
        requires { cores ≡ P.table.cores }
        ensures same { self.new ≡ self.old }
        ensures reader { IfOk result (λ reader. reader ≡ self.old) }
    {
        let access = self.access.share::<Telling>()?;
        Ok(Reader::new(access, cores))
    }

    /// Publishes the front after one entry more. It promises only if it returns.
    pub fn publish<R: Wait>(&mut self, rt: &R, front: &Front, entry: &Entry)
        requires after { IsFrontAfter P.table (self.old ++ entry.now ∷ []) front.now }
        requires fits { FitsWords front.now }
        ensures { self.new ≡ self.old ++ entry.entry.now ∷ [] }
    {
        publish_as::<P, Brand, R>(rt, self, front.to_words(), entry);
    }

    /// Gives a reader the front after the whole published history, which the reader has seen from then
    /// on. The history that it had seen is a prefix of that. It promises only if it returns.
    pub fn tell<R: Wait>(&mut self, rt: &R, reader: Reader<P>) -> (Front, Reader<P>)
        ensures same { self.new ≡ self.old }
        ensures saw { IsPrefix reader self.old }
        ensures front { IsFrontAfter P.table self.old result.0 }
        ensures told { result.1 ≡ self.old }
    {
        let cores = reader.cores();
        let cell = self.access.hear(reader.into_access());
        let words = self.access.load::<Finding, R>(rt);
        let access = self.access.give::<Telling>(cell);
        (Front::from_words(&words, cores), Reader::new(access, cores))
    }
}
