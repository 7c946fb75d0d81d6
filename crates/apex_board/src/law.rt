//! The cell in which fronts are published, its rule, and the steps that are made on it.

use apex_configs::Table;
use apex_receipts::Naming;
use apex_types::Entry;
use atomic_table::{Join, Split};
use crossbeam_utils::atomic::seq_cell::{Pass, RuledSeqCell};
use crossbeam_utils::rule::{Outcome, Protocol};
use std::marker::{Brand, Model, PhantomData};

/// A history that a pass knows. It is for proofs alone: no code makes one.
pub struct History {
    entries: Vec<Entry>,
}

impl Model for History {
    ghost use Rattle.std.specs.Prelude.{List};
    ghost use Rattle.apex_types.specs.declared.entries.Entry.{Entry};

    ghost Value = { List Entry };

    ghost view = { λ h. h.entries.items };
}

/// The knowledge of a pass. It is for proofs alone: no code makes one.
pub enum View {
    /// Nothing: the cell is not yet one of a partition.
    Blank,
    /// The publisher knows its table and its whole history, and the history that a reader has seen.
    Publishes(Table, History, History),
    /// A reader knows its table and the history that it has seen.
    Reads(Table, History),
    /// A pass that is out of use.
    Spent,
}

/// The rule of the cell.
pub struct Law;

impl Protocol<[u64; 3], View> for Law {
    ghost use Rattle.apex_board.specs.Cells.{IsKept};
    ghost use Rattle.apex_board.specs.declared.law.View.TheVariants.{Blank};

    ghost holds = { IsKept };

    ghost first = { Blank };
}

/// The words of one front under a rule.
pub type CellUnder<L> = RuledSeqCell<[u64; 3], View, L, 3>;

/// The words of one front under the rule, which several readers may read at the same time.
pub type Cell = CellUnder<Law>;

/// The pass with which a step on the cell is made.
pub type CellPass = Pass<[u64; 3], View>;

/// A reader reads.
pub struct Reading;

impl Outcome<[u64; 3], View> for Reading {
    ghost use Rattle.apex_board.specs.Cells.{Sees};

    ghost then = { λ before words same after. Sees before words after };
}

/// The publisher reads.
pub struct Finding;

impl Outcome<[u64; 3], View> for Finding {
    ghost use Rattle.apex_board.specs.Cells.{Finds};

    ghost then = { λ before words same after. Finds before words after };
}

/// The history that a publisher will have.
pub trait Next {
    ghost use Rattle.std.specs.Prelude.{List};
    ghost use Rattle.apex_types.specs.declared.entries.Entry.{Entry};

    ghost history: { List Entry };
}

impl Next for Brand {
    ghost use Rattle.std.specs.Prelude.{[]};

    ghost history = { [] };
}

/// The publisher publishes the front after this history.
pub struct Adding<X> {
    next: PhantomData<X>,
}

impl<X: Next> Outcome<[u64; 3], View> for Adding<X> {
    ghost use Rattle.apex_board.specs.Cells.{Adds};

    ghost then = { λ before found words after. Adds X.history before after };
}

/// The cell becomes one of a partition that opens.
pub struct Opening<P> {
    of: PhantomData<P>,
}

impl<P: Naming> Split<View> for Opening<P> {
    ghost use Rattle.std.specs.Prelude.{[]};
    ghost use Rattle.apex_board.specs.declared.law.View.TheVariants.{Publishes, Spent};

    ghost left = { λ view. Publishes P.table [] [] };

    ghost right = { λ view. Spent };
}

/// A new reader gets the knowledge of the publisher.
pub struct Telling;

impl Split<View> for Telling {
    ghost use Rattle.apex_board.specs.Cells.{reader_of};

    ghost left = { λ view. view };

    ghost right = { reader_of };
}

/// The whole knowledge goes into the new pass.
pub struct Leaving;

impl Split<View> for Leaving {
    ghost use Rattle.apex_board.specs.declared.law.View.TheVariants.{Spent};

    ghost left = { λ view. Spent };

    ghost right = { λ view. view };
}

/// The publisher gets to know the history that a reader has seen.
pub struct Hearing;

impl Join<View> for Hearing {
    ghost use Rattle.apex_board.specs.Cells.{told_of};
    ghost use Rattle.apex_board.specs.declared.law.View.TheVariants.{Spent};

    ghost both = { told_of };

    ghost spent = { Spent };
}
