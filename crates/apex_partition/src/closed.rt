//! A partition that was closed.
ghost use Rattle.std.specs.Prelude.{◌≡◌, ◌≤◌, All, length};
ghost use mathlib.Core.List.{IsPrefix};
ghost use Rattle.apex_board.specs.Boards.{HasPublished};
ghost use Rattle.apex_board.specs.Fronts.{IsFrontAfter};
ghost use Rattle.apex_receipts.specs.Receipts.{IsAtItsPlace};
ghost use Rattle.apex_calls.specs.Lines.{IsPrintable};

use crate::partitions::Partition;
use apex_board::{Front, Publisher, Reader};
use apex_configs::Table;
use apex_history::Entries;
use apex_receipts::{Naming, Receipt, Story};
use apex_types::LentEntry;
use std::marker::Model;
use std::sync::Wait;

/// A partition to whose history nothing will be added. Contracts see it as that history.
#[derive(Drop)]
pub struct Closed<P: Naming> {
    partition: Partition,
    story: Story<P>,
    publisher: Option<Publisher<P>>,
}

impl<P: Naming> Model for Closed<P> {
    ghost use Rattle.std.specs.Prelude.{◌≡◌, List};
    ghost use Rattle.apex_types.specs.declared.entries.Entry.{Entry};
    ghost use Rattle.apex_board.specs.Boards.{HasPublished};

    ghost Value = { List Entry };

    ghost view = { λ c. c.story };

    ghost invariant = { λ c. (c.partition.table ≡ P.table) × (c.story ≡ c.partition.machine.history)
        × HasPublished P.cell c.story c.publisher };
}

impl<P: Naming> Closed<P> {
    /// The closed partition of this history, which its scribe has finished and, if it has readers,
    /// its publisher has published.
    pub(crate) fn new(
        partition: Partition,
        story: Story<P>,
        publisher: Option<Publisher<P>>,
    ) -> Closed<P>
        requires table { partition.table ≡ P.table }
        requires history { story ≡ partition.machine.history }
        requires publisher { HasPublished P.cell partition.machine.history publisher }
        ensures { result ≡ partition.machine.history }
    {
        Closed {
            partition,
            story,
            publisher,
        }
    }

    /// The table that the partition was opened with.
    pub fn table(&self) -> &Table
        ensures { result.now ≡ P.table }
    {
        self.partition.table()
    }

    /// The history, the oldest entry first.
    pub fn entries(&self) -> Entries<'_>
        ensures { result ≡ self.now }
    {
        self.partition.entries()
    }

    /// The entry of this receipt, as the history has it: it is there at its number, and the
    /// receipt's place is its number among the entries of its core or of the ticker.
    pub fn confirm(&self, receipt: &Receipt<P>) -> LentEntry<'_>
        ensures entry { result ≡ receipt.now.entry }
        ensures placed { IsAtItsPlace self.now receipt.now.entry receipt.now.place }
    {
        self.story.confirm(receipt);
        self.partition.entry(receipt.entry().number as usize - 1)
    }

    /// Tells a reader of the whole history: the front after it, and the reader, which has seen it.
    /// What the reader had seen is a prefix of it. It promises only if it returns.
    pub fn tell<R: Wait>(&mut self, rt: &R, reader: Reader<P>) -> (Front, Reader<P>)
        ensures same { self.new ≡ self.old }
        ensures saw { IsPrefix reader self.old }
        ensures front { IsFrontAfter P.table self.old result.0 }
        ensures told { result.1 ≡ self.old }
    {
        reader.is_of_a_cell();
        match &mut self.publisher {
            Some(publisher) => publisher.tell(rt, reader),
            None => unreachable!(),
        }
    }

    /// The history is within the table's limit, and the ids that its entries name are the table's:
    /// so each of them can be printed.
    pub fn holds(&self)
        ensures within { length self.now ≤ P.table.limit }
        ensures printable { All (IsPrintable P.table) self.now }
    {
        self.partition.stays_within();
    }

    /// The partition itself, which is no longer named after anything.
    pub fn into_partition(self) -> Partition
        ensures table { result.table ≡ P.table }
        ensures history { result.machine.history ≡ self }
    {
        self.partition
    }
}
