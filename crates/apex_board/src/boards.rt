//! The board: a new one, and the readers of a partition that opens.
ghost use Rattle.std.specs.Prelude.{◌≡◌, ◌+◌, ◌≤◌, [], None, IfOk, IfSome, MatchOption};
ghost use Rattle.apex_types.specs.declared.limits.TheConstants.{MOST_CORES};
ghost use Rattle.apex_board.specs.Boards.{HasPublished, most_readers};
ghost use Rattle.apex_board.specs.declared.boards.TheConstants.{MOST_READERS};

use crate::access::Access;
use crate::publishers::Publisher;
use crate::readers::Reader;
use apex_receipts::Naming;
use std::alloc::{AllocError, Global};
use std::marker::Model;

/// The most readers of a partition (this profile).
pub const MOST_READERS: u32 = 8;

/// Each limit is the number of this profile.
pub fn limits_of_the_profile()
    ensures { MOST_READERS ≡ 8 }
{}

/// The access to a cell that is not yet one of a partition.
#[derive(Drop)]
struct Unnamed {
    access: Access,
}

impl Model for Unnamed {
    ghost use Rattle.std.specs.Prelude.{◌≡◌};
    ghost use Rattle.atomic_table.specs.Seated.{TableId};
    ghost use Rattle.apex_board.specs.declared.law.View.TheVariants.{Blank};

    ghost Value = { TableId };

    ghost view = { λ u. u.access.cell };

    ghost invariant = { λ u. u.access.knows ≡ Blank };
}

impl Unnamed {
    fn new(alloc: Global) -> Result<Unnamed, AllocError> {
        Ok(Unnamed {
            access: Access::new(alloc)?,
        })
    }
}

/// A board on which nothing was published, for n readers (this profile). It is made before a
/// partition is named after its cell.
#[derive(Drop)]
pub struct NewBoard {
    cell: Option<Unnamed>,
    readers: u32,
}

impl Model for NewBoard {
    ghost use Rattle.std.specs.Prelude.{◌≡◌, ◌≤◌, None};
    ghost use Rattle.apex_board.specs.Boards.{Posts, most_readers};

    ghost Value = { Posts };

    ghost view = { λ b. record { cell = b.cell; readers = b.readers } };

    ghost invariant = { λ b. (b.readers ≤ most_readers) × (b.cell ≡ None → b.readers ≡ 0) };
}

impl NewBoard {
    /// The board of a partition that has no reader. It has no cell, and takes no memory.
    pub fn without_readers() -> NewBoard
        ensures { result ≡ record { cell = None; readers = 0 } }
    {
        NewBoard {
            cell: None,
            readers: 0,
        }
    }

    /// The board for n readers, n at most [`MOST_READERS`]. Fails only for want of memory.
    pub fn new(alloc: Global, readers: u32) -> Result<NewBoard, AllocError>
        requires { readers ≤ most_readers }
        ensures { IfOk result (λ board. board.readers ≡ readers) }
    {
        if readers == 0 {
            return Ok(NewBoard::without_readers());
        }
        Ok(NewBoard {
            cell: Some(Unnamed::new(alloc)?),
            readers,
        })
    }

    /// The publisher, if there are readers, and the board of the partition of n cores that is named
    /// after this one. Fails only for want of memory.
    pub fn into_parts<P: Naming>(
        self,
        alloc: Global,
        cores: usize,
    ) -> Result<(Option<Publisher<P>>, Board<P>), AllocError>
        requires cell { P.cell ≡ self.cell }
        requires cores { cores ≡ P.table.cores }
        requires few_cores { P.table.cores ≤ MOST_CORES }
        ensures publisher { IfOk result (λ parts. HasPublished P.cell [] parts.0) }
        ensures board { IfOk result (λ parts. parts.1 ≡ self.readers) }
    {
        let NewBoard { cell, readers } = self;
        let mut given = Vec::with_capacity(alloc, readers as usize)?;
        let Some(unnamed) = cell else {
            return Ok((None, Board { readers: given }));
        };
        let mut publisher = Publisher::new(unnamed.access);
        for number in 0..readers {
            given.push(publisher.reader(cores)?)?;
        }
        Ok((Some(publisher), Board { readers: given }))
    }
}

/// The readers of a partition that are not yet taken (this profile). Contracts see it as their number.
#[derive(Drop)]
pub struct Board<P: Naming> {
    readers: Vec<Reader<P>>,
}

impl<P: Naming> Model for Board<P> {
    ghost use Rattle.std.specs.Prelude.{◌≡◌, ℕ, [], List, All, length};
    ghost use Rattle.apex_types.specs.declared.entries.Entry.{Entry};

    ghost Value = { ℕ };

    ghost view = { λ b. length b.readers.items };

    ghost invariant = { λ b. All (λ (seen : List Entry). seen ≡ []) b.readers.items };
}

impl<P: Naming> Board<P> {
    /// A reader that has seen the empty history, or `None` if each was taken.
    pub fn take(&mut self) -> Option<Reader<P>>
        ensures given { MatchOption result (self.old ≡ 0) (λ reader. self.old ≡ self.new + 1) }
        ensures unread { IfSome result (λ reader. reader ≡ []) }
        ensures over { result ≡ None → self.new ≡ 0 }
    {
        self.readers.pop()
    }
}
