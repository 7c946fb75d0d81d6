//! An access to the cell, and the steps that it makes there.
ghost use Rattle.std.specs.Prelude.{◌≡◌, [], IfErr, IfOk};
ghost use Rattle.std.specs.Arc.{arc_value};
ghost use Rattle.crossbeam_utils.specs.Seq.{cell_view};
ghost use Rattle.apex_board.specs.Access.{MayHear, MaySplit, MayTurn};
ghost use Rattle.apex_board.specs.Cells.{IsKept, told_of};
ghost use Rattle.apex_board.specs.declared.law.View.TheVariants.{Blank, Spent};

use crate::law::{Cell, CellPass, Law, Leaving, View};
use crate::steps;
use atomic_table::Split;
use crossbeam_utils::rule::Outcome;
use std::alloc::{AllocError, Global};
use std::marker::Model;
use std::sync::{Arc, Wait};

/// An access to the cell: the cell, and the pass with which steps on it are made. Contracts see it as the
/// name of the cell, and as what the pass knows.
#[derive(Drop)]
pub(crate) struct Access {
    cell: Arc<Cell, Global>,
    mark: CellPass,
}

impl Model for Access {
    ghost use Rattle.std.specs.Prelude.{◌≡◌};
    ghost use Rattle.std.specs.Arc.{arc_value};
    ghost use Rattle.crossbeam_utils.specs.Seq.{cell_view};
    ghost use Rattle.apex_board.specs.Access.{Held};

    ghost Value = { Held };

    ghost view = { λ a. record { cell = a.mark.table_id; knows = cell_view a.mark } };

    ghost invariant = { λ a. a.mark.table_id ≡ (arc_value a.cell).table.shared.table_id };
}

impl Access {
    /// The access to a new cell, which is not yet one of a partition. Fails only for want of memory.
    pub(crate) fn new(alloc: Global) -> Result<Access, AllocError>
        ensures { IfOk result (λ access. access.knows ≡ Blank) }
    {
        let (cell, mark) = Cell::ruled(alloc, [0, 0, 0])?;
        Ok(Access {
            cell: Arc::new(alloc, cell)?,
            mark,
        })
    }

    /// Its cell.
    fn cell(&self) -> &Arc<Cell, Global>
        ensures { (arc_value result.now).table.shared.table_id ≡ self.now.cell }
    {
        &self.cell
    }

    /// Keeps the left part of what is known, and gives the right one to a new pass.
    pub(crate) fn split<M: Split<View>>(&mut self) -> CellPass
        requires { MaySplit IsKept self.old.knows (M.left self.old.knows) (M.right self.old.knows) }
        ensures kept { self.new ≡ record { cell = self.old.cell; knows = M.left self.old.knows } }
        ensures of { result.table_id ≡ self.old.cell }
        ensures given { cell_view result ≡ M.right self.old.knows }
        ensures whole { result.me.1 ≡ [] }
    {
        steps::split::<Law, M>(&self.cell, &mut self.mark)
    }

    /// Keeps the left part of what is known, and gives the right one to an access through this handle of
    /// the cell.
    pub(crate) fn give<M: Split<View>>(&mut self, cell: Arc<Cell, Global>) -> Access
        requires same { (arc_value cell).table.shared.table_id ≡ self.old.cell }
        requires rule { MaySplit IsKept self.old.knows
            (M.left self.old.knows) (M.right self.old.knows) }
        ensures kept { self.new ≡ record { cell = self.old.cell; knows = M.left self.old.knows } }
        ensures given { result ≡ record { cell = self.old.cell; knows = M.right self.old.knows } }
    {
        let mark = self.split::<M>();
        Access { cell, mark }
    }

    /// Keeps the left part of what is known, and gives the right one to a new access. Fails only for
    /// want of memory.
    pub(crate) fn share<M: Split<View>>(&mut self) -> Result<Access, AllocError>
        requires { MaySplit IsKept self.old.knows (M.left self.old.knows) (M.right self.old.knows) }
        ensures kept { IfOk result (λ access.
            self.new ≡ record { cell = self.old.cell; knows = M.left self.old.knows }) }
        ensures given { IfOk result (λ access.
            access ≡ record { cell = self.old.cell; knows = M.right self.old.knows }) }
        ensures refused { IfErr result (λ fault. self.new ≡ self.old) }
    {
        let cell = Arc::try_clone(self.cell())?;
        Ok(self.give::<M>(cell))
    }

    /// Takes in what another access to the same cell knows, and gives its handle of the cell.
    pub(crate) fn hear(&mut self, mut other: Access) -> Arc<Cell, Global>
        requires same { other.cell ≡ self.old.cell }
        requires leaves { MaySplit IsKept other.knows Spent other.knows }
        requires hears { MayHear IsKept self.old.knows other.knows }
        ensures kept { self.new
            ≡ record { cell = self.old.cell; knows = told_of self.old.knows other.knows } }
        ensures cell { (arc_value result).table.shared.table_id ≡ self.old.cell }
    {
        let given = other.split::<Leaving>();
        steps::join::<Law>(&self.cell, &mut self.mark, given);
        let Access { cell, mark: _ } = other;
        cell
    }

    /// The words, whose read shows what `M` says. It promises only if it returns.
    pub(crate) fn load<M: Outcome<[u64; 3], View>, R: Wait>(&mut self, rt: &R) -> [u64; 3]
        requires { MayTurn IsKept self.old.knows (λ words. words) M.then }
        ensures same { self.new.cell ≡ self.old.cell }
        ensures shown { M.then self.old.knows result result self.new.knows }
    {
        steps::load::<Law, M, R>(&self.cell, rt, &mut self.mark)
    }

    /// Puts these words in place of those that are there, and gives those. It promises only if it returns.
    pub(crate) fn swap<M: Outcome<[u64; 3], View>, R: Wait>(
        &mut self,
        rt: &R,
        words: [u64; 3],
    ) -> [u64; 3]
        requires { MayTurn IsKept self.old.knows (λ found. words) M.then }
        ensures same { self.new.cell ≡ self.old.cell }
        ensures shown { M.then self.old.knows result words self.new.knows }
    {
        steps::swap::<Law, M, R>(&self.cell, rt, &mut self.mark, words)
    }
}
