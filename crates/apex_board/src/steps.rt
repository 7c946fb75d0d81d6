//! The steps on a cell, under any rule. The prover takes far longer for a call of a cell whose rule it
//! knows.
ghost use Rattle.std.specs.Prelude.{◌≡◌, []};
ghost use Rattle.crossbeam_utils.specs.Seq.{cell_view};
ghost use Rattle.apex_board.specs.Access.{MayHear, MaySplit, MayTurn};
ghost use Rattle.apex_board.specs.Cells.{told_of};

use crate::law::{CellPass, CellUnder, Hearing, View};
use atomic_table::Split;
use crossbeam_utils::rule::{Outcome, Protocol};
use std::sync::Wait;

/// Keeps the left part of what is known, and gives the right one to a new pass.
pub(crate) fn split<L: Protocol<[u64; 3], View>, M: Split<View>>(
    cell: &CellUnder<L>,
    mark: &mut CellPass,
) -> CellPass
    requires own { mark.old.table_id ≡ cell.now.table.shared.table_id }
    requires rule { MaySplit L.holds (cell_view mark.old) (M.left (cell_view mark.old))
        (M.right (cell_view mark.old)) }
    ensures same { mark.new.table_id ≡ mark.old.table_id }
    ensures kept { cell_view mark.new ≡ M.left (cell_view mark.old) }
    ensures of { result.table_id ≡ mark.old.table_id }
    ensures given { cell_view result ≡ M.right (cell_view mark.old) }
    ensures whole { result.me.1 ≡ [] }
{
    cell.split_pass::<M>(mark)
}

/// Takes in what another pass knows, which `split` gave.
pub(crate) fn join<L: Protocol<[u64; 3], View>>(
    cell: &CellUnder<L>,
    mark: &mut CellPass,
    other: CellPass,
)
    requires own { mark.old.table_id ≡ cell.now.table.shared.table_id }
    requires of { other.table_id ≡ mark.old.table_id }
    requires whole { other.me.1 ≡ [] }
    requires rule { MayHear L.holds (cell_view mark.old) (cell_view other) }
    ensures same { mark.new.table_id ≡ mark.old.table_id }
    ensures kept { cell_view mark.new ≡ told_of (cell_view mark.old) (cell_view other) }
{
    cell.join_pass::<Hearing>(mark, other);
}

/// The words, whose read shows what `M` says. It promises only if it returns.
pub(crate) fn load<L: Protocol<[u64; 3], View>, M: Outcome<[u64; 3], View>, R: Wait>(
    cell: &CellUnder<L>,
    rt: &R,
    mark: &mut CellPass,
) -> [u64; 3]
    requires own { mark.old.table_id ≡ cell.now.table.shared.table_id }
    requires rule { MayTurn L.holds (cell_view mark.old) (λ words. words) M.then }
    ensures same { mark.new.table_id ≡ mark.old.table_id }
    ensures shown { M.then (cell_view mark.old) result result (cell_view mark.new) }
{
    cell.load_as::<M, R>(rt, mark)
}

/// Puts these words in place of those that are there, and gives those. It promises only if it returns.
pub(crate) fn swap<L: Protocol<[u64; 3], View>, M: Outcome<[u64; 3], View>, R: Wait>(
    cell: &CellUnder<L>,
    rt: &R,
    mark: &mut CellPass,
    words: [u64; 3],
) -> [u64; 3]
    requires own { mark.old.table_id ≡ cell.now.table.shared.table_id }
    requires rule { MayTurn L.holds (cell_view mark.old) (λ found. words) M.then }
    ensures same { mark.new.table_id ≡ mark.old.table_id }
    ensures shown { M.then (cell_view mark.old) result words (cell_view mark.new) }
{
    cell.swap_as::<M, R>(rt, mark, words)
}
