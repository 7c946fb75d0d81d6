//! The check of a text: its verdict, read and written.
ghost use Rattle.std.specs.Prelude.{◌≡◌, IfErr, IfOk, List, OnErr, OnOk, Result, ℕ};
ghost use Rattle.std.specs.Fn.{FnOnceReturnsAt};
ghost use Rattle.std.specs.Io.KnownBytes.{Appends};
ghost use Rattle.std.specs.declared.alloc.AllocError.{AllocError as AllocErrorOf};
ghost use Rattle.apex_machine.specs.processes.Roster.{opening_roster};
ghost use Rattle.apex_machine.specs.table.Table as tables;
ghost use Rattle.apex_history.specs.Counted.{inner_of, failures_of, CountsFailure, AppendsBeginning};
ghost use Rattle.apex_history.specs.Ports.{ports};
ghost use Rattle.apex_incoming.specs.Ahead.{IsAhead};
ghost use Rattle.apex_check.specs.Checks.{Checks};
ghost use Rattle.apex_check.specs.Faults.{CountsCheck, IsFaultOf};
ghost use Rattle.apex_check.specs.Legal.{SaysLegal};
ghost use Rattle.apex_check.specs.Steps.{IsTellable};
ghost use Rattle.apex_check.specs.Verdicts.{HasFollowed, verdict_text};

use crate::following::judge;
use crate::tables::leading_table;
use crate::verdicts::{CheckFault, Verdict, verdict_text};
use apex_configs::Table;
use apex_dispatch::Kernel;
use apex_history::{Counted, Sink, Source};
use apex_incoming::Pending;
use apex_store::{PlainStore, Store};
use std::alloc::{AllocError, Global};
use std::io::{self, Write};

/// A history that was followed: the verdict on it, and the kernel that gave it.
#[derive(Drop)]
pub struct Followed<S: Store> {
    /// The verdict on the lines.
    pub verdict: Verdict,
    /// The kernel after the events of the lines that are the machine's, and of the line that
    /// departs from its entry.
    pub kernel: Kernel<S>,
}

/// Follows a printed history: the text has a table, the line `%%`, and then lines, which are
/// compared with those that the machine prints for the events that they name. They are made by a
/// kernel over the store that `store_of` makes of the table.
///
/// It stops at the first departure or fault. Memory is taken for the table's text, for the table,
/// its store and its history, and not for the lines. The errors in the order of the text: `Read`
/// where a read fails, `NoSeparator`, `Table`, `BadLine` or `TooLong`; `Memory` if memory is
/// refused.
pub fn follow<S: Store, R: Source, F: FnOnce(&Table) -> Result<S, AllocError>>(
    alloc: Global,
    store_of: F,
    reader: &mut Counted<R>,
) -> Result<Followed<S>, CheckFault>
    requires callable { F.IsAlwaysCallable store_of }
    requires opening { (table : tables.Table) (made : Result S AllocErrorOf)
        → FnOnceReturnsAt F.FnOnce store_of table made
        → IfOk made (λ store. S.roster store ≡ opening_roster table) }
    ensures ok { IfOk result (λ found. (text : List ℕ)
        × IsAhead text (R.remaining (inner_of reader.old))
        × HasFollowed text found.kernel.table found.verdict found.kernel.machine) }
    ensures tellable { IfOk result (λ found. IsTellable found.kernel.table found.verdict) }
    ensures err { IfErr result (IsFaultOf (R.remaining (inner_of reader.old))) }
    ensures counted { CountsCheck result (failures_of reader.old) (failures_of reader.new) }
{
    let mut pending = Pending::new();
    let table = leading_table(alloc, &mut pending, reader)?;
    let store = store_of(&table)?;
    let mut kernel = Kernel::boot(alloc, table, store)?;
    let verdict = judge(&mut kernel, &mut pending, reader)?;
    kernel.holds();
    Ok(Followed { verdict, kernel })
}

/// Writes the text of the verdict on a history of the table.
fn write_verdict<W: Sink>(
    table: &Table,
    verdict: &Verdict,
    writer: &mut Counted<W>,
) -> io::Result<()>
    requires { IsTellable table.now verdict.now }
    ensures bytes { OnOk result
        (Appends (W.contents (inner_of writer.old)) (W.contents (inner_of writer.new))
        (verdict_text table.now verdict.now)) }
    ensures beginning { OnErr result
        (AppendsBeginning (W.contents (inner_of writer.old)) (W.contents (inner_of writer.new))
        (verdict_text table.now verdict.now)) }
    ensures counted { CountsFailure result (failures_of writer.old) (failures_of writer.new) }
{
    writer.write_all(verdict_text(table, verdict).as_slice())
}

/// Checks a printed history, as [`follow`] does over a [`PlainStore`], and writes the verdict:
/// `legal` with the number of lines, or `departs at` with the number of the line, and then
/// `expected: ` with the machine's line, or with `nothing` if the history is full. With a fault
/// nothing is written, except for `Write`, which leaves a prefix of the verdict's text.
pub fn check<R: Source, W: Sink>(
    alloc: Global,
    reader: &mut Counted<R>,
    writer: &mut Counted<W>,
) -> Result<Verdict, CheckFault>
    ensures ends { Checks
        (ports (R.remaining (inner_of reader.old)) (W.contents (inner_of writer.old))
        (failures_of reader.old) (failures_of writer.old))
        result
        (ports (R.remaining (inner_of reader.new)) (W.contents (inner_of writer.new))
        (failures_of reader.new) (failures_of writer.new)) }
    ensures legal { SaysLegal (R.remaining (inner_of reader.old)) result }
{
    let followed = follow(alloc, |table| PlainStore::new(alloc, table), reader)?;
    let Followed { verdict, kernel } = followed;
    match write_verdict(kernel.table(), &verdict, writer) {
        Ok(()) => Ok(verdict),
        Err(_) => Err(CheckFault::Write),
    }
}
