//! The objects of a history, written to a writer.
ghost use Rattle.std.specs.Prelude.{◌≡◌, [], All, IfErr, OnErr, OnOk};
ghost use Rattle.std.specs.Io.KnownBytes.{Appends};
ghost use Rattle.apex_calls.specs.Lines.{IsPrintable};
ghost use Rattle.apex_history.specs.Counted.{inner_of, failures_of, AppendsBeginning, CountsFailure, IsOfWrite};
ghost use Rattle.apex_objects.specs.Entries.{objects_of};

use crate::entries::put_entry_object;
use crate::lines::ObjectLines;
use crate::writing::{hand_on, make_room};
use apex_configs::Table;
use apex_history::{Counted, Entries, Sink};
use std::io::Result;

/// Writes the objects of the entries, a line each, many of them with one write (this profile).
/// Takes no memory: they are gathered in `lines`.
///
/// If a write failed, a prefix of the text was written. The objects that were there before are
/// forgotten.
pub fn print_history_objects<W: Sink>(
    table: &Table,
    entries: Entries<'_>,
    lines: &mut ObjectLines,
    writer: &mut Counted<W>,
) -> Result<()>
    requires { All (IsPrintable table.now) entries }
    ensures ok { OnOk result
        (Appends (W.contents (inner_of writer.old)) (W.contents (inner_of writer.new))
        (objects_of table.now entries.entry)) }
    ensures err { OnErr result
        (AppendsBeginning (W.contents (inner_of writer.old)) (W.contents (inner_of writer.new))
        (objects_of table.now entries.entry)) }
    ensures empty { lines.new.items ≡ [] }
    ensures counted { CountsFailure result (failures_of writer.old) (failures_of writer.new) }
    ensures failed { IfErr result (IsOfWrite W.accepts (inner_of writer.new)) }
{
    lines.clear();
    for entry in entries {
        put_entry_object(lines, table, &entry);
        make_room(lines, writer)?;
    }
    hand_on(lines, writer)
}
