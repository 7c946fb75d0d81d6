//! Objects on their way to a writer.
ghost use Rattle.std.specs.Prelude.{◌≡◌, ◌+◌, ◌≤◌, [], IfErr, OnErr, OnOk};
ghost use Rattle.std.specs.Io.KnownBytes.{Appends};
ghost use Rattle.arrayvec.specs.ArrayVec.{array_vec_len};
ghost use Rattle.apex_history.specs.Counted.{inner_of, failures_of, AppendsBeginning, CountsFailure, IsOfWrite};
ghost use Rattle.apex_history.specs.Page.{Passes};
ghost use Rattle.apex_objects.specs.declared.lines.TheConstants.{MOST_OBJECT, OBJECTS_ROOM};

use crate::lines::{MOST_OBJECT, OBJECTS_ROOM, ObjectLines};
use apex_history::{Counted, Sink};
use std::io::{Result, Write};

/// Writes the objects out, and forgets them even if a write failed, which leaves a prefix of them.
pub fn hand_on<W: Sink>(lines: &mut ObjectLines, writer: &mut Counted<W>) -> Result<()>
    ensures ok { OnOk result (Appends (W.contents (inner_of writer.old))
        (W.contents (inner_of writer.new)) lines.old.items) }
    ensures err { OnErr result (AppendsBeginning (W.contents (inner_of writer.old))
        (W.contents (inner_of writer.new)) lines.old.items) }
    ensures empty { lines.new.items ≡ [] }
    ensures counted { CountsFailure result (failures_of writer.old) (failures_of writer.new) }
    ensures failed { IfErr result (IsOfWrite W.accepts (inner_of writer.new)) }
{
    let written = writer.write_all(lines.as_slice());
    lines.clear();
    written
}

/// Writes the objects out if one more may not fit behind them.
pub fn make_room<W: Sink>(lines: &mut ObjectLines, writer: &mut Counted<W>) -> Result<()>
    ensures ok { OnOk result (Passes (W.contents (inner_of writer.old))
        (W.contents (inner_of writer.new)) lines.old.items lines.new.items) }
    ensures err { OnErr result (AppendsBeginning (W.contents (inner_of writer.old))
        (W.contents (inner_of writer.new)) lines.old.items) }
    ensures room { array_vec_len lines.new + MOST_OBJECT ≤ OBJECTS_ROOM }
    ensures empty { OnErr result (lines.new.items ≡ []) }
    ensures counted { CountsFailure result (failures_of writer.old) (failures_of writer.new) }
    ensures failed { IfErr result (IsOfWrite W.accepts (inner_of writer.new)) }
{
    if lines.len() + MOST_OBJECT <= OBJECTS_ROOM {
        return Ok(());
    }
    hand_on(lines, writer)
}
