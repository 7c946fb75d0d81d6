//! The text of a search for a fact.
ghost use Rattle.std.specs.Prelude.{◌++◌, None, codes, OnErr, OnOk};
ghost use Rattle.std.specs.Io.KnownBytes.{Appends};
ghost use Rattle.std.specs.List.{last_or};
ghost use Rattle.apex_history.specs.Counted.{inner_of, failures_of, CountsFailure, AppendsBeginning};
ghost use Rattle.apex_answers.specs.Answers.{answer_text};
ghost use Rattle.apex_answers.specs.Texts.{found_text, line_in, made_text, run_text};

use crate::texts::{found_head, never, none_within, none_within_states};
use apex_answers::SearchAnswer;
use apex_dispatch::Kernel;
use apex_history::{Counted, Sink, print_entry};
use apex_schedules::print_schedule;
use apex_store::Store;
use apex_types::Event;
use std::io::{Result, Write};

/// Writes the line of a kernel's last entry, if it has one.
fn write_last<W: Sink, S: Store>(kernel: &Kernel<S>, writer: &mut Counted<W>) -> Result<()>
    ensures ok { OnOk result
        (Appends (W.contents (inner_of writer.old)) (W.contents (inner_of writer.new))
        (line_in kernel.now.table (last_or None kernel.now.machine.history))) }
    ensures err { OnErr result
        (AppendsBeginning (W.contents (inner_of writer.old)) (W.contents (inner_of writer.new))
        (line_in kernel.now.table (last_or None kernel.now.machine.history))) }
    ensures counted { CountsFailure result (failures_of writer.old) (failures_of writer.new) }
{
    kernel.holds();
    match kernel.entries().latest() {
        Some(entry) => print_entry(kernel.table(), &entry, writer),
        None => Ok(()),
    }
}

/// Writes a line feed, and the line of a kernel's last entry.
fn write_entry<W: Sink, S: Store>(kernel: &Kernel<S>, writer: &mut Counted<W>) -> Result<()>
    ensures ok { OnOk result
        (Appends (W.contents (inner_of writer.old)) (W.contents (inner_of writer.new))
        (codes "\nentry: " ++ line_in kernel.now.table (last_or None kernel.now.machine.history))) }
    ensures err { OnErr result
        (AppendsBeginning (W.contents (inner_of writer.old)) (W.contents (inner_of writer.new))
        (codes "\nentry: " ++ line_in kernel.now.table (last_or None kernel.now.machine.history))) }
    ensures counted { CountsFailure result (failures_of writer.old) (failures_of writer.new) }
{
    writer.write_all(b"\nentry: ")?;
    write_last(kernel, writer)
}

/// Writes a schedule, a line feed, and the line of the last entry of its kernel.
fn write_made<W: Sink, S: Store>(
    events: &[Event],
    kernel: &Kernel<S>,
    writer: &mut Counted<W>,
) -> Result<()>
    ensures ok { OnOk result
        (Appends (W.contents (inner_of writer.old)) (W.contents (inner_of writer.new))
        (made_text events.now
        (line_in kernel.now.table (last_or None kernel.now.machine.history)))) }
    ensures err { OnErr result
        (AppendsBeginning (W.contents (inner_of writer.old)) (W.contents (inner_of writer.new))
        (made_text events.now
        (line_in kernel.now.table (last_or None kernel.now.machine.history)))) }
    ensures counted { CountsFailure result (failures_of writer.old) (failures_of writer.new) }
{
    print_schedule(events, writer)?;
    write_entry(kernel, writer)
}

/// Writes the line of a schedule, and that of the last entry of its kernel.
pub(crate) fn write_run<W: Sink, S: Store>(
    events: &[Event],
    kernel: &Kernel<S>,
    writer: &mut Counted<W>,
) -> Result<()>
    ensures ok { OnOk result
        (Appends (W.contents (inner_of writer.old)) (W.contents (inner_of writer.new))
        (run_text events.now
        (line_in kernel.now.table (last_or None kernel.now.machine.history)))) }
    ensures err { OnErr result
        (AppendsBeginning (W.contents (inner_of writer.old)) (W.contents (inner_of writer.new))
        (run_text events.now
        (line_in kernel.now.table (last_or None kernel.now.machine.history)))) }
    ensures counted { CountsFailure result (failures_of writer.old) (failures_of writer.new) }
{
    writer.write_all(b"schedule: ")?;
    write_made(events, kernel, writer)
}

/// Writes a schedule that was found, and the line of the last entry of its kernel.
fn write_found<W: Sink, S: Store>(
    events: &[Event],
    kernel: &Kernel<S>,
    writer: &mut Counted<W>,
) -> Result<()>
    ensures ok { OnOk result
        (Appends (W.contents (inner_of writer.old)) (W.contents (inner_of writer.new))
        (found_text events.now
        (line_in kernel.now.table (last_or None kernel.now.machine.history)))) }
    ensures err { OnErr result
        (AppendsBeginning (W.contents (inner_of writer.old)) (W.contents (inner_of writer.new))
        (found_text events.now
        (line_in kernel.now.table (last_or None kernel.now.machine.history)))) }
    ensures counted { CountsFailure result (failures_of writer.old) (failures_of writer.new) }
{
    writer.write_all(found_head(events).as_str().as_bytes())?;
    write_run(events, kernel, writer)
}

/// Writes the text of the answer of a search with room for this many states. Takes no memory.
///
/// If a write failed, a prefix of the text was written.
pub fn print_answer<W: Sink>(
    answer: &SearchAnswer,
    room: u32,
    writer: &mut Counted<W>,
) -> Result<()>
    ensures ok { OnOk result
        (Appends (W.contents (inner_of writer.old)) (W.contents (inner_of writer.new))
        (answer_text room answer.now)) }
    ensures err { OnErr result
        (AppendsBeginning (W.contents (inner_of writer.old)) (W.contents (inner_of writer.new))
        (answer_text room answer.now)) }
    ensures counted { CountsFailure result (failures_of writer.old) (failures_of writer.new) }
{
    match answer {
        SearchAnswer::Found(events, kernel) => write_found(events.as_slice(), kernel, writer),
        SearchAnswer::Never(states) => writer.write_all(never(*states).as_str().as_bytes()),
        SearchAnswer::NoneWithin(depth) => {
            writer.write_all(none_within_states(*depth, room).as_str().as_bytes())
        }
        SearchAnswer::Beyond(limit) => {
            writer.write_all(none_within(*limit as usize).as_str().as_bytes())
        }
    }
}
