//! The lines of a text beside the machine's.
ghost use Rattle.std.specs.Prelude.{◌≡◌, ◌↔◌, ◌+◌, ◌<◌, ◌≤◌, ◌++◌, ℕ, List, length, take, IfOk, IfErr, IsOk};
ghost use Rattle.std.specs.Io.KnownBytes.{prepend_known};
ghost use Rattle.apex_types.specs.declared.limits.TheConstants.{MOST_ENTRIES};
ghost use Rattle.apex_machine.specs.Machine.{opening, accept, events_of};
ghost use Rattle.apex_machine.specs.Events.{IsWithin};
ghost use Rattle.apex_dispatch.specs.Kernel.{kernel_in};
ghost use Rattle.apex_history.specs.Counted.{inner_of, failures_of};
ghost use Rattle.apex_incoming.specs.Ahead.{IsAhead};
ghost use Rattle.apex_check.specs.Faults.{CountsCheck};
ghost use Rattle.apex_check.specs.Histories.{AreLines, event_named, is_of_cores};
ghost use Rattle.apex_check.specs.Steps.{Answers, IsLineFaultOf, IsOfLine, IsTellable, Judged, departure, fault_at};
ghost use Rattle.apex_check.specs.declared.following.Answer.TheVariants.{Same};
ghost use Rattle.apex_incoming.specs.Lines.{IsOneLine, ended};
ghost use Rattle.apex_check.specs.Verdicts.{JudgesLines};

use crate::expected::ExpectedLines;
use crate::verdicts::{CheckFault, Verdict};
use apex_dispatch::Kernel;
use apex_history::{Counted, LineFault, Source, read_line};
use apex_incoming::{Next, Pending, turn_ahead};
use apex_store::Store;
use apex_types::Event;

/// The comparison of the machine's line for an event with a line.
// Without the entry, which is the latest one: with it each line would clear and copy an entry.
#[derive(Clone, Copy)]
pub(crate) enum Answer {
    Same,
    Differs,
    /// The history is full.
    Beyond,
}

/// Whether the event is a tick, or a turn of a core below `cores`.
fn is_of_cores(cores: u8, event: &Event) -> bool
    ensures { result ≡ is_of_cores cores event.now }
{
    match event {
        Event::Turn(core) => core.number() < cores,
        Event::Tick(_) => true,
    }
}

/// The event that the first line of the bytes names, which has `end` bytes, for a partition with
/// `cores` cores.
#[tactic(auto, using(crate::proofs::Named::named_within))]
fn event_ahead(cores: u8, bytes: &[u8], end: usize) -> Result<Event, LineFault>
    requires { end ≤ length bytes.now }
    ensures value { result ≡ event_named cores (take end bytes.now) }
    ensures within { IfOk result (IsWithin cores) }
{
    let event = match turn_ahead(bytes, end) {
        Some(turn) => turn,
        None => read_line(&bytes[..end])?,
    };
    if is_of_cores(cores, &event) {
        Ok(event)
    } else {
        Err(LineFault::BadLine)
    }
}

/// Makes the event, and compares the machine's line with this one, which has its line feed.
fn compare<S: Store>(
    kernel: &mut Kernel<S>,
    expected: &mut ExpectedLines,
    event: Event,
    line: &[u8],
) -> Answer
    requires { IsWithin kernel.old.table.cores event }
    ensures new { kernel.new
        ≡ kernel_in kernel.old.table (accept kernel.old.table kernel.old.machine event)
        kernel.new.store }
    ensures answers { Answers kernel.old.table kernel.old.machine event line.now result }
{
    let Ok(()) = kernel.accept(event) else {
        return Answer::Beyond;
    };
    kernel.holds();
    let Some(entry) = kernel.entries().latest() else {
        return Answer::Beyond;
    };
    if expected.line(kernel.table(), &entry) == line {
        Answer::Same
    } else {
        Answer::Differs
    }
}

/// The number of entries that the history has.
fn count<S: Store>(kernel: &Kernel<S>) -> u32
    ensures value { result ≡ length kernel.now.machine.history }
    ensures range { result ≤ MOST_ENTRIES }
{
    kernel.holds();
    kernel.table().lawful();
    kernel.entries().len() as u32
}

/// The fault of the line of this number.
fn fault_at(line: u32, fault: LineFault) -> CheckFault
    ensures { result ≡ fault_at line fault }
{
    match fault {
        LineFault::BadLine => CheckFault::BadLine(line),
        LineFault::TooLong => CheckFault::TooLong(line),
    }
}

/// Makes the event that the first line of the bytes names, which has `end` bytes and its line feed,
/// and compares the machine's line with this one.
fn judge_line<S: Store>(
    kernel: &mut Kernel<S>,
    expected: &mut ExpectedLines,
    bytes: &[u8],
    end: usize,
) -> Result<Answer, CheckFault>
    requires { end < length bytes.now }
    ensures table { kernel.new.table ≡ kernel.old.table }
    ensures more { IfOk result (λ answer. answer ≡ Same
        → length kernel.new.machine.history ≡ length kernel.old.machine.history + 1) }
    ensures judged { (before found : List ℕ)
        → AreLines kernel.old.table before (events_of kernel.old.machine.history)
        → IsOneLine found → take (end + 1) bytes.now ≡ ended found
        → Judged kernel.old.table before found kernel.new.machine.history result }
    ensures err { IfErr result (IsOfLine) }
{
    kernel.holds();
    let number = count(kernel) + 1;
    let event = match event_ahead(kernel.table().cores(), bytes, end) {
        Ok(event) => event,
        Err(fault) => return Err(fault_at(number, fault)),
    };
    let answer = compare(kernel, expected, event, &bytes[..end + 1]);
    kernel.holds();
    Ok(answer)
}

/// The verdict on a history whose latest line is the first that is not the machine's.
fn departure<S: Store>(kernel: &Kernel<S>) -> Verdict
    ensures value { result ≡ departure kernel.now.machine.history }
    ensures tellable { IsTellable kernel.now.table result }
{
    kernel.holds();
    let line = count(kernel);
    match kernel.entries().latest() {
        Some(entry) => Verdict::DepartsAt(line, Some(entry.kept())),
        None => Verdict::DepartsAt(line, None),
    }
}

/// The verdict on the lines that are still to come, by a kernel before any event, which makes the
/// events that they name up to the line that decides.
pub(crate) fn judge<S: Store, R: Source>(
    kernel: &mut Kernel<S>,
    pending: &mut Pending,
    reader: &mut Counted<R>,
) -> Result<Verdict, CheckFault>
    requires { kernel.old.machine ≡ opening kernel.old.table }
    ensures table { kernel.new.table ≡ kernel.old.table }
    ensures ok { IfOk result (λ verdict. (text : List ℕ)
        × IsAhead text (prepend_known pending.old (R.remaining (inner_of reader.old)))
        × JudgesLines kernel.old.table text verdict (events_of kernel.new.machine.history)) }
    ensures tellable { IfOk result (IsTellable kernel.old.table) }
    ensures err { IfErr result
        (IsLineFaultOf kernel.old.table
        (prepend_known pending.old (R.remaining (inner_of reader.old)))) }
    ensures counted { CountsCheck result (failures_of reader.old) (failures_of reader.new) }
{
    kernel.holds();
    let mut expected = ExpectedLines::new();
    loop {
        let Ok(next) = pending.next(reader) else {
            return Err(CheckFault::Read);
        };
        let end = match next {
            Next::Line(end) => end,
            Next::Part => return Err(CheckFault::TooLong(count(kernel) + 1)),
            Next::Rest => return Err(CheckFault::BadLine(count(kernel) + 1)),
            Next::End => return Ok(Verdict::Legal(count(kernel))),
        };
        match judge_line(kernel, &mut expected, pending.bytes(), end)? {
            Answer::Same => pending.take(end + 1),
            Answer::Differs => return Ok(departure(kernel)),
            Answer::Beyond => return Ok(Verdict::DepartsAt(count(kernel) + 1, None)),
        }
    }
}
