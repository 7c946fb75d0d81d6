//! The text of a search for the greatest response of a process.
ghost use Rattle.std.specs.Prelude.{◌≡◌, ◌≤◌, ◌++◌, Some, codes, decimal, length, OnErr, OnOk};
ghost use Rattle.std.specs.Io.KnownBytes.{Appends};
ghost use Rattle.arrayvec.specs.ArrayString.{array_string_len};
ghost use Rattle.apex_history.specs.Counted.{inner_of, failures_of, CountsFailure, AppendsBeginning};
ghost use Rattle.apex_search.specs.Worst.{schedule_in};
ghost use Rattle.apex_answers.specs.Worst.{bound_text, head_text, run_part, tail_text, worst_text};

use crate::answers::write_run;
use crate::texts::{Text, none_within, put_states, states_line};
use apex_answers::WorstAnswer;
use apex_dispatch::Kernel;
use apex_history::{Counted, Sink};
use apex_search::{Slowest, Worst};
use apex_store::Store;
use apex_texts::push_long_number;
use apex_types::Event;
use std::io::{Result, Write};

/// A line of these words and this number.
#[tactic(auto, using(std::proofs::Common::append_assoc))]
fn number_line(words: &str, number: usize) -> Text
    requires { length words.now ≤ 20 }
    ensures text { result.bytes ≡ words.now ++ decimal number ++ codes "\n" }
    ensures short { array_string_len result ≤ 41 }
{
    let mut text = Text::new();
    text.push_str(words);
    push_long_number(&mut text, number as u64);
    text.push_str("\n");
    text
}

/// The first line of an answer.
fn head(worst: &Worst) -> Text
    ensures { result.bytes ≡ head_text worst.now }
{
    match worst {
        Worst::Greatest { found: None, .. } => {
            let mut text = Text::new();
            text.push_str("no response\n");
            text
        }
        Worst::Greatest {
            found: Some(slowest),
            ..
        } => { number_line("worst ", slowest.response as usize) }
        Worst::Overrun { period, .. } => number_line("worst over ", *period as usize),
        Worst::Full { found: None, .. } | Worst::Beyond { found: None, .. } => Text::new(),
        Worst::Full {
            found: Some(slowest),
            ..
        }
        | Worst::Beyond {
            found: Some(slowest),
            ..
        } => { number_line("worst at least ", slowest.response as usize) }
    }
}

/// The line of how far a search has come.
fn bound(found: &Option<Slowest>, depth: usize) -> Text
    ensures text { result.bytes ≡ bound_text found.now depth }
    ensures short { array_string_len result ≤ 41 }
{
    match found {
        None => none_within(depth),
        Some(_) => number_line("none greater within ", depth),
    }
}

/// The last lines of an answer.
fn tail(worst: &Worst, room: u32) -> Text
    ensures { result.bytes ≡ tail_text room worst.now }
{
    match worst {
        Worst::Greatest { states, .. } => states_line(*states),
        Worst::Overrun { .. } => Text::new(),
        Worst::Full { found, depth } => {
            let mut text = bound(found, *depth);
            put_states(&mut text, room as usize);
            text
        }
        Worst::Beyond { found, limit } => bound(found, *limit as usize),
    }
}

/// Writes the line of a schedule, and that of the last entry of its kernel, if there is one.
fn write_made_run<W: Sink, S: Store>(
    events: &[Event],
    kernel: &Option<Kernel<S>>,
    writer: &mut Counted<W>,
) -> Result<()>
    ensures ok { OnOk result
        (Appends (W.contents (inner_of writer.old)) (W.contents (inner_of writer.new))
        (run_part (Some events.now) kernel.now)) }
    ensures err { OnErr result
        (AppendsBeginning (W.contents (inner_of writer.old)) (W.contents (inner_of writer.new))
        (run_part (Some events.now) kernel.now)) }
    ensures counted { CountsFailure result (failures_of writer.old) (failures_of writer.new) }
{
    match kernel {
        Some(kernel) => write_run(events, kernel, writer),
        None => Ok(()),
    }
}

/// Writes the schedule that was found, if one was, and the line of its last entry.
fn print_run<W: Sink>(answer: &WorstAnswer, writer: &mut Counted<W>) -> Result<()>
    ensures ok { OnOk result
        (Appends (W.contents (inner_of writer.old)) (W.contents (inner_of writer.new))
        (run_part (schedule_in answer.now.worst) answer.now.kernel)) }
    ensures err { OnErr result
        (AppendsBeginning (W.contents (inner_of writer.old)) (W.contents (inner_of writer.new))
        (run_part (schedule_in answer.now.worst) answer.now.kernel)) }
    ensures counted { CountsFailure result (failures_of writer.old) (failures_of writer.new) }
{
    match answer.worst.schedule() {
        Some(events) => write_made_run(events, &answer.kernel, writer),
        None => Ok(()),
    }
}

/// Writes the text of the answer of a search for the greatest response with room for this many
/// states. Takes no memory.
///
/// If a write failed, a prefix of the text was written.
pub fn print_worst<W: Sink>(answer: &WorstAnswer, room: u32, writer: &mut Counted<W>) -> Result<()>
    ensures ok { OnOk result
        (Appends (W.contents (inner_of writer.old)) (W.contents (inner_of writer.new))
        (worst_text room answer.now)) }
    ensures err { OnErr result
        (AppendsBeginning (W.contents (inner_of writer.old)) (W.contents (inner_of writer.new))
        (worst_text room answer.now)) }
    ensures counted { CountsFailure result (failures_of writer.old) (failures_of writer.new) }
{
    writer.write_all(head(&answer.worst).as_str().as_bytes())?;
    print_run(answer, writer)?;
    writer.write_all(tail(&answer.worst, room).as_str().as_bytes())
}
