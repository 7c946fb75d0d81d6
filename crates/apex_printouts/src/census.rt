//! The text of a census.
ghost use Rattle.std.specs.Prelude.{◌≡◌, ◌≤◌, flat_map, length, OnErr, OnOk};
ghost use Rattle.std.specs.Io.KnownBytes.{Appends};
ghost use Rattle.apex_history.specs.Counted.{inner_of, failures_of, CountsFailure, AppendsBeginning};
ghost use Rattle.apex_printouts.specs.Censuses.{census_text, end_text, finding_line, word_or_dash};

use crate::texts::{Text, none_within_states, states_line};
use apex_history::{Counted, Sink};
use apex_questions::{Fact, word_of};
use apex_search::{Census, End, Finding};
use apex_texts::push_long_number;
use std::io::{Result, Write};

/// The word of a fact, or `-` if it has none.
fn word_or_dash(fact: Fact) -> &'static str
    ensures word { result.now ≡ word_or_dash fact }
    ensures short { length result.now ≤ 20 }
{
    match word_of(fact) {
        Some(word) => word,
        None => "-",
    }
}

/// The number of the entry of a finding, and its fact.
fn finding_line(finding: &Finding) -> Text
    ensures { result.bytes ≡ finding_line finding.now }
{
    let mut text = Text::new();
    push_long_number(&mut text, finding.path.len() as u64);
    text.push_str(" ");
    text.push_str(word_or_dash(finding.fact));
    text.push_str("\n");
    text
}

/// Writes the line of each finding.
fn print_findings<W: Sink>(findings: &[Finding], writer: &mut Counted<W>) -> Result<()>
    ensures ok { OnOk result
        (Appends (W.contents (inner_of writer.old)) (W.contents (inner_of writer.new))
        (flat_map finding_line findings.now)) }
    ensures err { OnErr result
        (AppendsBeginning (W.contents (inner_of writer.old)) (W.contents (inner_of writer.new))
        (flat_map finding_line findings.now)) }
    ensures counted { CountsFailure result (failures_of writer.old) (failures_of writer.new) }
{
    for finding in findings {
        writer.write_all(finding_line(finding).as_str().as_bytes())?;
    }
    Ok(())
}

/// What the end of a search with room for this many states says of the facts that were not found.
fn end_text(end: End, room: u32) -> Text
    ensures { result.bytes ≡ end_text room end }
{
    match end {
        End::Closed { states } => states_line(states),
        End::Full { depth } => none_within_states(depth, room),
    }
}

/// Writes the text of a census with room for this many states: a line for each fact that was found,
/// with the least number of an entry that has it, and what is known of the others. Takes no memory.
///
/// If a write failed, a prefix of the text was written.
pub fn print_census<W: Sink>(census: &Census, room: u32, writer: &mut Counted<W>) -> Result<()>
    ensures ok { OnOk result
        (Appends (W.contents (inner_of writer.old)) (W.contents (inner_of writer.new))
        (census_text room census.now)) }
    ensures err { OnErr result
        (AppendsBeginning (W.contents (inner_of writer.old)) (W.contents (inner_of writer.new))
        (census_text room census.now)) }
    ensures counted { CountsFailure result (failures_of writer.old) (failures_of writer.new) }
{
    print_findings(census.found.as_slice(), writer)?;
    writer.write_all(end_text(census.end, room).as_str().as_bytes())
}
