//! The lines of an answer, but for those of a schedule and of an entry.
ghost use Rattle.std.specs.Prelude.{◌≡◌, ◌+◌, ◌≤◌, ◌++◌};
ghost use Rattle.arrayvec.specs.ArrayString.{array_string_len};
ghost use Rattle.apex_answers.specs.Texts.{found_head, never_text, states_text, within_text};
ghost use Rattle.apex_printouts.specs.declared.texts.TheConstants.{TEXT_ROOM};

use apex_texts::push_long_number;
use apex_types::Event;
use arrayvec::ArrayString;

/// Room for the bytes of these lines.
const TEXT_ROOM: usize = 96;

/// Lines of an answer.
pub(crate) type Text = ArrayString<TEXT_ROOM>;

/// Puts the line of a number of states.
#[tactic(auto, using(std::proofs::Common::append_assoc))]
pub(crate) fn put_states(text: &mut Text, states: usize)
    requires { array_string_len text.old + 30 ≤ TEXT_ROOM }
    ensures { text.new.bytes ≡ text.old.bytes ++ states_text states }
{
    text.push_str("states: ");
    push_long_number(text, states as u64);
    text.push_str("\n");
}

/// The line of the number of events of a schedule that was found.
pub(crate) fn found_head(events: &[Event]) -> Text
    ensures { result.bytes ≡ found_head events.now }
{
    let mut text = Text::new();
    text.push_str("found at ");
    push_long_number(&mut text, events.len() as u64);
    text.push_str("\n");
    text
}

pub(crate) fn never(states: usize) -> Text
    ensures { result.bytes ≡ never_text states }
{
    let mut text = Text::new();
    text.push_str("never\n");
    put_states(&mut text, states);
    text
}

/// The line of a number of states.
pub(crate) fn states_line(states: usize) -> Text
    ensures { result.bytes ≡ states_text states }
{
    let mut text = Text::new();
    put_states(&mut text, states);
    text
}

pub(crate) fn none_within(depth: usize) -> Text
    ensures text { result.bytes ≡ within_text depth }
    ensures short { array_string_len result ≤ 40 }
{
    let mut text = Text::new();
    text.push_str("none within ");
    push_long_number(&mut text, depth as u64);
    text.push_str("\n");
    text
}

/// The text for a search that has no room for more states than these.
pub(crate) fn none_within_states(depth: usize, room: u32) -> Text
    ensures { result.bytes ≡ within_text depth ++ states_text room }
{
    let mut text = none_within(depth);
    put_states(&mut text, room as usize);
    text
}
