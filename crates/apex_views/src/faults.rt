//! The faults with which a showing ends, and their lines.
ghost use Rattle.std.specs.Prelude.{◌≡◌, ◌+◌, ◌≤◌, ◌++◌, length};
ghost use Rattle.arrayvec.specs.ArrayString.{array_string_len};
ghost use Rattle.apex_console.specs.Faults.{fault_in, fault_of_read};
ghost use Rattle.apex_console.specs.declared.CliFault.TheVariants.{Memory};
ghost use Rattle.apex_views.specs.Faults.{bound_text, end_part, entries_text, excerpt_line, fault_of_items, line_part, reason_text, schedule_line, sought_text, time_text, too_many_text, window_line};
ghost use Rattle.apex_views.specs.Shows.{first_fault};
ghost use Rattle.apex_views.specs.declared.faults.ShowFault.TheVariants.{Common};
ghost use Rattle.apex_views.specs.declared.faults.TheConstants.{LINE_ROOM};

use apex_console::CliFault;
use apex_history::ReadFault;
use apex_pictures::Excerpt;
use apex_showings::{BadSchedule, Bound, EmptyWindow, ItemsFault, ScheduleReason};
use apex_texts::{push_long_number, push_number};
use apex_types::{MOST_ENTRIES, Name};
use arrayvec::ArrayString;
use std::alloc::AllocError;

/// Room for the bytes of a line that reports a fault.
const LINE_ROOM: usize = 176;

/// A line that reports a fault.
pub type Line = ArrayString<LINE_ROOM>;

/// The reason why a run is not shown, or not to its end.
#[derive(Clone, Copy)]
pub enum ShowFault {
    /// A fault that the program `apex` has too.
    Common(CliFault),
    /// The text is no schedule.
    Schedule(BadSchedule),
    /// The run has no entry in the window of a picture, or none but idle ones.
    Empty(EmptyWindow),
    /// A picture is to have a row for a process of this name or number, which the table lacks.
    NoProcess(Name),
}

impl From<CliFault> for ShowFault {
    ghost from_gives = { λ error fault. fault ≡ Common error };

    fn from(error: CliFault) -> ShowFault {
        ShowFault::Common(error)
    }
}

impl From<AllocError> for ShowFault {
    ghost from_gives = { λ _ fault. fault ≡ Common Memory };

    fn from(_error: AllocError) -> ShowFault {
        ShowFault::Common(CliFault::Memory)
    }
}

impl From<ReadFault> for ShowFault {
    ghost from_gives = { λ error fault. fault ≡ Common (fault_of_read error) };

    fn from(error: ReadFault) -> ShowFault {
        ShowFault::Common(CliFault::from(error))
    }
}

impl From<ItemsFault> for ShowFault {
    ghost from_gives = { λ error fault. fault ≡ fault_of_items error };

    fn from(error: ItemsFault) -> ShowFault {
        match error {
            ItemsFault::Memory => ShowFault::Common(CliFault::Memory),
            ItemsFault::Schedule(bad) => ShowFault::Schedule(bad),
        }
    }
}

/// The fault of a showing, or else the one that is reported besides.
pub(crate) fn first_fault(
    shown: Result<(), CliFault>,
    reported: Option<CliFault>,
) -> Result<(), CliFault>
    ensures { fault_in result ≡ first_fault (fault_in shown) reported }
{
    match (shown, reported) {
        (Ok(()), Some(fault)) => Err(fault),
        (shown, _) => shown,
    }
}

/// The line of a place, unless it is the first one.
#[tactic(auto, using(std::proofs::Common::append_assoc))]
fn put_line_part(text: &mut Line, line: usize)
    requires { array_string_len text.old + 27 ≤ LINE_ROOM }
    ensures text { text.new.bytes ≡ text.old.bytes ++ line_part line }
    ensures short { array_string_len text.new ≤ array_string_len text.old + 27 }
{
    if line != 1 {
        text.push_str(", line ");
        push_long_number(text, line as u64);
    }
}

#[tactic(auto, using(std::proofs::Common::append_assoc))]
fn put_too_many(line: &mut Line)
    requires { array_string_len line.old + 36 ≤ LINE_ROOM }
    ensures text { line.new.bytes ≡ line.old.bytes ++ too_many_text }
    ensures short { array_string_len line.new ≤ array_string_len line.old + 36 }
{
    line.push_str("more than ");
    push_number(line, MOST_ENTRIES);
    line.push_str(" items");
}

fn put_reason(line: &mut Line, reason: ScheduleReason)
    requires { array_string_len line.old + 36 ≤ LINE_ROOM }
    ensures text { line.new.bytes ≡ line.old.bytes ++ reason_text reason }
    ensures short { array_string_len line.new ≤ array_string_len line.old + 36 }
{
    match reason {
        ScheduleReason::IllFormed => line.push_str("ill-formed"),
        ScheduleReason::TooMany => put_too_many(line),
    }
}

/// The line that reports a fault of a schedule, with its line feed.
#[tactic(auto, using(std::proofs::Common::append_assoc))]
pub fn schedule_line(bad: BadSchedule) -> Line
    ensures { result.bytes ≡ schedule_line bad }
{
    let mut line = Line::new();
    line.push_str("apex_lab: schedule: item ");
    push_long_number(&mut line, bad.item as u64);
    put_line_part(&mut line, bad.line);
    line.push_str(", column ");
    push_long_number(&mut line, bad.column as u64);
    line.push_str(": ");
    put_reason(&mut line, bad.reason);
    line.push_str("\n");
    line
}

/// Puts a bound of a window.
fn put_bound(line: &mut Line, bound: Bound)
    requires { array_string_len line.old + 22 ≤ LINE_ROOM }
    ensures text { line.new.bytes ≡ line.old.bytes ++ bound_text bound }
    ensures short { array_string_len line.new ≤ array_string_len line.old + 22 }
{
    match bound {
        Bound::Entry(number) => push_number(line, number),
        Bound::Time(time) => put_time(line, time),
    }
}

/// Puts a time in ticks.
#[tactic(auto, using(std::proofs::Common::append_assoc))]
fn put_time(line: &mut Line, time: u64)
    requires { array_string_len line.old + 22 ≤ LINE_ROOM }
    ensures text { line.new.bytes ≡ line.old.bytes ++ time_text time }
    ensures short { array_string_len line.new ≤ array_string_len line.old + 22 }
{
    line.push_str("t=");
    push_long_number(line, time);
}

/// Puts a number of entries.
#[tactic(auto, using(std::proofs::Common::append_assoc))]
fn put_entries(line: &mut Line, entries: usize)
    requires { array_string_len line.old + 28 ≤ LINE_ROOM }
    ensures text { line.new.bytes ≡ line.old.bytes ++ entries_text entries }
    ensures short { array_string_len line.new ≤ array_string_len line.old + 28 }
{
    if entries == 1 {
        line.push_str("1 entry");
        return;
    }
    push_long_number(line, entries as u64);
    line.push_str(" entries");
}

/// Puts the time at the end of a run, if a bound of the window is a time.
#[tactic(auto, using(std::proofs::Common::append_assoc))]
fn put_end(line: &mut Line, empty: EmptyWindow)
    requires { array_string_len line.old + 29 ≤ LINE_ROOM }
    ensures text { line.new.bytes ≡ line.old.bytes ++ end_part empty }
    ensures short { array_string_len line.new ≤ array_string_len line.old + 29 }
{
    if empty.window.has_time() {
        line.push_str(" up to ");
        put_time(line, empty.now);
    }
}

/// The entries that are looked for, with idle entries folded or not.
fn sought_text(fold: bool) -> &'static str
    ensures value { result.now ≡ sought_text fold }
    ensures short { length result.now ≤ 22 }
{
    if fold {
        "no entry but idle ones"
    } else {
        "no entry"
    }
}

/// The line that reports that a run has no entry in a window, or none but idle ones, with its line feed.
#[tactic(auto, using(std::proofs::Common::append_assoc))]
pub fn window_line(empty: EmptyWindow) -> Line
    ensures { result.bytes ≡ window_line empty }
{
    let mut line = Line::new();
    line.push_str("apex_lab: the run has ");
    line.push_str(sought_text(empty.fold));
    line.push_str(" from ");
    put_bound(&mut line, empty.window.first);
    line.push_str(" to ");
    put_bound(&mut line, empty.window.last);
    line.push_str(", it has ");
    put_entries(&mut line, empty.entries);
    put_end(&mut line, empty);
    line.push_str("\n");
    line
}

/// The line that reports what a picture shows, of which more was asked for, with its line feed.
#[tactic(auto, using(std::proofs::Common::append_assoc))]
pub fn excerpt_line(excerpt: Excerpt) -> Line
    ensures { result.bytes ≡ excerpt_line excerpt }
{
    let mut line = Line::new();
    line.push_str("apex_lab: entries ");
    push_number(&mut line, excerpt.first);
    line.push_str(" to ");
    push_number(&mut line, excerpt.last);
    line.push_str(" of ");
    push_long_number(&mut line, excerpt.entries as u64);
    line.push_str("\n");
    line
}
