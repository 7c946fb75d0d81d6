//! The line of the front after a run.
ghost use Rattle.std.specs.Prelude.{◌≡◌, ◌+◌, ◌*◌, ◌<◌, ◌≤◌, ◌++◌, length, flat_map};
ghost use Rattle.arrayvec.specs.ArrayString.{array_string_len};
ghost use Rattle.apex_types.specs.declared.limits.TheConstants.{MOST_CORES};
ghost use Rattle.apex_cli.specs.FrontLines.{front_line, front_text, running_text};
ghost use Rattle.apex_cli.specs.declared.fronts.TheConstants.{FRONT_ROOM};

use apex_partition::Front;
use apex_texts::{push_long_number, push_number};
use apex_types::ProcessId;
use arrayvec::ArrayString;

/// Room for the bytes of a front's line.
const FRONT_ROOM: usize = 128;

/// The line of a front.
pub type FrontLine = ArrayString<FRONT_ROOM>;

/// The process that a core runs.
#[tactic(auto, using(std::proofs::Common::append_assoc))]
fn put_running(line: &mut FrontLine, running: &Option<ProcessId>)
    requires { array_string_len line.old + 11 ≤ FRONT_ROOM }
    ensures text { line.new.bytes ≡ line.old.bytes ++ running_text running.now }
    ensures short { array_string_len line.new ≤ array_string_len line.old + 11 }
{
    match running {
        Some(process) => {
            line.push_str(" ");
            push_number(line, process.number());
        }
        None => line.push_str(" -"),
    }
}

/// The process that each core runs.
fn put_chosen(line: &mut FrontLine, chosen: &[Option<ProcessId>])
    requires few_cores { length chosen.now ≤ MOST_CORES }
    requires room { array_string_len line.old + 11 * MOST_CORES < FRONT_ROOM }
    ensures text { line.new.bytes ≡ line.old.bytes ++ flat_map running_text chosen.now }
    ensures short { array_string_len line.new ≤ array_string_len line.old + 11 * MOST_CORES }
{
    for running in chosen {
        put_running(line, running);
    }
}

/// The line of a front, with its line feed.
#[tactic(auto, using(std::proofs::Common::append_assoc))]
fn front_line(front: &Front) -> FrontLine
    ensures { result.bytes ≡ front_line front.entry.now }
{
    let mut line = FrontLine::new();
    line.push_str("front ");
    push_number(&mut line, front.entries);
    line.push_str(" ");
    push_long_number(&mut line, front.now);
    put_chosen(&mut line, front.chosen.as_slice());
    line.push('\n');
    line
}

/// The line of a front that was asked for; nothing if none was.
pub fn front_text(front: &Option<Front>) -> FrontLine
    ensures { result.bytes ≡ front_text front.entry.now }
{
    match front {
        Some(front) => front_line(front),
        None => FrontLine::new(),
    }
}
