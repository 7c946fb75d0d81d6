//! The machine's own lines.
ghost use Rattle.std.specs.Prelude.{◌≡◌, ◌+◌, ◌≤◌};
ghost use Rattle.arrayvec.specs.ArrayVec.{array_vec_len};
ghost use Rattle.apex_types.specs.declared.limits.TheConstants.{MOST_LINE};
ghost use Rattle.apex_calls.specs.Lines.{IsPrintable, line_of};
ghost use Rattle.apex_history.specs.declared.puts.TheConstants.{LINES_ROOM};

use apex_configs::Table;
use apex_history::{Lines, NextSteps, put_line};
use apex_types::LentEntry;

/// The bytes of lines behind which one more is put. Once there are more, all are forgotten
/// together.
const KEPT_ROOM: usize = 1_024;

/// Room for the lines that the machine expects, and the steps that its processes will ask for next.
#[derive(Drop)]
pub(crate) struct ExpectedLines {
    /// The latest lines, one behind the other.
    lines: Lines,
    steps: NextSteps,
}

impl ExpectedLines {
    pub(crate) fn new() -> ExpectedLines {
        ExpectedLines {
            lines: Lines::new(),
            steps: NextSteps::new(),
        }
    }

    /// The line of the entry, with its line feed. Takes no memory.
    #[tactic(auto, using(std::proofs::lemmas::List::drop_at))]
    pub(crate) fn line(&mut self, table: &Table, entry: &LentEntry<'_>) -> &[u8]
        requires { IsPrintable table.now entry.now }
        ensures { result.now ≡ line_of table.now entry.entry.now }
    {
        make_room(&mut self.lines);
        let start = self.lines.len();
        put_line(&mut self.lines, table, &mut self.steps, entry);
        &self.lines.as_slice()[start..]
    }
}

/// Forgets the lines if there are many. Then one more fits behind them.
fn make_room(lines: &mut Lines)
    ensures { array_vec_len lines.new + MOST_LINE ≤ LINES_ROOM }
{
    if lines.len() > KEPT_ROOM {
        lines.clear();
    }
}
