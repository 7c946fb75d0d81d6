//! The faults with which the program ends, their lines and their statuses.
ghost use Rattle.std.specs.Prelude.{◌≡◌};
ghost use Rattle.apex_console.specs.Faults.{fault_of_read};
ghost use Rattle.apex_console.specs.declared.CliFault.TheVariants.{Memory};
ghost use Rattle.apex_lab_cli.specs.Faults.{entry_line, fault_of_search, fault_of_showing, fault_of_task, process_line, states_line, status_of_fault};
ghost use Rattle.apex_lab_cli.specs.declared.faults.LabFault.TheVariants.{Common};

use apex_console::CliFault;
use apex_history::ReadFault;
use apex_inquiries::SearchFault;
use apex_showings::{BadSchedule, EmptyWindow};
use apex_tasks::TaskFault;
use apex_texts::{push_number, put, put_bytes};
use apex_types::Name;
use apex_views::ShowFault;
use arrayvec::{ArrayString, ArrayVec};
use std::alloc::AllocError;

/// Room for the bytes of a line that reports a fault with a number.
const NUMBER_ROOM: usize = 64;

/// A line that reports a fault with a number.
pub type NumberLine = ArrayString<NUMBER_ROOM>;

/// Room for the bytes of the line that reports that there is no such process.
const PROCESS_ROOM: usize = 64;

/// The line that reports that there is no such process.
pub type ProcessLine = ArrayVec<u8, PROCESS_ROOM>;

/// The reason why the program did not do all that was asked.
#[derive(Clone, Copy)]
pub enum LabFault {
    /// A fault that the program `apex` has too.
    Common(CliFault),
    /// The text is no schedule.
    Schedule(BadSchedule),
    /// The table has no process of this name or number.
    NoProcess(Name),
    /// The history of a run has no entry of this number.
    NoEntry(u32),
    /// A search has room for this many states, and reached more.
    StatesFull(u32),
    /// The run has no entry in the window of a picture, or none but idle ones.
    Empty(EmptyWindow),
}

impl LabFault {
    /// The program's exit status.
    pub fn status(self) -> u8
        ensures { result ≡ status_of_fault self }
    {
        match self {
            LabFault::Common(fault) => fault.status(),
            LabFault::Schedule(_) | LabFault::NoProcess(_) | LabFault::NoEntry(_) => 2,
            LabFault::Empty(_) => 2,
            LabFault::StatesFull(_) => 4,
        }
    }
}

impl From<TaskFault> for LabFault {
    ghost from_gives = { λ error fault. fault ≡ fault_of_task error };

    fn from(error: TaskFault) -> LabFault {
        match error {
            TaskFault::Common(fault) => LabFault::Common(fault),
            TaskFault::Schedule(bad) => LabFault::Schedule(bad),
        }
    }
}

impl From<SearchFault> for LabFault {
    ghost from_gives = { λ error fault. fault ≡ fault_of_search error };

    fn from(error: SearchFault) -> LabFault {
        match error {
            SearchFault::Common(fault) => LabFault::Common(fault),
            SearchFault::NoProcess(name) => LabFault::NoProcess(name),
            SearchFault::StatesFull(room) => LabFault::StatesFull(room),
        }
    }
}

impl From<ShowFault> for LabFault {
    ghost from_gives = { λ error fault. fault ≡ fault_of_showing error };

    fn from(error: ShowFault) -> LabFault {
        match error {
            ShowFault::Common(fault) => LabFault::Common(fault),
            ShowFault::Schedule(bad) => LabFault::Schedule(bad),
            ShowFault::Empty(empty) => LabFault::Empty(empty),
            ShowFault::NoProcess(name) => LabFault::NoProcess(name),
        }
    }
}

impl From<AllocError> for LabFault {
    ghost from_gives = { λ _ fault. fault ≡ Common Memory };

    fn from(_error: AllocError) -> LabFault {
        LabFault::Common(CliFault::Memory)
    }
}

impl From<ReadFault> for LabFault {
    ghost from_gives = { λ error fault. fault ≡ Common (fault_of_read error) };

    fn from(error: ReadFault) -> LabFault {
        LabFault::Common(CliFault::from(error))
    }
}

/// The line that reports that the history of a run has no entry of this number.
#[tactic(auto, using(std::proofs::Common::append_assoc))]
pub fn entry_line(number: u32) -> NumberLine
    ensures { result.bytes ≡ entry_line number }
{
    let mut line = NumberLine::new();
    line.push_str("apex_lab: no entry ");
    push_number(&mut line, number);
    line.push_str("\n");
    line
}

/// The line that reports that a search has no room for more states.
#[tactic(auto, using(std::proofs::Common::append_assoc))]
pub fn states_line(room: u32) -> NumberLine
    ensures { result.bytes ≡ states_line room }
{
    let mut line = NumberLine::new();
    line.push_str("apex_lab: search full after ");
    push_number(&mut line, room);
    line.push_str(" states\n");
    line
}

/// The line that reports that there is no process of this name or number.
#[tactic(auto, using(std::proofs::Common::append_assoc))]
pub fn process_line(name: &Name) -> ProcessLine
    ensures { result.items ≡ process_line name.now }
{
    let mut line = ProcessLine::new();
    put(&mut line, "apex_lab: no process ");
    put_bytes(&mut line, name.as_bytes());
    put(&mut line, "\n");
    line
}
