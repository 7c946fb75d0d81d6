//! The ends of the program, their statuses, and what is reported.
ghost use Rattle.std.specs.Prelude.{◌≡◌};
ghost use Rattle.apex_history.specs.Counted.{inner_of, failures_of};
ghost use Rattle.apex_console.specs.Streams.{Told};
ghost use Rattle.apex_lab_cli.specs.Ends.{end_in, report_of, status_of};
ghost use Rattle.apex_lab_cli.specs.Faults.{line_of_fault};
ghost use Rattle.apex_views.specs.Faults.{excerpt_line};

use crate::faults::{LabFault, entry_line, process_line, states_line};
use apex_console::{CliFault, fault_line, write_error};
use apex_history::{Counted, Lines, Sink};
use apex_pictures::Excerpt;
use apex_tasks::USAGE;
use apex_views::{excerpt_line, schedule_line, window_line};

/// The end of the program if it meets no fault.
#[derive(Drop)]
pub enum Ending {
    /// All was done: the run or the reason was shown, the history is legal, no schedule leads to what a
    /// search looks for, or there is no warning about a table.
    Complete,
    /// This part of a run was shown, of which more was asked for.
    InPart(Excerpt),
    /// The history departs from what the partition does: the text of the verdict.
    Departed(Lines),
    /// A search found a schedule.
    Found,
    /// The history that was checked departs: the explanation was written.
    Explained,
    /// There is a warning about a table.
    Warned,
    /// A text is no table: its faults were written.
    Refused,
}

/// The program's exit status.
pub fn status_of(outcome: &Result<Ending, LabFault>) -> u8
    ensures { result ≡ status_of (end_in outcome.now) }
{
    match outcome {
        Ok(Ending::Complete | Ending::InPart(_)) => 0,
        Ok(Ending::Departed(_) | Ending::Found | Ending::Explained | Ending::Warned) => 1,
        Ok(Ending::Refused) => 3,
        Err(fault) => fault.status(),
    }
}

/// Reports the fault on the error writer.
#[tactic(auto, using(crate::proofs::Endings::other_line))]
fn tell_fault<E: Sink>(fault: &LabFault, error_writer: &mut Counted<E>)
    ensures { Told (line_of_fault fault.now)
        (E.contents (inner_of error_writer.old)) (E.contents (inner_of error_writer.new))
        (failures_of error_writer.old) (failures_of error_writer.new) }
{
    match fault {
        LabFault::Schedule(bad) => {
            write_error(schedule_line(*bad).as_str().as_bytes(), error_writer);
        }
        LabFault::NoProcess(name) => {
            write_error(process_line(name).as_slice(), error_writer);
        }
        LabFault::NoEntry(number) => {
            write_error(entry_line(*number).as_str().as_bytes(), error_writer);
        }
        LabFault::StatesFull(room) => {
            write_error(states_line(*room).as_str().as_bytes(), error_writer);
        }
        LabFault::Empty(empty) => {
            write_error(window_line(*empty).as_str().as_bytes(), error_writer);
        }
        LabFault::Common(CliFault::Usage) => write_error(USAGE.as_bytes(), error_writer),
        LabFault::Common(fault) => {
            write_error(fault_line(Some(*fault)).as_str().as_bytes(), error_writer);
        }
    }
}

/// Reports the part that was shown on the error writer.
fn tell_part<E: Sink>(excerpt: Excerpt, error_writer: &mut Counted<E>)
    ensures { Told (excerpt_line excerpt)
        (E.contents (inner_of error_writer.old)) (E.contents (inner_of error_writer.new))
        (failures_of error_writer.old) (failures_of error_writer.new) }
{
    write_error(excerpt_line(excerpt).as_str().as_bytes(), error_writer);
}

/// Reports the part that was shown, the departure or the fault, if there is one, on the error writer.
pub fn tell<E: Sink>(outcome: &Result<Ending, LabFault>, error_writer: &mut Counted<E>)
    ensures { Told (report_of (end_in outcome.now))
        (E.contents (inner_of error_writer.old)) (E.contents (inner_of error_writer.new))
        (failures_of error_writer.old) (failures_of error_writer.new) }
{
    match outcome {
        Ok(
            Ending::Complete | Ending::Found | Ending::Explained | Ending::Warned | Ending::Refused,
        ) => {}
        Ok(Ending::InPart(excerpt)) => tell_part(*excerpt, error_writer),
        Ok(Ending::Departed(verdict)) => write_error(verdict.as_slice(), error_writer),
        Err(fault) => tell_fault(fault, error_writer),
    }
}
