//! The printing of a dump, entry by entry, while the partition runs.
ghost use Rattle.std.specs.Prelude.{◌≡◌, [], ◌++◌, ◌+◌, ◌≤◌, All, IfErr, OnErr, OnOk, length};
ghost use Rattle.std.specs.Io.KnownBytes.{Appends};
ghost use Rattle.apex_machine.specs.Events.{IsWithin};
ghost use Rattle.apex_machine.specs.Machine.{accept, opening, run};
ghost use Rattle.apex_types.specs.Limits.{latest};
ghost use Rattle.apex_dispatch.specs.Kernel.{kernel_in};
ghost use Rattle.apex_history.specs.Counted.{inner_of, failures_of, CountsFailure, AppendsBeginning, IsOfWrite};
ghost use Rattle.apex_waves.specs.Instants.{units};
ghost use Rattle.apex_waves.specs.Dumps.{dump_text, end_text, time_line};
ghost use Rattle.apex_waves.specs.Heads.{head_text};
ghost use Rattle.apex_waves.specs.Snapshots.{snapshot_in};
ghost use Rattle.apex_waves.specs.Printing.{Grows, IsAt};
ghost use Rattle.apex_waves.specs.Signals.{signals_of};
ghost use Rattle.apex_waves.specs.declared.sheets.TheConstants.{SHEET_ROOM};
ghost use Rattle.apex_waves.specs.declared.signals.TheConstants.{MOST_SIGNALS};
ghost use Rattle.apex_waves.specs.declared.values.TheConstants.{STEP_ROOM, TIME_ROOM};

use crate::heads::{put_first, put_opening, put_scopes};
use crate::instants::units;
use crate::levels::Levels;
use crate::names::put_number;
use crate::sheets::{Sheet, put};
use crate::signals::{Signal, signals_of};
use crate::values::{STEP_ROOM, put_changes, put_values};
use apex_dispatch::Kernel;
use apex_history::{Counted, Sink};
use apex_moments::Instant;
use apex_store::Store;
use apex_types::Event;
use std::io::Result;

/// How far a dump has come: the instant and the levels of its latest moment.
#[derive(Drop)]
struct Course {
    instant: Instant,
    levels: Levels,
}

/// Puts the line of a time.
#[tactic(auto, using(std::proofs::Common::append_assoc))]
fn put_time(sheet: &mut Sheet, time: u64)
    requires { length sheet.old + TIME_ROOM ≤ SHEET_ROOM }
    ensures text { sheet.new ≡ sheet.old ++ time_line time }
    ensures short { length sheet.new ≤ length sheet.old + TIME_ROOM }
{
    put(sheet, "#");
    put_number(sheet, time);
    put(sheet, "\n");
}

/// Puts what comes before the first entry, and gives the course of a kernel before any event.
fn put_head<S: Store>(sheet: &mut Sheet, kernel: &Kernel<S>, signals: &[Signal]) -> Course
    requires opened { kernel.now.machine ≡ opening kernel.now.table }
    requires signals { signals.now ≡ signals_of kernel.now.table }
    requires few { length signals.now ≤ MOST_SIGNALS }
    requires empty { sheet.old ≡ [] }
    ensures text { sheet.new
        ≡ head_text kernel.now.table (snapshot_in kernel.now.table kernel.now.machine) }
    ensures course { IsAt kernel.now.table kernel.now.machine result }
{
    kernel.holds();
    put_opening(sheet);
    put_scopes(sheet, kernel.table());
    put_first(sheet);
    let levels = put_values(sheet, kernel, signals);
    put(sheet, "$end\n");
    Course {
        instant: Instant::opening(),
        levels,
    }
}

/// Makes the event, and puts the step of its entry. `course` is that before it, and then that after
/// it.
fn put_event<S: Store>(
    sheet: &mut Sheet,
    kernel: &mut Kernel<S>,
    event: Event,
    signals: &[Signal],
    course: &mut Course,
)
    requires within { IsWithin kernel.old.table.cores event }
    requires signals { signals.now ≡ signals_of kernel.old.table }
    requires few { length signals.now ≤ MOST_SIGNALS }
    requires course { IsAt kernel.old.table kernel.old.machine course.old }
    requires room { length sheet.old + STEP_ROOM ≤ SHEET_ROOM }
    ensures done { kernel.new ≡ kernel_in kernel.old.table
        (accept kernel.old.table kernel.old.machine event) kernel.new.store }
    ensures course { IsAt kernel.old.table kernel.new.machine course.new }
    ensures grows { Grows kernel.old.table kernel.old.machine kernel.new.machine
        sheet.old sheet.new }
{
    kernel.holds();
    let Ok(()) = kernel.accept(event) else {
        return;
    };
    kernel.holds();
    course.instant = course.instant.next(kernel.now());
    put_time(sheet, units(course.instant));
    course.levels = put_changes(sheet, kernel, signals, course.levels.as_slice());
}

/// Puts the end of the dump.
fn put_end<S: Store>(sheet: &mut Sheet, kernel: &Kernel<S>, course: &Course)
    requires course { IsAt kernel.now.table kernel.now.machine course.now }
    requires room { length sheet.old + STEP_ROOM ≤ SHEET_ROOM }
    ensures { sheet.new ≡ sheet.old ++ end_text kernel.now.machine }
{
    kernel.holds();
    let end = course.instant.next(kernel.now());
    put_time(sheet, units(end));
}

/// Writes the value change dump of the run of the events, on a kernel before any event. It leaves
/// out events for which the history has no room. A tick has 100,000 units of the dump's time; the
/// moments of one tick are in it as on the axis of a trace.
///
/// Takes no memory: the text is gathered in the sheet. If a write failed, a prefix of the dump was
/// written. The text that the sheet held before is forgotten.
pub fn print_waves<S: Store, W: Sink>(
    kernel: &mut Kernel<S>,
    events: &[Event],
    sheet: &mut Sheet,
    writer: &mut Counted<W>,
) -> Result<()>
    requires opened { kernel.old.machine ≡ opening kernel.old.table }
    requires within { All (IsWithin kernel.old.table.cores) events.now }
    ensures ok { OnOk result
        (Appends (W.contents (inner_of writer.old)) (W.contents (inner_of writer.new))
        (dump_text kernel.old.table
        (run kernel.old.table (opening kernel.old.table) events.now))) }
    ensures err { OnErr result
        (AppendsBeginning (W.contents (inner_of writer.old)) (W.contents (inner_of writer.new))
        (dump_text kernel.old.table
        (run kernel.old.table (opening kernel.old.table) events.now))) }
    ensures empty { sheet.new ≡ [] }
    ensures counted { CountsFailure result (failures_of writer.old) (failures_of writer.new) }
    ensures failed { IfErr result (IsOfWrite W.accepts (inner_of writer.new)) }
{
    kernel.holds();
    sheet.clear();
    let signals = signals_of(kernel.table());
    let mut course = put_head(sheet, kernel, signals.as_slice());
    for event in events {
        sheet.make_room(STEP_ROOM, writer)?;
        put_event(sheet, kernel, *event, signals.as_slice(), &mut course);
    }
    sheet.make_room(STEP_ROOM, writer)?;
    put_end(sheet, kernel, &course);
    sheet.hand_on(writer)
}
