//! The values of signals, and their changes.
ghost use Rattle.std.specs.Prelude.{◌≡◌, ◌+◌, ◌*◌, ◌≤◌, ◌++◌, flat_map, length, map};
ghost use Rattle.apex_waves.specs.Levels.{level_of};
ghost use Rattle.apex_waves.specs.Snapshots.{Snapshot, snapshot_in};
ghost use Rattle.apex_waves.specs.Values.{change_in, change_text, level_text, value_in, value_text};
ghost use Rattle.apex_waves.specs.declared.sheets.TheConstants.{SHEET_ROOM};
ghost use Rattle.apex_waves.specs.declared.signals.TheConstants.{MOST_SIGNALS};
ghost use Rattle.apex_waves.specs.declared.values.TheConstants.{LEVEL_ROOM, VALUE_ROOM};

use crate::levels::{Level, Levels, is_same_level, level_of};
use crate::names::{CODE_ROOM, NAME_ROOM, NUMBER_ROOM, put_code, put_name, put_number};
use crate::sheets::{Sheet, put};
use crate::signals::{MOST_SIGNALS, Signal};
use apex_configs::Table;
use apex_dispatch::Kernel;
use apex_history::state_word;
use apex_names::process_name;
use apex_store::Store;

/// The most bytes of a level.
const LEVEL_ROOM: usize = 1 + NAME_ROOM;

/// The most bytes of the line of a value: the level, a space, the code and a line feed.
pub(crate) const VALUE_ROOM: usize = LEVEL_ROOM + CODE_ROOM + 2;

/// The most bytes of the line of a time.
pub(crate) const TIME_ROOM: usize = NUMBER_ROOM + 2;

/// The most bytes of an entry: the line of its time, and a line for each signal.
pub(crate) const STEP_ROOM: usize = TIME_ROOM + MOST_SIGNALS * VALUE_ROOM;

/// Puts the text of a level.
#[tactic(auto, using(std::proofs::Common::append_assoc))]
fn put_level(sheet: &mut Sheet, table: &Table, level: &Level)
    requires { length sheet.old + LEVEL_ROOM ≤ SHEET_ROOM }
    ensures text { sheet.new ≡ sheet.old ++ level_text table.now level.now }
    ensures short { length sheet.new ≤ length sheet.old + LEVEL_ROOM }
{
    match level {
        Level::State(state) => {
            put(sheet, "s");
            put(sheet, state_word(*state));
        }
        Level::Process(None) => put(sheet, "s(none)"),
        Level::Process(Some(process)) => {
            put(sheet, "s");
            put_name(sheet, process_name(table, *process));
        }
        Level::Count(count) => {
            put(sheet, "r");
            put_number(sheet, *count);
        }
    }
}

/// Puts the line of a signal's value.
#[tactic(auto, using(std::proofs::Common::append_assoc))]
fn put_value(sheet: &mut Sheet, table: &Table, signal: &Signal, level: &Level)
    requires { length sheet.old + VALUE_ROOM ≤ SHEET_ROOM }
    ensures text { sheet.new ≡ sheet.old ++ value_text table.now signal.now level.now }
    ensures short { length sheet.new ≤ length sheet.old + VALUE_ROOM }
{
    put_level(sheet, table, level);
    put(sheet, " ");
    put_code(sheet, signal);
    put(sheet, "\n");
}

/// Puts the line of a signal if its level is not the one before.
fn put_change(sheet: &mut Sheet, table: &Table, signal: &Signal, before: &Level, after: &Level)
    requires { length sheet.old + VALUE_ROOM ≤ SHEET_ROOM }
    ensures text { sheet.new ≡ sheet.old ++ change_text table.now signal.now before.now after.now }
    ensures short { length sheet.new ≤ length sheet.old + VALUE_ROOM }
{
    if is_same_level(before, after) {
        return;
    }
    put_value(sheet, table, signal, after);
}

/// Puts the values of the signals, and gives their levels.
pub(crate) fn put_values<S: Store>(
    sheet: &mut Sheet,
    kernel: &Kernel<S>,
    signals: &[Signal],
) -> Levels
    requires few { length signals.now ≤ MOST_SIGNALS }
    requires room { length sheet.old + VALUE_ROOM * length signals.now ≤ SHEET_ROOM }
    ensures text { sheet.new ≡ sheet.old ++ flat_map (value_in kernel.now.table
        (snapshot_in kernel.now.table kernel.now.machine)) signals.now }
    ensures levels { result.items
        ≡ map (level_of (snapshot_in kernel.now.table kernel.now.machine)) signals.now }
    ensures short { length sheet.new ≤ length sheet.old + VALUE_ROOM * length signals.now }
{
    let mut levels = Levels::new();
    for signal in signals {
        let level = level_of(kernel, signal);
        put_value(sheet, kernel.table(), signal, &level);
        levels.push(level);
    }
    levels
}

/// Puts the values that are not those before, and gives the levels of all signals.
pub(crate) fn put_changes<S: Store>(
    sheet: &mut Sheet,
    kernel: &Kernel<S>,
    signals: &[Signal],
    before: &[Level],
) -> Levels
    requires few { length signals.now ≤ MOST_SIGNALS }
    requires many { length before.now ≡ length signals.now }
    requires room { length sheet.old + VALUE_ROOM * length signals.now ≤ SHEET_ROOM }
    ensures text { (old : Snapshot) → before.now ≡ map (level_of old) signals.now
        → sheet.new ≡ sheet.old ++ flat_map (change_in kernel.now.table old
        (snapshot_in kernel.now.table kernel.now.machine)) signals.now }
    ensures levels { result.items
        ≡ map (level_of (snapshot_in kernel.now.table kernel.now.machine)) signals.now }
    ensures short { length sheet.new ≤ length sheet.old + VALUE_ROOM * length signals.now }
{
    let mut after = Levels::new();
    for place in 0..signals.len() {
        let signal = &signals[place];
        let level = level_of(kernel, signal);
        put_change(sheet, kernel.table(), signal, &before[place], &level);
        after.push(level);
    }
    after
}
