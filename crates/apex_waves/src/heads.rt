//! The head of a dump: the declarations of the signals.
ghost use Rattle.std.specs.Prelude.{◌≡◌, ◌+◌, ◌*◌, ◌≤◌, ◌++◌, flat_map, length};
ghost use Rattle.apex_types.specs.declared.limits.TheConstants.{MOST_PROCESSES};
ghost use Rattle.apex_waves.specs.Heads.{declaration_text, first_text, opening_text, scope_text, type_word};
ghost use Rattle.apex_waves.specs.Kinds.{of_kinds, signals_in};
ghost use Rattle.apex_waves.specs.declared.heads.TheConstants.{DECLARATION_ROOM, OPENING_ROOM, SCOPE_ROOM, TYPE_ROOM};
ghost use Rattle.apex_waves.specs.declared.sheets.TheConstants.{SHEET_ROOM};

use crate::kinds::{Kind, SCOPE_WORD_ROOM};
use crate::names::{CODE_ROOM, NAME_ROOM, put_code, put_signal_name};
use crate::sheets::{Sheet, put};
use crate::signals::Signal;
use apex_configs::Table;
use apex_types::MOST_PROCESSES;

/// The most bytes of a type.
const TYPE_ROOM: usize = 8;

/// The most bytes of a declaration.
const DECLARATION_ROOM: usize = TYPE_ROOM + CODE_ROOM + NAME_ROOM + 13;

/// The most bytes of a scope.
pub(crate) const SCOPE_ROOM: usize = SCOPE_WORD_ROOM + MOST_PROCESSES * DECLARATION_ROOM + 34;

/// The most bytes of what comes before the scopes, or of what follows them.
pub(crate) const OPENING_ROOM: usize = 50;

/// Puts the beginning of the file.
#[tactic(auto, unfolding(crate::specs::Heads::opening_text))]
pub(crate) fn put_opening(sheet: &mut Sheet)
    requires { length sheet.old + OPENING_ROOM ≤ SHEET_ROOM }
    ensures text { sheet.new ≡ sheet.old ++ opening_text }
    ensures short { length sheet.new ≤ length sheet.old + OPENING_ROOM }
{
    put(sheet, "$version apex $end\n$timescale 10 ns $end\n");
}

/// The type of a signal's variable, with its size.
fn type_word(signal: &Signal) -> &'static str
    ensures value { result.now ≡ type_word signal.now }
    ensures short { length result.now ≤ TYPE_ROOM }
{
    match signal {
        Signal::Core(_) | Signal::Process(_) | Signal::Mutex(_) => "string 1",
        Signal::Semaphore(_) | Signal::Buffer(_) | Signal::Blackboard(_) | Signal::EventFlag(_) =>
            "real 64",
    }
}

/// Puts the declaration of a signal.
#[tactic(auto, using(std::proofs::Common::append_assoc))]
fn put_declaration(sheet: &mut Sheet, table: &Table, signal: &Signal)
    requires { length sheet.old + DECLARATION_ROOM ≤ SHEET_ROOM }
    ensures text { sheet.new ≡ sheet.old ++ declaration_text table.now signal.now }
    ensures short { length sheet.new ≤ length sheet.old + DECLARATION_ROOM }
{
    put(sheet, "$var ");
    put(sheet, type_word(signal));
    put(sheet, " ");
    put_code(sheet, signal);
    put(sheet, " ");
    put_signal_name(sheet, table, signal);
    put(sheet, " $end\n");
}

/// Puts the declarations of the signals of a kind.
fn put_declarations(sheet: &mut Sheet, table: &Table, kind: Kind)
    requires { length sheet.old + MOST_PROCESSES * DECLARATION_ROOM ≤ SHEET_ROOM }
    ensures text { sheet.new
        ≡ sheet.old ++ flat_map (declaration_text table.now) (signals_in table.now kind) }
    ensures short { length sheet.new ≤ length sheet.old + MOST_PROCESSES * DECLARATION_ROOM }
{
    for place in 0..kind.count(table) {
        let signal = kind.signal(table, place as u8);
        put_declaration(sheet, table, &signal);
    }
}

/// Puts the scope of a kind.
fn put_scope(sheet: &mut Sheet, table: &Table, kind: Kind)
    requires { length sheet.old + SCOPE_ROOM ≤ SHEET_ROOM }
    ensures text { sheet.new ≡ sheet.old ++ scope_text table.now kind }
    ensures short { length sheet.new ≤ length sheet.old + SCOPE_ROOM }
{
    put(sheet, "$scope module ");
    put(sheet, kind.scope());
    put(sheet, " $end\n");
    put_declarations(sheet, table, kind);
    put(sheet, "$upscope $end\n");
}

/// Puts the scopes of all kinds.
#[tactic(auto, using(std::proofs::Common::append_assoc))]
pub(crate) fn put_scopes(sheet: &mut Sheet, table: &Table)
    requires { length sheet.old + 7 * SCOPE_ROOM ≤ SHEET_ROOM }
    ensures text { sheet.new ≡ sheet.old ++ of_kinds (scope_text table.now) }
    ensures short { length sheet.new ≤ length sheet.old + 7 * SCOPE_ROOM }
{
    put_scope(sheet, table, Kind::Core);
    put_scope(sheet, table, Kind::Process);
    put_scope(sheet, table, Kind::Semaphore);
    put_scope(sheet, table, Kind::Buffer);
    put_scope(sheet, table, Kind::Blackboard);
    put_scope(sheet, table, Kind::EventFlag);
    put_scope(sheet, table, Kind::Mutex);
}

/// Puts the end of the declarations.
#[tactic(auto, unfolding(crate::specs::Heads::first_text))]
pub(crate) fn put_first(sheet: &mut Sheet)
    requires { length sheet.old + OPENING_ROOM ≤ SHEET_ROOM }
    ensures text { sheet.new ≡ sheet.old ++ first_text }
    ensures short { length sheet.new ≤ length sheet.old + OPENING_ROOM }
{
    put(sheet, "$enddefinitions $end\n#0\n$dumpvars\n");
}
