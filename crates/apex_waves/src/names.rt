//! The names and the codes of signals.
ghost use Rattle.std.specs.Prelude.{◌≡◌, ◌+◌, ◌≤◌, ◌++◌, decimal, length};
ghost use Rattle.apex_types.specs.declared.limits.TheConstants.{MOST_NAME};
ghost use Rattle.apex_waves.specs.Names.{code_text, dump_name, is_plain, letter, name_byte, number_text, signal_name};
ghost use Rattle.apex_waves.specs.declared.names.TheConstants.{CODE_ROOM, NAME_ROOM, NUMBER_ROOM};
ghost use Rattle.apex_waves.specs.declared.sheets.TheConstants.{SHEET_ROOM};

use crate::sheets::{Sheet, put};
use crate::signals::Signal;
use apex_configs::Table;
use apex_names::{
    blackboard_name, buffer_name, event_flag_name, mutex_name, process_name, semaphore_name,
};
use apex_texts::hex_digit;
use apex_types::MOST_NAME;
use itoa::Buffer;

/// The most bytes of a number.
pub(crate) const NUMBER_ROOM: usize = 20;

/// The most bytes of a code.
pub(crate) const CODE_ROOM: usize = 1 + NUMBER_ROOM;

/// The most bytes of a name: each of the table's may need three.
pub(crate) const NAME_ROOM: usize = 3 * MOST_NAME;

/// Puts the number in decimal digits.
pub(crate) fn put_number(sheet: &mut Sheet, number: u64)
    requires { length sheet.old + NUMBER_ROOM ≤ SHEET_ROOM }
    ensures text { sheet.new ≡ sheet.old ++ decimal number }
    ensures short { length sheet.new ≤ length sheet.old + NUMBER_ROOM }
{
    let mut digits = Buffer::new();
    put(sheet, digits.format(number));
}

fn is_plain(byte: u8) -> bool
    ensures { result ≡ is_plain byte }
{
    byte.is_ascii_alphanumeric() || byte == b'-' || byte == b'_'
}

fn put_name_byte(sheet: &mut Sheet, byte: u8)
    requires { length sheet.old + 3 ≤ SHEET_ROOM }
    ensures text { sheet.new ≡ sheet.old ++ name_byte byte }
    ensures short { length sheet.new ≤ length sheet.old + 3 }
{
    if is_plain(byte) {
        sheet.put(&[byte]);
    } else {
        sheet.put(&[b'%', hex_digit(byte / 16), hex_digit(byte % 16)]);
    }
}

/// Puts a name of the table.
pub(crate) fn put_name(sheet: &mut Sheet, name: &[u8])
    requires few { length name.now ≤ MOST_NAME }
    requires room { length sheet.old + NAME_ROOM ≤ SHEET_ROOM }
    ensures text { sheet.new ≡ sheet.old ++ dump_name name.now }
    ensures short { length sheet.new ≤ length sheet.old + NAME_ROOM }
{
    for byte in name {
        put_name_byte(sheet, *byte);
    }
}

/// Puts the name of a signal.
#[tactic(auto, using(std::proofs::Common::append_assoc))]
pub(crate) fn put_signal_name(sheet: &mut Sheet, table: &Table, signal: &Signal)
    requires { length sheet.old + NAME_ROOM ≤ SHEET_ROOM }
    ensures text { sheet.new ≡ sheet.old ++ signal_name table.now signal.now }
    ensures short { length sheet.new ≤ length sheet.old + NAME_ROOM }
{
    match signal {
        Signal::Core(core) => {
            put(sheet, "core");
            put_number(sheet, u64::from(core.number()));
        }
        Signal::Process(process) => put_name(sheet, process_name(table, *process)),
        Signal::Semaphore(semaphore) => put_name(sheet, semaphore_name(table, *semaphore)),
        Signal::Buffer(buffer) => put_name(sheet, buffer_name(table, *buffer)),
        Signal::Blackboard(blackboard) => put_name(sheet, blackboard_name(table, *blackboard)),
        Signal::EventFlag(event) => put_name(sheet, event_flag_name(table, *event)),
        Signal::Mutex(mutex) => put_name(sheet, mutex_name(table, *mutex)),
    }
}

/// The letter with which the code of a signal begins.
fn letter(signal: &Signal) -> &'static str
    ensures value { result.now ≡ letter signal.now }
    ensures short { length result.now ≤ 1 }
{
    match signal {
        Signal::Core(_) => "c",
        Signal::Process(_) => "p",
        Signal::Semaphore(_) => "s",
        Signal::Buffer(_) => "b",
        Signal::Blackboard(_) => "k",
        Signal::EventFlag(_) => "e",
        Signal::Mutex(_) => "m",
    }
}

/// The number of a signal as users see it.
fn number(signal: &Signal) -> u32
    ensures { decimal result ≡ number_text signal.now }
{
    match signal {
        Signal::Core(core) => u32::from(core.number()),
        Signal::Process(process) => process.number(),
        Signal::Semaphore(semaphore) => semaphore.number(),
        Signal::Buffer(buffer) => buffer.number(),
        Signal::Blackboard(blackboard) => blackboard.number(),
        Signal::EventFlag(event) => event.number(),
        Signal::Mutex(mutex) => mutex.number(),
    }
}

/// Puts the code of a signal.
#[tactic(auto, using(std::proofs::Common::append_assoc))]
pub(crate) fn put_code(sheet: &mut Sheet, signal: &Signal)
    requires { length sheet.old + CODE_ROOM ≤ SHEET_ROOM }
    ensures text { sheet.new ≡ sheet.old ++ code_text signal.now }
    ensures short { length sheet.new ≤ length sheet.old + CODE_ROOM }
{
    put(sheet, letter(signal));
    put_number(sheet, u64::from(number(signal)));
}
