//! A sheet of text, in which the values of a moment are gathered before they are written.
ghost use Rattle.std.specs.Prelude.{◌≡◌, ◌+◌, ◌≤◌, ◌++◌, length};
ghost use Rattle.apex_waves.specs.declared.sheets.TheConstants.{SHEET_ROOM};

use apex_history::Gathered;

/// The most bytes that a sheet holds.
pub(crate) const SHEET_ROOM: usize = 131_072;

/// A buffer of text. The values of many moments are gathered in it, so that they are written at once.
pub type Sheet = Gathered<SHEET_ROOM>;

/// Puts this text behind the text.
pub(crate) fn put(sheet: &mut Sheet, more: &str)
    requires { length sheet.old + length more.now ≤ SHEET_ROOM }
    ensures text { sheet.new ≡ sheet.old ++ more.now }
    ensures len { length sheet.new ≡ length sheet.old + length more.now }
{
    sheet.put(more.as_bytes());
}
