//! The texts of times in a trace.
ghost use Rattle.std.specs.Prelude.{◌≡◌, ◌+◌, ◌<◌, ◌≤◌, ◌++◌};
ghost use Rattle.arrayvec.specs.ArrayVec.{array_vec_len};
ghost use Rattle.apex_traces.specs.Times.{fraction_text, time_text};
ghost use Rattle.apex_traces.specs.declared.times.TheConstants.{TIME_ROOM};

use crate::bytes::Bytes;
use crate::pieces::{DIGITS, add_digit, add_number, add_pair, add_text};

/// The most bytes of the text of a time: its microseconds, a point and three digits.
pub(crate) const TIME_ROOM: usize = DIGITS + 4;

/// Adds the thousandths beyond the units, if there are any, without zeros at the end.
#[inline(always)]
#[tactic(auto, using(std::proofs::Common::append_assoc, crate::proofs::Numbers::fraction_pair))]
fn add_fraction<const ROOM: usize>(text: &mut Bytes<ROOM>, thousandths: u16)
    requires digits { thousandths < 1000 }
    requires room { array_vec_len text.old + 4 ≤ ROOM }
    ensures text { text.new.items ≡ text.old.items ++ fraction_text thousandths }
    ensures short { array_vec_len text.new ≤ array_vec_len text.old + 4 }
{
    if thousandths == 0 {
        return;
    }
    add_text(text, *b".");
    if thousandths % 100 == 0 {
        add_digit(text, (thousandths / 100) as u8);
        return;
    }
    add_pair(text, (thousandths / 10) as u8);
    if thousandths % 10 != 0 {
        add_digit(text, (thousandths % 10) as u8);
    }
}

/// Adds the text of a time in nanoseconds: microseconds, and up to three digits behind a point.
#[inline(always)]
#[tactic(auto, using(std::proofs::Common::append_assoc), unfolding(crate::specs::Times::time_text))]
pub(crate) fn add_time<const ROOM: usize>(text: &mut Bytes<ROOM>, time: u64)
    requires { array_vec_len text.old + TIME_ROOM ≤ ROOM }
    ensures text { text.new.items ≡ text.old.items ++ time_text time }
    ensures short { array_vec_len text.new ≤ array_vec_len text.old + TIME_ROOM }
{
    add_number(text, time / 1_000);
    add_fraction(text, (time % 1_000) as u16);
}
