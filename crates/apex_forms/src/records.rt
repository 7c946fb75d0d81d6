//! The words of a process.
ghost use Rattle.std.specs.Prelude.{◌≡◌};
ghost use Rattle.apex_forms.specs.Forms.{with_moments};
ghost use Rattle.apex_forms.specs.Records.{FitsRecord, byte_word, mark_word, record_words};
ghost use Rattle.apex_forms.specs.Codes.{code_of};

use crate::codes::{WaitCode, holding_word, instant_word, suspender_byte};
use crate::forms::Moments;
use apex_machine::Record;

/// The words of a process.
pub const RECORD_WORDS: usize = 11;

/// The first word of a process, with this code of its wait: bytes.
fn byte_word(fields: &Record, wait: &WaitCode) -> u64
    requires { wait.now ≡ code_of fields.now.wait }
    ensures { result ≡ byte_word fields.now }
{
    u64::from_le_bytes([
        fields.core.number(),
        fields.base,
        u8::from(fields.started),
        suspender_byte(fields.suspended),
        wait.kind,
        wait.place,
        fields.step,
        0,
    ])
}

/// The second word of a process that has these moments: marks.
fn mark_word(created: bool, fields: &Record, moments: Moments) -> u64
    ensures { result ≡ mark_word created (with_moments fields.now moments) }
{
    let (created, due, deadline) = (
        u8::from(created),
        u8::from(moments.due.is_some()),
        u8::from(moments.deadline.is_some()),
    );
    u64::from_le_bytes([created, due, deadline, 0, 0, 0, 0, 0])
}

/// The words of a process that has these moments in place of its own: a word of bytes and one of
/// marks, then those of its wait, its stamp, its due, its deadline, its release, and the mutexes that
/// it owns.
pub(crate) fn record_words(created: bool, fields: &Record, moments: Moments) -> [u64; RECORD_WORDS]
    requires { FitsRecord (with_moments fields.now moments) }
    ensures { result ≡ record_words created (with_moments fields.now moments) }
{
    let wait = WaitCode::of(&fields.wait);
    let owned = fields.owned.as_slice();
    [
        byte_word(fields, &wait),
        mark_word(created, fields, moments),
        wait.word,
        moments.since as u64,
        instant_word(moments.due),
        instant_word(moments.deadline),
        moments.release,
        holding_word(owned.get(0).copied()),
        holding_word(owned.get(1).copied()),
        holding_word(owned.get(2).copied()),
        holding_word(owned.get(3).copied()),
    ]
}
