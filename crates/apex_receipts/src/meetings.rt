//! The scribe and a voice hear of each other.
ghost use Rattle.std.specs.Prelude.{◌≡◌, ◌+◌};
ghost use Rattle.apex_receipts.specs.Notes.{said};
ghost use Rattle.apex_receipts.specs.Rules.{HasMet, HasWritten, head_of};

use crate::law::{Head, Known};
use crate::speakers::Speaker;
use apex_types::LentEntry;

/// The scribe hears the notes that the voice had heard, and then the voice those that the scribe
/// has seen.
pub fn meet(head: &Head, scribe: &mut Speaker, voice: &mut Speaker, heard: &Known)
    requires head { head.now ≡ head_of scribe.old.book }
    requires books { (voice.old.book ≡ scribe.old.book) × (heard.now.book ≡ scribe.old.book) }
    ensures books { (scribe.new.book ≡ scribe.old.book) × (voice.new.book ≡ voice.old.book) }
    ensures ids { (scribe.new.id ≡ scribe.old.id) × (voice.new.id ≡ voice.old.id) }
    ensures voice { said voice.old.id voice.new.log ≡ said voice.old.id voice.old.log }
    ensures met { HasMet scribe.old.id voice.old.id scribe.old.log voice.old.log heard.now.log
        scribe.new.log }
{
    scribe.hear(head, heard);
    voice.hear(head, scribe.seen());
}

/// The voice calls, and the scribe writes an entry down for it.
pub fn write_for(
    head: &Head,
    scribe: &mut Speaker,
    voice: &mut Speaker,
    heard: &Known,
    entry: &LentEntry<'_>,
)
    requires head { head.now ≡ head_of scribe.old.book }
    requires books { (voice.old.book ≡ scribe.old.book) × (heard.now.book ≡ scribe.old.book) }
    ensures books { (scribe.new.book ≡ scribe.old.book) × (voice.new.book ≡ voice.old.book) }
    ensures ids { (scribe.new.id ≡ scribe.old.id) × (voice.new.id ≡ voice.old.id) }
    ensures voice { said voice.old.id voice.new.log ≡ said voice.old.id voice.old.log + 1 }
    ensures written { HasWritten scribe.old.id voice.old.id scribe.old.log voice.old.log
        heard.now.log entry.entry.now scribe.new.log }
{
    let mut known = scribe.seen().again();
    known.learn(heard);
    voice.call(head, &known);
    scribe.write(head, voice, entry);
}
