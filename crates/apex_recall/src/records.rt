//! The process of words.
ghost use Rattle.std.specs.Prelude.{◌≡◌, ◌<◌, ◌^◌, length, slice_index};
ghost use Rattle.apex_types.specs.declared.limits.TheConstants.{MOST_OWNED};
ghost use Rattle.apex_forms.specs.declared.records.TheConstants.{RECORD_WORDS};
ghost use Rattle.apex_recall.specs.Records.{IsCoreWord, is_created_in, owned_in, record_from};

use crate::values::{holding_in, instant_in, suspender_in, wait_of};
use apex_machine::{Attributes, Holdings, Record};
use apex_types::CoreId;

/// The word before those of the mutexes that a process owns.
const BEFORE_OWNED: usize = 7;

/// The mutexes of these words.
fn owned_in(words: &[u64]) -> Holdings
    requires { length words.now ≡ MOST_OWNED }
    ensures { result ≡ owned_in words.now }
{
    let mut owned = Holdings::none();
    for word in words {
        if let Some(holding) = holding_in(*word) {
            owned.push(holding);
        }
    }
    owned
}

/// The process of these words is created.
pub(crate) fn is_created_in(words: &[u64]) -> bool
    requires { length words.now ≡ RECORD_WORDS }
    ensures { result ≡ is_created_in words.now }
{
    words[1].to_le_bytes()[0] == 1
}

/// The record of these words of a process, with these attributes and an empty inbox.
pub(crate) fn record_from(attributes: Attributes, words: &[u64]) -> Record
    requires words { length words.now ≡ RECORD_WORDS }
    requires core { IsCoreWord (slice_index words.now 0) }
    requires since { slice_index words.now 3 < 2 ^ 63 }
    ensures { result ≡ record_from attributes words.now }
{
    let [core, base, started, suspended, kind, place, step, _] = words[0].to_le_bytes();
    let [_, has_due, has_deadline, _, _, _, _, _] = words[1].to_le_bytes();
    Record {
        attributes,
        core: CoreId::new(core),
        base,
        started: started == 1,
        suspended: suspender_in(suspended),
        wait: wait_of(kind, place, words[2]),
        since: words[3] as i64,
        due: instant_in(has_due == 1, words[4]),
        deadline: instant_in(has_deadline == 1, words[5]),
        release: words[6],
        owned: owned_in(&words[BEFORE_OWNED..]),
        step,
        inbox: None,
    }
}
