//! When waits end by themselves and deadlines pass.
ghost use Rattle.std.specs.Prelude.{◌≡◌, ◌<◌, ◌≤◌, length, position, IfSome};
ghost use Rattle.apex_types.specs.declared.limits.TheConstants.{MOST_PROCESSES};
ghost use Rattle.apex_machine.specs.processes.Dues.{HasTime, IsFrom, due_after, earliest, is_due_at, is_missed_at};

use crate::orders::{is_due_at, is_missed_at};
use crate::store::Store;
use apex_machine::{Record, sooner};
use apex_types::{ProcessId, Timeout};

/// The least due or deadline of the records, by a scan from the last one down.
pub fn earliest(records: &[Record]) -> Option<u64>
    ensures { result ≡ earliest records.now }
{
    let mut earliest: Option<u64> = None;
    for place in (0..records.len()).rev() {
        let fields = &records[place];
        earliest = sooner(fields.due, sooner(fields.deadline, earliest));
    }
    earliest
}

/// The place of the first record whose due is this instant.
fn place_due(instant: u64, records: &[Record]) -> Option<usize>
    ensures { result ≡ position (is_due_at instant) records.now }
{
    records.iter().position(|fields| is_due_at(instant, fields))
}

/// The process of the lowest number whose due is this instant.
pub fn first_due(instant: u64, records: &[Record]) -> Option<ProcessId>
    requires { length records.now ≤ MOST_PROCESSES }
    ensures value { result ≡ position (is_due_at instant) records.now }
    ensures known { IfSome result (λ p. p < length records.now) }
{
    match place_due(instant, records) {
        Some(place) => Some(ProcessId::at(place as u8)),
        None => None,
    }
}

/// The place of the first record whose deadline is this instant.
fn place_missed(instant: u64, records: &[Record]) -> Option<usize>
    ensures { result ≡ position (is_missed_at instant) records.now }
{
    records
        .iter()
        .position(|fields| is_missed_at(instant, fields))
}

/// The process of the lowest number whose deadline is this instant.
pub fn first_missed(instant: u64, records: &[Record]) -> Option<ProcessId>
    requires { length records.now ≤ MOST_PROCESSES }
    ensures value { result ≡ position (is_missed_at instant) records.now }
    ensures known { IfSome result (λ p. p < length records.now) }
{
    match place_missed(instant, records) {
        Some(place) => Some(ProcessId::at(place as u8)),
        None => None,
    }
}

/// The instant in ticks at which a wait that begins now ends by itself, if it does.
#[tactic(auto, using(apex_machine::proofs::Dues::due_later))]
pub fn due_after<S: Store>(store: &S, timeout: Timeout) -> Option<u64>
    requires time { HasTime (S.roster store.now) }
    ensures value { result ≡ due_after (S.roster store.now) timeout }
    ensures later { IsFrom (S.roster store.now).now result }
{
    match timeout {
        Timeout::Poll | Timeout::Infinite => None,
        Timeout::Ticks(ticks) => Some(store.now() + u64::from(ticks)),
    }
}
