//! The owner of a mutex.

ghost use Rattle.std.specs.Prelude.{◌≡◌, ◌<◌, ◌≤◌, length, position, IfSome};
ghost use Rattle.apex_machine.specs.services.Callers.{IsReadyCaller};
ghost use Rattle.apex_types.specs.declared.limits.TheConstants.{MOST_PROCESSES};
ghost use Rattle.apex_machine.specs.processes.Owners.{is_owner, is_waiting_owner, owns};

use crate::store::Store;
use apex_machine::Record;
use apex_types::{Caller, MutexId, ProcessId, Timeout};

/// The place of the first record that owns the mutex.
fn place_owning(mutex: MutexId, records: &[Record]) -> Option<usize>
    ensures { result ≡ position (owns mutex) records.now }
{
    records.iter().position(|row| row.owns(mutex))
}

/// The process of the lowest number that owns the mutex.
pub fn first_owner(mutex: MutexId, records: &[Record]) -> Option<ProcessId>
    requires { length records.now ≤ MOST_PROCESSES }
    ensures value { result ≡ position (owns mutex) records.now }
    ensures known { IfSome result (λ p. p < length records.now) }
{
    match place_owning(mutex, records) {
        Some(place) => Some(ProcessId::at(place as u8)),
        None => None,
    }
}

/// The caller owns a mutex.
pub fn is_owner<S: Store>(store: &S, caller: &Caller) -> bool
    requires { IsReadyCaller (S.roster store.now) caller.now }
    ensures { result ≡ is_owner (S.roster store.now) caller.now }
{
    match caller {
        Caller::Process(process) => store.record(*process).owns_some(),
        Caller::Init | Caller::Nobody => false,
    }
}

/// The caller owns a mutex, and the timeout is not 0.
pub fn is_waiting_owner<S: Store>(store: &S, caller: &Caller, timeout: Timeout) -> bool
    requires { IsReadyCaller (S.roster store.now) caller.now }
    ensures { result ≡ is_waiting_owner (S.roster store.now) caller.now timeout }
{
    timeout != Timeout::Poll && is_owner(store, caller)
}
