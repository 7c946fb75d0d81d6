//! The caller of a call, as the guards of a row see it.
ghost use Rattle.std.specs.Prelude.{◌≡◌};
ghost use Rattle.apex_machine.specs.services.Callers.{is_by_process};
ghost use Rattle.apex_reasons.specs.Callers.{is_no_process};

use apex_types::{Caller, ProcessId};

/// No process calls.
pub(crate) fn is_no_process(caller: &Caller) -> bool
    ensures { result ≡ is_no_process caller.now }
{
    match caller {
        Caller::Process(_) => false,
        Caller::Init | Caller::Nobody => true,
    }
}

/// The process is the caller.
pub(crate) fn is_by_process(process: ProcessId, caller: &Caller) -> bool
    ensures { result ≡ is_by_process process caller.now }
{
    match caller {
        Caller::Process(other) => process == *other,
        Caller::Init | Caller::Nobody => false,
    }
}
