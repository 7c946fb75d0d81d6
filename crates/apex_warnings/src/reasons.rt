//! Why the calls of some warnings are refused: laws of the machine, each the contract of a function
//! that changes nothing.
ghost use Rattle.apex_warnings.specs.Reasons.{RefusesAperiodicWaits, RefusesDisplays, RefusesPeriodicSuspensions, RefusesResumes, RefusesSends, RefusesSuspends};

/// A message that is empty or too long is always refused.
pub fn unfit_messages_are_refused()
    ensures sends { RefusesSends }
    ensures displays { RefusesDisplays }
{}

/// PERIODIC_WAIT of an aperiodic process is always refused.
pub fn aperiodic_waits_are_refused()
    ensures { RefusesAperiodicWaits }
{}

/// A periodic process is never suspended, by itself or by another, and never resumed.
pub fn periodic_processes_are_not_suspended()
    ensures by_itself { RefusesPeriodicSuspensions }
    ensures by_another { RefusesSuspends }
    ensures resumed { RefusesResumes }
{}
