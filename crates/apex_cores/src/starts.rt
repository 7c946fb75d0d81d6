//! The starts of a run's threads, any of which may be refused.
ghost use Rattle.std.specs.Prelude.{◌≡◌, ℕ, Bool, true, false, IfErr, OnErr, OnOk};
ghost use Rattle.apex_cores.specs.declared.faults.RunFault.TheVariants.{NoThread};

use crate::faults::RunFault;

/// Answers for each thread of a run whether it may start (this profile).
pub trait Starts {
    // The answers that may be given: the value before, the thread's number, the answer, and the
    // value afterwards.
    ghost asks: { Self → ℕ → Bool → Self → Type 0 };

    /// Whether the thread of this number may start. The thread of a core has the core's number, and
    /// that of the ticker the next one. A run asks for each thread right before it starts it.
    fn may(&mut self, thread: u32) -> bool
        ensures { asks self.old thread result self.new };
}

/// Lets every thread start.
#[derive(Clone, Copy)]
pub struct EveryThread;

impl Starts for EveryThread {
    ghost asks = { λ _ _ answer _. answer ≡ true };

    fn may(&mut self, _thread: u32) -> bool {
        true
    }
}

/// Asks for the thread of this number; `NoThread` if it is refused.
pub fn ask<S: Starts>(starts: &mut S, thread: u32) -> Result<(), RunFault>
    ensures agreed { OnOk result (S.asks starts.old thread true starts.new) }
    ensures refused { OnErr result (S.asks starts.old thread false starts.new) }
    ensures fault { IfErr result (λ fault. fault ≡ NoThread) }
{
    if starts.may(thread) {
        Ok(())
    } else {
        Err(RunFault::NoThread)
    }
}
