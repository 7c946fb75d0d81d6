//! Runs at a pace as the pace sees them.
ghost use Rattle.std.specs.Prelude.{◌≡◌};
ghost use Rattle.apex_rounds.specs.Rounds.{paced_in};

use crate::rounds::Rounds;
use apex_machine::OpenWork;
use apex_pace::AtPace;
use apex_store::Store;
use apex_types::{CoreId, Mode, ProcessId};

impl<S: Store> AtPace for Rounds<S> {
    ghost table = { λ r. r.kernel.table };

    ghost paced = { λ r. paced_in r };

    fn cores(&self) -> u8 {
        self.kernel.table().cores()
    }

    fn now(&self) -> u64 {
        self.kernel.now()
    }

    fn is_starting(&self) -> bool {
        self.kernel.store().mode() == Mode::ColdStart
    }

    fn has_due_call(&self, core: CoreId) -> bool {
        let situation = self.kernel.situation();
        situation.due_call(self.kernel.table(), core).is_some()
    }

    fn chosen(&self, core: CoreId) -> Option<ProcessId> {
        self.kernel.store().chosen(core)
    }

    fn work(&self, core: CoreId) -> Option<OpenWork> {
        self.kernel.situation().work(core)
    }

    fn next_instant(&self) -> Option<u64> {
        self.kernel.store().next_instant()
    }

    fn turns(&self, core: CoreId) -> u64 {
        u64::from(self.counts.turns(core))
    }

    fn worked(&self, core: CoreId) -> u64 {
        self.kernel.now() - self.counts.since(core)
    }
}
