//! A paced situation with its table.
ghost use Rattle.apex_choices.specs.Counts.{paced_in};

use crate::paced::PacedSituation;
use apex_configs::Table;
use apex_machine::OpenWork;
use apex_pace::AtPace;
use apex_store::Store;
use apex_types::{CoreId, ProcessId};

/// A paced situation, and the table of which it is one.
#[derive(Drop)]
pub(crate) struct InTable<'a> {
    pub(crate) paced: &'a PacedSituation,
    pub(crate) table: &'a Table,
}

impl AtPace for InTable<'_> {
    ghost table = { λ i. i.table.now };

    ghost paced = { λ i. paced_in i.paced.now };

    fn cores(&self) -> u8 {
        self.table.cores()
    }

    fn now(&self) -> u64 {
        let paced = self.paced;
        paced.situation.now()
    }

    fn is_starting(&self) -> bool {
        self.paced.is_starting()
    }

    fn has_due_call(&self, core: CoreId) -> bool {
        let paced = self.paced;
        paced.situation.due_call(self.table, core).is_some()
    }

    fn chosen(&self, core: CoreId) -> Option<ProcessId> {
        let paced = self.paced;
        paced.situation.store().chosen(core)
    }

    fn work(&self, core: CoreId) -> Option<OpenWork> {
        self.paced.work(core)
    }

    fn next_instant(&self) -> Option<u64> {
        let paced = self.paced;
        paced.situation.store().next_instant()
    }

    fn turns(&self, core: CoreId) -> u64 {
        let paced = self.paced;
        paced.counts.turns(core)
    }

    fn worked(&self, core: CoreId) -> u64 {
        let paced = self.paced;
        paced.counts.worked(core)
    }
}
