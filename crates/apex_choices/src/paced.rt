//! A situation, and what a pace counts of each of its cores.
ghost use Rattle.std.specs.Prelude.{◌≡◌};
ghost use Rattle.apex_pace.specs.Pace.{is_starting};
ghost use Rattle.apex_choices.specs.Counts.{paced_in};

use crate::counts::Counts;
use apex_dispatch::Situation;
use apex_machine::OpenWork;
use apex_store::{PlainStore, Store};
use apex_types::{CoreId, Mode};
use std::marker::Model;

/// A situation, and what a pace counts of each of its cores.
#[derive(Drop)]
pub struct PacedSituation {
    /// The situation to which the events so far have led.
    pub situation: Situation<PlainStore>,
    /// The turns and the ticks of each core that the pace has counted by then.
    pub counts: Counts,
}

impl Model for PacedSituation {
    ghost use Rattle.apex_choices.specs.Counts.{StoredPaced};

    ghost Value = { StoredPaced };

    ghost view = { λ p. record { situation = p.situation; counts = p.counts } };
}

impl PacedSituation {
    /// The partition is still in COLD_START.
    pub(crate) fn is_starting(&self) -> bool
        ensures { result ≡ is_starting (paced_in self.now) }
    {
        self.situation.store().mode() == Mode::ColdStart
    }

    /// The work that is open on the core.
    pub fn work(&self, core: CoreId) -> Option<OpenWork>
        ensures { result ≡ (paced_in self.now).situation.works core }
    {
        self.situation.work(core)
    }
}
