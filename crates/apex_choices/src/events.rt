//! The events of a paced situation.
ghost use Rattle.std.specs.Prelude.{◌≡◌, [], ◌+◌, ◌<◌, ◌≤◌, ◌^◌, IfOk, IfSome};
ghost use Rattle.apex_types.specs.Limits.{latest};
ghost use Rattle.apex_types.specs.declared.entries.Event.TheVariants.{Turn, Tick};
ghost use Rattle.apex_types.specs.declared.limits.TheConstants.{MOST_TICKS};
ghost use Rattle.apex_choices.specs.Choices.{AreWordsAfter, event_of};
ghost use Rattle.apex_choices.specs.Counts.{IsSameOnCores, IsSamePaced, count_at, paced_in};
ghost use Rattle.apex_dispatch.specs.Deeds.{Does};
ghost use Rattle.apex_laws.specs.GoesOn.{CanGoOn};
ghost use Rattle.apex_machine.specs.Events.{IsWithin};
ghost use Rattle.apex_machine.specs.Situations.{deed};
ghost use Rattle.apex_pace.specs.Pace.{paced_opening, paced_step};

use crate::counts::Counts;
use crate::in_table::InTable;
use crate::paced::PacedSituation;
use apex_configs::Table;
use apex_dispatch::{Deed, Situation};
use apex_pace::{Pace, may_turn, next_tick};
use apex_store::PlainStore;
use apex_types::{CoreId, Event, Notices};
use std::alloc::{AllocError, Global};

impl PacedSituation {
    /// Before any event. Fails only for want of memory.
    pub fn opening(alloc: Global, table: &Table) -> Result<PacedSituation, AllocError>
        ensures { IfOk result (λ paced. IsSamePaced (paced_in paced) (paced_opening table.now)) }
    {
        let store = PlainStore::new(alloc, table)?;
        Ok(PacedSituation {
            situation: Situation::opening(alloc, table, store)?,
            counts: Counts::new(),
        })
    }

    /// The event of a choice, if it is allowed.
    pub fn event(&self, pace: Pace, table: &Table, choice: u32) -> Option<Event>
        requires { self.now.situation.roster.now ≤ latest }
        ensures value { result ≡ event_of pace table.now (paced_in self.now) choice }
        ensures range { IfSome result (IsWithin table.now.cores) }
    {
        let here = InTable { paced: self, table };
        if choice < u32::from(table.cores()) {
            let core = CoreId::new(choice as u8);
            if may_turn(&here, pace, core) {
                Some(Event::Turn(core))
            } else {
                None
            }
        } else {
            match next_tick(&here, pace) {
                Some(n) => Some(Event::Tick(n)),
                None => None,
            }
        }
    }

    /// A turn of the core. Answers its deed, and leaves its notices alone in `notices`.
    fn turn(&mut self, table: &Table, core: CoreId, notices: &mut Notices) -> Deed
        requires can { CanGoOn table.now 1 (paced_in self.old).situation }
        requires counts { count_at self.old.counts.turns core + 1 < 2 ^ 64 }
        ensures step { IsSameOnCores (paced_in self.new)
            (paced_step table.now (paced_in self.old) (Turn core)) }
        ensures done { Does (deed table.now (paced_in self.old).situation (Turn core))
            result.caller result.call result.reply (paced_in self.new).situation.roster
            (paced_in self.new).situation.objects [] notices.new }
    {
        let counts = !self.is_starting();
        self.counts.turn(core, counts);
        self.situation.turn(table, core, notices)
    }

    /// A tick of `n`. Answers its deed, and leaves its notices alone in `notices`.
    fn tick(&mut self, table: &Table, n: u32, notices: &mut Notices) -> Deed
        requires range { (1 ≤ n) × (n ≤ MOST_TICKS) }
        requires can { CanGoOn table.now 1 (paced_in self.old).situation }
        requires counts { AreWordsAfter (Tick n) (paced_in self.old) }
        ensures step { IsSameOnCores (paced_in self.new)
            (paced_step table.now (paced_in self.old) (Tick n)) }
        ensures done { Does (deed table.now (paced_in self.old).situation (Tick n))
            result.caller result.call result.reply (paced_in self.new).situation.roster
            (paced_in self.new).situation.objects [] notices.new }
    {
        table.lawful();
        let before = self.situation.now();
        let deed = self.situation.tick(table, n, notices);
        let went = self.situation.now().saturating_sub(before);
        self.counts.tick(went);
        deed
    }

    /// Makes the event. Answers its deed, and leaves its notices alone in `notices`.
    pub fn make(&mut self, table: &Table, event: Event, notices: &mut Notices) -> Deed
        requires can { CanGoOn table.now 1 (paced_in self.old).situation }
        requires counts { AreWordsAfter event (paced_in self.old) }
        requires event { IsWithin table.now.cores event }
        ensures step { IsSameOnCores (paced_in self.new)
            (paced_step table.now (paced_in self.old) event) }
        ensures done { Does (deed table.now (paced_in self.old).situation event)
            result.caller result.call result.reply (paced_in self.new).situation.roster
            (paced_in self.new).situation.objects [] notices.new }
    {
        match event {
            Event::Turn(core) => self.turn(table, core, notices),
            Event::Tick(n) => self.tick(table, n, notices),
        }
    }
}
