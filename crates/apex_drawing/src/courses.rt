//! A run that is drawn: it keeps no log.
ghost use Rattle.std.specs.Prelude.{◌≡◌, ◌+◌, ℕ, []};
ghost use Rattle.apex_dispatch.specs.Deeds.{Does};
ghost use Rattle.apex_dispatch.specs.Situations.{situation_in};
ghost use Rattle.apex_laws.specs.GoesOn.{CanGoOn};
ghost use Rattle.apex_machine.specs.Events.{IsWithin};
ghost use Rattle.apex_machine.specs.Situations.{deed, maker, step};

use apex_configs::Table;
use apex_dispatch::{Deed, Situation};
use apex_moments::Instant;
use apex_store::Store;
use apex_traces::Tracks;
use apex_types::{Event, Notices, Who};

/// A run that is drawn. An entry goes into the picture at once, so no log keeps it.
pub(crate) struct Course<S: Store> {
    pub(crate) situation: Situation<S>,
    /// The notices of the latest event.
    pub(crate) notices: Notices,
    /// The number of entries.
    pub(crate) entries: u32,
    /// The instant after the latest entry.
    pub(crate) instant: Instant,
    /// If a trace is drawn, the tracks after the latest entry.
    pub(crate) shown: Tracks,
}

impl<S: Store> Drop for Course<S> {
    fn drop(self) {
        let Course {
            situation: _situation,
            notices: _notices,
            entries: _,
            instant: _,
            shown: _shown,
        } = self;
    }
}

/// The maker of an event.
pub(crate) fn maker(event: &Event) -> Who
    ensures { result ≡ maker event.now }
{
    match event {
        Event::Turn(core) => Who::Core(*core),
        Event::Tick(_) => Who::Ticker,
    }
}

/// Makes the event. Answers its deed, and leaves its notices alone in `notices`.
#[inline(always)]
pub(crate) fn make<S: Store>(
    table: &Table,
    situation: &mut Situation<S>,
    event: Event,
    notices: &mut Notices,
) -> Deed
    requires within { IsWithin table.now.cores event }
    requires can { CanGoOn table.now 1 (situation_in situation.old) }
    ensures situation { situation_in situation.new
        ≡ step table.now (situation_in situation.old) event }
    ensures answer { Does (deed table.now (situation_in situation.old) event)
        result.caller result.call result.reply
        situation.new.roster situation.new.objects [] notices.new }
    ensures goes_on { (left : ℕ) → CanGoOn table.now (left + 1) (situation_in situation.old)
        → CanGoOn table.now left (situation_in situation.new) }
{
    match event {
        Event::Turn(core) => situation.turn(table, core, notices),
        Event::Tick(n) => situation.tick(table, n, notices),
    }
}
