//! The canonical form of a situation and of what a pace counts.
ghost use Rattle.std.specs.Prelude.{◌≡◌, ℕ};
ghost use Rattle.apex_alike.specs.Canonical.{IsFit};
ghost use Rattle.apex_choices.specs.Counts.{IsSamePaced, count_at, paced_in};
ghost use Rattle.apex_forms.specs.Forms.{canonical_paced, kept_turns, kept_worked};

use crate::forms::make_canonical;
use apex_choices::{Counts, PacedSituation};
use apex_dispatch::Situation;
use apex_machine::OpenWork;
use apex_pace::Pace;
use apex_types::{CoreId, MOST_CORES};

/// The turns count up to those of the pace.
pub(crate) fn kept_turns(pace: Pace, turns: u64) -> u64
    ensures { result ≡ kept_turns pace turns }
{
    turns.min(u64::from(pace.turns))
}

/// The ticks since open work began count up to its amount, and only for unbroken work.
pub(crate) fn kept_worked(begun: Option<OpenWork>, worked: u64) -> u64
    ensures { result ≡ kept_worked begun worked }
{
    match begun {
        Some(begun) if begun.unbroken => worked.min(u64::from(begun.work.amount.ticks())),
        _ => 0,
    }
}

/// What the pace counts, as far as it matters: the turns up to those of the pace, and the ticks
/// of unbroken work up to its amount.
fn kept_counts(paced: &PacedSituation, pace: Pace) -> Counts
    ensures turns { (core : ℕ) → count_at result.turns core
        ≡ kept_turns pace ((paced_in paced.now).turns core) }
    ensures worked { (core : ℕ) → count_at result.worked core
        ≡ kept_worked ((paced_in paced.now).situation.works core)
        ((paced_in paced.now).worked core) }
{
    paced.counts.cover_all();
    let mut counts = Counts::new();
    for number in 0..MOST_CORES as u8 {
        let core = CoreId::new(number);
        let turns = kept_turns(pace, paced.counts.turns(core));
        let worked = kept_worked(paced.work(core), paced.counts.worked(core));
        counts.set(core, turns, worked);
    }
    counts
}

/// The canonical form, in the same memory.
pub fn canonical_form(paced: PacedSituation, pace: Pace) -> PacedSituation
    requires { IsFit paced.situation.roster }
    ensures { IsSamePaced (paced_in result) (canonical_paced pace (paced_in paced)) }
{
    let counts = kept_counts(&paced, pace);
    let PacedSituation { situation, .. } = paced;
    let (mut store, objects, works, made) = situation.into_parts();
    make_canonical(&mut store);
    PacedSituation {
        situation: Situation::new(store, objects, works, made),
        counts,
    }
}
