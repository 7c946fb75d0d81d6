//! The laws of a pace. Each is the contract of a function that changes nothing.
ghost use Rattle.std.specs.Prelude.{ℕ};
ghost use Rattle.apex_machine.specs.table.Table.{Table};
ghost use Rattle.apex_pace.specs.Laws.{AllowsNoMore, FirstGoesOn, FirstKeepsPace, IsPace, IsTighter, MoreTurnsKeepNoMore, NoTurnIsIdle, TimeGoesOn};
ghost use Rattle.apex_pace.specs.Terms.{Pace};
ghost use Rattle.apex_pace.specs.Pace.{Paced};

/// The first schedule of a pace keeps the pace, but for its last tick, which may be cut short: it
/// then goes from the time before it to the time that was asked for. It stops there, unless a due or
/// a deadline was left to be served before it.
pub fn first_schedule_keeps_the_pace()
    ensures { (pace : Pace) (table : Table) (until : ℕ) → FirstKeepsPace pace table until }
{}

/// The first schedule of a pace ends only at the time that was asked for, in a state at rest, or as soon
/// as it has an event for each entry that the history has room for.
pub fn first_schedule_goes_on()
    ensures { (pace : Pace) (table : Table) (until : ℕ) → IsPace pace
        → FirstGoesOn pace table until }
{}

/// Time never stands still: once each core has had its turns a tick is allowed, or the partition is
/// at rest.
pub fn time_goes_on()
    ensures { (pace : Pace) (table : Table) (s : Paced) → IsPace pace → TimeGoesOn pace table s }
{}

/// A schedule of a pace has no idle turn.
pub fn no_turn_is_idle()
    ensures { (pace : Pace) (table : Table) (s : Paced) → NoTurnIsIdle pace table s }
{}

/// More turns a tick, or work that takes longer, allow no more.
pub fn tighter_paces_allow_no_more()
    ensures allowed { (pace other : Pace) (table : Table) (s : Paced) → IsTighter pace other
        → AllowsNoMore pace other table s }
    ensures kept { (pace other : Pace) (table : Table) (s : Paced) → IsTighter pace other
        → MoreTurnsKeepNoMore pace other table s }
{}
