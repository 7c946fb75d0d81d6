//! The laws of the texts of schedules. Each is the contract of a function that changes nothing.
ghost use Rattle.std.specs.Prelude.{◌≡◌, ℕ, ◌<◌, ◌≤◌, [], All, List, None, Some, length};
ghost use Rattle.apex_types.specs.declared.limits.TheConstants.{MOST_ENTRIES};
ghost use Rattle.apex_history.specs.Words.{parts};
ghost use Rattle.apex_schedules.specs.Groups.{HasNoGroups, grouped_items_of};
ghost use Rattle.apex_schedules.specs.Terms.{Event};
ghost use Rattle.apex_schedules.specs.Schedule.{events_of_items, items_of};
ghost use Rattle.apex_schedules.specs.declared.schedule.Item.{Item};
ghost use Rattle.apex_schedules.specs.Printing.{IsOfSchedule, items_for, schedule_text};

/// The text of events is read back: it has their items, and these have the events. No events have
/// the empty text, which is no schedule.
#[tactic(auto, using(crate::proofs::ReadBack::read_back, crate::proofs::ReadBack::events_back))]
pub fn events_are_read_back()
    ensures read { (events : List Event) → All IsOfSchedule events → 0 < length events
        → length events ≤ MOST_ENTRIES → items_of (schedule_text events) ≡ Some (items_for events) }
    ensures none { items_of (schedule_text []) ≡ None }
    ensures events { (events : List Event) → events_of_items (items_for events) ≡ events }
{}

/// No schedule of the same events has fewer items than the text of the events.
#[tactic(auto, using(crate::proofs::Fewest::fewest))]
pub fn no_schedule_has_fewer_items()
    ensures { (items : List Item)
        → length (items_for (events_of_items items)) ≤ length items }
{}

/// A text that has no line feed, no bracket and no space but one between two words is read with
/// groups as without them.
#[tactic(auto, using(crate::proofs::Plain::as_a_schedule))]
pub fn a_text_without_groups_is_a_schedule()
    ensures { (text : List ℕ) → HasNoGroups text → All (λ word. 0 < length word) (parts 32 text)
        → grouped_items_of text ≡ items_of text }
{}
