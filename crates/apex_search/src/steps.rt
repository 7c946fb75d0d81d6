//! One choice of a search.
ghost use Rattle.std.specs.Prelude.{◌≡◌, Some, length};
ghost use Rattle.apex_choices.specs.Choices.{AreWordsAfter, IsChosen};
ghost use Rattle.apex_choices.specs.Counts.{IsSameOnCores, paced_in};
ghost use Rattle.apex_explore.specs.Systems.{GoesTo, step_of};
ghost use Rattle.apex_forms.specs.Stored.{word_count};
ghost use Rattle.apex_laws.specs.GoesOn.{CanGoOn};
ghost use Rattle.apex_machine.specs.Events.{IsWithin};
ghost use Rattle.apex_machine.specs.Situations.{deed};
ghost use Rattle.apex_pace.specs.Laws.{IsPace};
ghost use Rattle.apex_pace.specs.Pace.{paced_step};
ghost use Rattle.apex_recall.specs.Formed.{IsForm, IsFormed};
ghost use Rattle.apex_recall.specs.Laws.{FormsReach};
ghost use Rattle.apex_recall.specs.Restored.{IsOfTable};
ghost use Rattle.apex_search.specs.Facts.{has_fact, has_some, shown};
ghost use Rattle.apex_search.specs.Steps.{searched, step_by};

use crate::questions::Question;
use apex_choices::PacedSituation;
use apex_configs::Table;
use apex_dispatch::Deed;
use apex_explore::Taken;
use apex_forms::put_words;
use apex_pace::Pace;
use apex_recall::{forms_are_ready, parts_are_kept, turns_are_few};
use apex_types::{Event, Notices};

/// The entry of a deed that was done last shows one of the facts that are asked for.
fn shows(paced: &PacedSituation, question: &Question, deed: &Deed, notices: &Notices) -> bool
    ensures { result ≡ has_some question.now (shown deed.now.caller deed.now.call deed.now.reply
        notices.now (paced_in paced.now).situation.roster) }
{
    question.is_in(deed, notices, paced.situation.store())
}

/// Makes the event, and answers whether its entry has one of the facts that are asked for.
pub(crate) fn make(
    paced: &mut PacedSituation,
    table: &Table,
    question: &Question,
    event: &Event,
    notices: &mut Notices,
) -> bool
    requires can { CanGoOn table.now 1 (paced_in paced.old).situation }
    requires counts { AreWordsAfter event.now (paced_in paced.old) }
    requires event { IsWithin table.now.cores event.now }
    ensures step { IsSameOnCores (paced_in paced.new)
        (paced_step table.now (paced_in paced.old) event.now) }
    ensures asked { result
        ≡ has_fact question.now (deed table.now (paced_in paced.old).situation event.now) }
{
    let deed = paced.make(table, *event, notices);
    shows(paced, question, &deed, notices)
}

/// Makes the event in this situation, which is in canonical form, and puts the words of the
/// form that it goes on to into `next`. Answers what came of it.
pub(crate) fn step(
    paced: &mut PacedSituation,
    pace: Pace,
    table: &Table,
    question: &Question,
    event: Event,
    notices: &mut Notices,
    next: &mut [u64],
) -> Taken
    requires pace { IsPace pace }
    requires reach { FormsReach table.now }
    requires form { IsFormed pace table.now (paced_in paced.old) }
    requires room { length next.old ≡ word_count table.now }
    requires event { IsChosen pace table.now (paced_in paced.old) event }
    ensures step { step_of result next.new ≡ step_by (searched table.now pace question.now)
        (paced_in paced.old) (Some event) }
    ensures state { GoesTo (IsForm pace table.now) (step_of result next.new) }
    ensures parts { IsOfTable table.now (paced_in paced.new).situation }
{
    table.lawful();
    turns_are_few(pace);
    forms_are_ready();
    parts_are_kept();
    if make(paced, table, question, &event, notices) {
        return Taken::Hit;
    }
    put_words(paced, pace, table, next);
    Taken::Next
}
