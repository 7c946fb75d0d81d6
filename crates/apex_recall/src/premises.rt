//! What each step of a search rests on besides the laws. Each is the contract of a function that
//! changes nothing.
ghost use Rattle.std.specs.Prelude.{◌<◌, ◌^◌};
ghost use Rattle.apex_laws.specs.Laws.{OfEachTable};
ghost use Rattle.apex_recall.specs.Laws.{FormsReach};
ghost use Rattle.apex_recall.specs.Formed.{FormsAreReady, FormsFit, PartsAreKept};

use crate::laws::forms_stay_in_bounds;
use apex_configs::Table;
use apex_pace::Pace;

/// The turns of a pace fit in 32 bits.
pub fn turns_are_few(pace: Pace)
    ensures { pace.turns < 2 ^ 32 }
{
    let _turns = pace.turns;
}

/// The canonical forms of a table stay in bounds.
pub fn forms_reach(table: &Table)
    ensures { FormsReach table.now }
{
    table.lawful();
    forms_stay_in_bounds();
}

/// The canonical form of a situation that is reached fits in its words.
fn forms_fit()
    ensures { OfEachTable FormsFit }
{}

/// The canonical form of a situation that is reached can be stored and restored, and an event can
/// be made in it.
pub fn forms_are_ready()
    ensures { OfEachTable FormsAreReady }
{
    forms_fit();
}

/// A situation that is reached has the fixed parts that the table gives.
pub fn parts_are_kept()
    ensures { OfEachTable PartsAreKept }
{}
