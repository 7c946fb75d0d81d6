//! The canonical form of a situation.
ghost use Rattle.apex_laws.specs.Laws.{OfEachTable};
ghost use Rattle.apex_alike.specs.Forms.{FormsDecide};
ghost use Rattle.apex_alike.specs.Laws.{AlikeRostersHaveOneForm, CanonicalFormsAreAlike, CanonicalRostersCanBeServed};

/// The canonical form of a situation is alike to it, and not later.
pub fn canonical_forms_are_alike()
    ensures { CanonicalFormsAreAlike }
{}

/// Rosters that are alike have one canonical form.
pub fn alike_rosters_have_one_form()
    ensures { AlikeRostersHaveOneForm }
{}

/// A canonical roster has time and stamps left for an event, if each period is one of a table.
pub fn canonical_rosters_can_be_served()
    ensures { CanonicalRostersCanBeServed }
{}

/// Two runs that have come to one canonical form do the same at every event: the same caller, call
/// and notices, and the same reply but for the value that GET_TIME answers; and they come to one
/// canonical form again.
pub fn canonical_forms_decide()
    ensures { OfEachTable FormsDecide }
{}
