//! The laws of canonical forms and their words. Each is the contract of a function that changes
//! nothing.
ghost use Rattle.apex_laws.specs.Laws.{OfEachTable};
ghost use Rattle.apex_recall.specs.Laws.{FormsHaveWords, FormsReach, WordsAreExact};

/// The situation before any event fits into its words, and so does what comes of an event that a
/// pace allows in a canonical form.
pub fn forms_stay_in_bounds()
    ensures { OfEachTable FormsReach }
{}

/// The words of a canonical form hold all of it.
pub fn words_are_exact()
    ensures { OfEachTable WordsAreExact }
{}

/// Canonical forms that are the same have the same words.
pub fn same_forms_have_the_same_words()
    ensures { OfEachTable FormsHaveWords }
{}
