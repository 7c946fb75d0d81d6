//! The laws of a search's states. Each is the contract of a function that changes nothing.
ghost use Rattle.apex_laws.specs.Laws.{OfEachTable};
ghost use Rattle.apex_search.specs.Laws.{AnswersSay, FormsStandFor, LongResponsesAreAlike};

/// A canonical form represents every situation that is alike to it: it allows the same events, they
/// have the same facts, and what comes of them represents what comes of them there.
pub fn forms_stand_for_situations()
    ensures { OfEachTable FormsStandFor }
{}

/// What an answer says of the words of a search it says of the schedules of the pace: a path that
/// is found is a shortest schedule that leads to the fact, and without a path there is no such
/// schedule.
pub fn answers_say_of_schedules()
    ensures { OfEachTable AnswersSay }
{}

/// A response for which a search is asked with more ticks than a period is one of a tick more than the
/// period.
pub fn long_responses_are_alike()
    ensures { LongResponsesAreAlike }
{}
