//! Lists of situations that are closed under events, as a search of every order leaves them.
ghost use Rattle.apex_laws.specs.Laws.{OfEachTable};
ghost use Rattle.apex_alike.specs.Claims.{NoRunMisses, NoRunIsAtStandstill};
ghost use Rattle.apex_alike.specs.Closed.{ClosedSearchSeesAll, ClosedSeesAll, SingleTicksSeeAll};
ghost use Rattle.apex_alike.specs.Forms.{RunsComeToAll};

/// A list of situations that is closed under some events has a situation that represents the
/// machine after every run of such events.
pub fn closed_situations_see_all()
    ensures { OfEachTable ClosedSeesAll }
{}

/// So has a search that keeps canonical forms and has found no new one.
pub fn closed_search_sees_all()
    ensures { OfEachTable ClosedSearchSeesAll }
{}

/// A search that has closed over turns and ticks of 1 has also seen the machine after every run with
/// ticks of any length.
pub fn single_ticks_see_all()
    ensures { OfEachTable SingleTicksSeeAll }
{}

/// If some runs have come to every canonical form that is one event beyond one of theirs, every run
/// of such events comes to one of their forms.
pub fn closed_runs_come_to_all()
    ensures { OfEachTable RunsComeToAll }
{}

/// If a search has closed, and no step that it saw reports a missed deadline, no entry of a run of
/// its events does.
pub fn closed_search_finds_misses()
    ensures { OfEachTable NoRunMisses }
{}

/// If a search has closed, and none of its situations is at a standstill, no run of its events ends
/// in one: in NORMAL with a started process, but no process to run and no instant to wait for.
pub fn closed_search_finds_standstills()
    ensures { OfEachTable NoRunIsAtStandstill }
{}
