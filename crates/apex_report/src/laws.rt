//! The laws that tie the figures, which are read off a history, to the machine that made it. Each
//! law is the contract of a function that changes nothing.
ghost use Rattle.apex_laws.specs.Laws.{OfEachTable};
ghost use Rattle.apex_report.specs.Laws.{OwnersAreTheRosters, WorkingIsOpenWork};

/// In every run a core is busy exactly while work is open on it.
pub fn working_is_open_work()
    ensures { OfEachTable WorkingIsOpenWork }
{}

/// In every run the owner of a mutex that is read off the history is the process that owns it, at
/// the same depth, and there is none if no process owns it.
pub fn owners_are_the_rosters()
    ensures { OfEachTable OwnersAreTheRosters }
{}
