//! Rosters and situations that are alike stay alike.
ghost use Rattle.apex_laws.specs.Laws.{OfEachTable};
ghost use Rattle.apex_alike.specs.AlikeSteps.{AlikeStepsStayAlike};
ghost use Rattle.apex_alike.specs.Laws.{AlikeChooseAlike};
ghost use Rattle.apex_alike.specs.StandIns.{SituationsStepAlike};

/// In rosters that are alike each core chooses the same process, each queue has the same first
/// waiter and as many of them, each mutex has the same owner, and the same process is due first.
pub fn alike_choose_alike()
    ensures { AlikeChooseAlike }
{}

/// Every event, a turn with any call or a tick of any length, keeps situations alike, and has the
/// same caller, call and notices in both; only the value that GET_TIME answers differs, by the shift.
pub fn alike_steps_stay_alike()
    ensures { OfEachTable AlikeStepsStayAlike }
{}

/// In every run a situation that is alike to the machine's steps as the machine does.
pub fn situations_step_alike()
    ensures { OfEachTable SituationsStepAlike }
{}
