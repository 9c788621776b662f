//! What the rules and the search for standstills are worth to a run.

ghost use Rattle.laws.specs.Laws.{CheckSuffices, JudgeAgreesWithCheck, NoStandstillNoEndOfProgress, ReleasedPlansComeHome, StandstillsAreStuckStrings};

/// Without foreign goals and circular waits no standstill is reachable.
pub fn check_suffices()
    ensures { CheckSuffices }
{}

/// Where no standstill is reachable, every order of turns brings everybody home.
pub fn progress_does_not_end()
    ensures { NoStandstillNoEndOfProgress }
{}

/// A standstill is reachable exactly when some string of calls sticks, and the turns of the way to the lowest one are such a string.
pub fn standstills_are_stuck_strings()
    ensures { StandstillsAreStuckStrings }
{}

/// In a plan in which the check finds nothing, the judge finds no standstill.
#[tactic(auto, using(crate::proofs::Agreed::judge_agrees_with_check))]
pub fn judge_agrees_with_check()
    ensures { JudgeAgreesWithCheck }
{}

/// Every order of turns brings everybody home to its goal, where nothing breaks the rules 11 to 14 and no standstill is found.
pub fn released_plans_come_home()
    ensures { ReleasedPlansComeHome }
{}
