//! Worked plans.

ghost use Rattle.laws.specs.Examples.{WorkedPlans};

/// What the definitions give for the worked plans.
pub fn worked_plans()
    ensures { WorkedPlans }
{}
