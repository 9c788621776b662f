//! The legs of a plan, and what was found out about them.

ghost use Rattle.std.specs.Prelude.{◌≡◌};
ghost use Rattle.plans.specs.Held.{plan_of};
ghost use Rattle.laws.specs.Chains.{end};

use laws::pairs::Pair;
use plans::plans::ReadPlan;
use rules::paths::entry;

/// Where a leg ends.
pub fn end_of(plan: &ReadPlan, leg: Pair) -> u16
    ensures { result ≡ end (plan_of plan.now) leg }
{
    entry(plan, leg.carrier, leg.leg.saturating_add(1))
}
