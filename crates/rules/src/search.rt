ghost use Rattle.std.specs.Prelude.{◌≡◌};
ghost use Rattle.plans.specs.Held.{plan_of};
ghost use Rattle.laws.specs.Paths.{carriers};
ghost use Rattle.laws.specs.Rules.{no_path, wrong_end, no_leg, equal_starts, equal_goals, foreign_goal};
ghost use Rattle.rules.specs.Searches.{FindsEqualAbove, FindsEqual};

use crate::paths::{Route, goal, start};
use plans::plans::ReadPlan;

/// The lowest carrier without a path.
pub fn no_path(plan: &ReadPlan) -> Option<u8>
    ensures { result ≡ no_path (plan_of plan.now) }
{
    (0..plan.carrier_count()).find(|&carrier| plan.path(carrier).is_empty())
}

/// The lowest carrier whose path does not begin at its start or end at its goal, with that entry.
pub fn wrong_end(plan: &ReadPlan) -> Option<(u8, u16)>
    ensures { result ≡ wrong_end (plan_of plan.now) }
{
    (0..plan.carrier_count()).find_map(|carrier| Route::of(plan, carrier).wrong_end())
}

/// The lowest carrier with an entry into which no leg leads from the one before, with the lowest such entry.
pub fn no_leg(plan: &ReadPlan) -> Option<(u8, u16)>
    ensures { result ≡ no_leg (plan_of plan.now) }
{
    let floor = plan.floor();
    (0..plan.carrier_count()).find_map(|carrier| Route::of(plan, carrier).legless_entry(floor))
}

/// This carrier, and the lowest one above it of which `end` gives the same.
fn equal_above<F: Fn(u8) -> u16>(plan: &ReadPlan, end: &F, carrier: u8) -> Option<(u8, u8)>
    requires { F.IsAlwaysCallable end.now }
    ensures { FindsEqualAbove (F.post end.now) (carriers (plan_of plan.now)) carrier result }
{
    (0..plan.carrier_count())
        .find(|&other| carrier < other && end(carrier) == end(other))
        .map(|other| (carrier, other))
}

/// The lowest carrier of which `end` gives what it gives of a higher one, with the lowest such.
fn equal_ends<F: Fn(u8) -> u16>(plan: &ReadPlan, end: F) -> Option<(u8, u8)>
    requires { F.IsAlwaysCallable end }
    ensures { FindsEqual (F.post end) (carriers (plan_of plan.now)) result }
{
    (0..plan.carrier_count()).find_map(|carrier| equal_above(plan, &end, carrier))
}

/// The lowest carrier that starts where a higher one does, with the lowest such.
pub fn equal_starts(plan: &ReadPlan) -> Option<(u8, u8)>
    ensures { result ≡ equal_starts (plan_of plan.now) }
{
    equal_ends(plan, |carrier| start(plan, carrier))
}

/// The lowest carrier that has the goal of a higher one, with the lowest such.
pub fn equal_goals(plan: &ReadPlan) -> Option<(u8, u8)>
    ensures { result ≡ equal_goals (plan_of plan.now) }
{
    equal_ends(plan, |carrier| goal(plan, carrier))
}

/// The first carrier and entry, after entry 0, that is the goal of another carrier, with that carrier.
pub fn foreign_goal(plan: &ReadPlan) -> Option<(u8, u16, u8)>
    ensures { result ≡ foreign_goal (plan_of plan.now) }
{
    // Kept: by a rule of the project this search is labelled nested loops, left from inside with all that was found.
    'search: {
        for carrier in 0..plan.carrier_count() {
            let route = Route::of(plan, carrier);
            for t in 0..route.last() {
                for owner in 0..plan.carrier_count() {
                    if route.is_foreign(t, owner, plan.goal(owner)) {
                        break 'search Some((carrier, t + 1, owner));
                    }
                }
            }
        }
        None
    }
}
