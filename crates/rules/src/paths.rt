//! A carrier's start, goal and path, read entry by entry: what is beyond a path, or of an unknown carrier, reads as 0.

ghost use Rattle.std.specs.Prelude.{◌≡◌, ◌+◌, ◌<◌, ◌≤◌, pred, length, slice_index};
ghost use Rattle.store_floor.specs.Held.{layout_of};
ghost use Rattle.plans.specs.Plan.{carrier};
ghost use Rattle.plans.specs.Held.{plan_of};
ghost use Rattle.laws.specs.Paths.{start as start_of, goal as goal_of, entry as entry_of, last as last_of};

use floors::floor::Measured;
use plans::plans::ReadPlan;
use store_floor::store::StoreFloor;

/// Where a carrier starts.
pub fn start(plan: &ReadPlan, carrier: u8) -> u16
    ensures { result ≡ start_of (plan_of plan.now) carrier }
{
    plan.start(carrier).unwrap_or(0)
}

/// Where a carrier is to go.
pub fn goal(plan: &ReadPlan, carrier: u8) -> u16
    ensures { result ≡ goal_of (plan_of plan.now) carrier }
{
    plan.goal(carrier).unwrap_or(0)
}

/// Entry `t` of a carrier's path.
pub fn entry(plan: &ReadPlan, carrier: u8, t: u16) -> u16
    ensures { result ≡ entry_of (plan_of plan.now) carrier t }
{
    plan.entry(carrier, t).unwrap_or(0)
}

/// The number of the last entry of a path.
fn last_number(path: &[u16]) -> u16
    requires { length path.now ≤ 2048 }
    ensures value { result ≡ pred (length path.now) }
    ensures few { result < 2048 }
{
    (path.len() as u16).saturating_sub(1)
}

/// The number of a carrier's last entry, which is the number of its legs.
pub fn last(plan: &ReadPlan, carrier: u8) -> u16
    ensures value { result ≡ last_of (plan_of plan.now) carrier }
    ensures few { result < 2048 }
{
    last_number(plan.path(carrier))
}

/// A carrier's number, where it starts, where it is to go, and its path. An unknown carrier has 0, 0 and no path.
// Kept: 0 stands for what is not there, as in the definitions of the rules, which say something of every number.
#[derive(Clone, Copy)]
pub struct Route<'p> {
    pub carrier: u8,
    pub start: u16,
    pub goal: u16,
    pub path: &'p [u16],
    ghost short: { length path.now ≤ 2048 },
}

impl<'p> Route<'p> {
    ghost use Rattle.rules.specs.Routes.{route_of, last_of as last_of_route, wrong_end_of, lacks_leg, legless_of, is_foreign};

    /// The route of a carrier.
    pub fn of(plan: &'p ReadPlan, number: u8) -> Route<'p>
        ensures whose { result.carrier ≡ number }
        ensures route { route_of result ≡ carrier (plan_of plan.now) number }
    {
        Route {
            carrier: number,
            start: start(plan, number),
            goal: goal(plan, number),
            path: plan.path(number),
        }
    }

    /// What stands at a place of the path.
    fn at(&self, i: usize) -> u16
        ensures { result ≡ slice_index self.now.path.now i }
    {
        self.path.get(i).copied().unwrap_or(0)
    }

    /// Entry `t` of the path.
    pub fn entry(&self, t: u16) -> u16
        ensures { result ≡ slice_index self.now.path.now t }
    {
        self.at(usize::from(t))
    }

    /// The number of the last entry, which is the number of legs.
    pub fn last(&self) -> u16
        ensures value { result ≡ last_of_route (route_of self.now) }
        ensures few { result < 2048 }
    {
        last_number(self.path)
    }

    /// Where leg `t` ends, which is the entry after entry `t`.
    pub fn end(&self, t: u16) -> u16
        ensures { result ≡ slice_index self.now.path.now (t + 1) }
    {
        self.at(usize::from(t) + 1)
    }

    /// The first of the two ends of the path that is not where the route is to begin or to end.
    #[tactic(auto, unfolding(crate::specs::Routes::wrong_end_of))]
    pub(crate) fn wrong_end(&self) -> Option<(u8, u16)>
        ensures { result ≡ wrong_end_of self.now.carrier (route_of self.now) }
    {
        let last = self.last();
        if self.entry(0) != self.start {
            Some((self.carrier, 0))
        } else if self.entry(last) != self.goal {
            Some((self.carrier, last))
        } else {
            None
        }
    }

    /// Whether no leg of the floor leads from entry `t` to the next.
    fn lacks_leg(&self, floor: &StoreFloor, t: u16) -> bool
        ensures { result ≡ lacks_leg (layout_of floor.now) (route_of self.now) t }
    {
        floor.length(self.entry(t), self.end(t)).is_none()
    }

    /// The first entry to which no leg of the floor leads from the one before.
    pub(crate) fn legless_entry(&self, floor: &StoreFloor) -> Option<(u8, u16)>
        ensures { result ≡ legless_of (layout_of floor.now) self.now.carrier (route_of self.now) }
    {
        let carrier = self.carrier;
        (0..self.last())
            .find(|&t| self.lacks_leg(floor, t))
            .map(|t| (carrier, t + 1))
    }

    /// Whether the entry after entry `t` is the goal, if there is one, of this other carrier.
    pub(crate) fn is_foreign(&self, t: u16, owner: u8, goal: Option<u16>) -> bool
        ensures { result ≡ is_foreign self.now.carrier (route_of self.now) t owner goal }
    {
        self.carrier != owner && Some(self.end(t)) == goal
    }
}
