ghost use Rattle.plans.specs.Held.{plan_of};
ghost use Rattle.pruning.specs.Back.{Bound, scope};

use crate::dropped::Dropped;
use plans::plans::ReadPlan;

/// Where a search for a circular wait is to come back to: the place where its first leg begins, by legs of carriers above the
/// first leg's, without the dropped ones.
#[derive(Clone, Copy)]
pub struct Aim<'p, 'd> {
    /// The plan whose legs are gone through.
    pub plan: &'p ReadPlan,
    /// Which of them are left out.
    pub dropped: &'d Dropped,
    /// For each carrier, a lower one that is interchangeable with it, if one was found.
    pub like: &'d [Option<u8>],
    /// The place to come back to.
    pub home: u16,
    /// The carrier of the first leg.
    pub low: u8,
    /// For each place, how many legs lead back from it at least.
    pub(crate) back: [u8; 1024],
    ghost bound: { Bound (plan_of plan.now) (scope low dropped.now) home back },
}
