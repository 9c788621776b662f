//! What holds of pictures, of their numbers, and of what is computed of them.

ghost use Rattle.laws.specs.Judging.{NumbersArePictures, ReachableIsComputed, LowestStandstillIsFound, WaysLead, LowestGoesBack};
ghost use Rattle.plans.specs.Plan.{Plan};

/// Numbers and pictures undo one another.
#[tactic(auto, using(crate::proofs::Digits::numbers_are_pictures))]
pub fn numbers_are_pictures()
    ensures { (p : Plan) → NumbersArePictures p }
{}

/// The pictures that are computed to be reachable are those that moves lead to.
#[tactic(auto, using(crate::proofs::Marked::reachable_is_computed))]
pub fn reachable_is_computed()
    ensures { ReachableIsComputed }
{}

/// The lowest-numbered standstill is found, or there is none at all.
#[tactic(auto, using(crate::proofs::Stills::lowest_standstill_is_found))]
pub fn lowest_standstill_is_found()
    ensures { LowestStandstillIsFound }
{}

/// The way to a reachable picture leads to it.
#[tactic(auto, using(crate::proofs::WaysBack::ways_lead))]
pub fn ways_lead()
    ensures { WaysLead }
{}

/// On the way back each time the lowest carrier is taken whose last move came from a reachable picture.
pub fn lowest_goes_back()
    ensures { LowestGoesBack }
{}
