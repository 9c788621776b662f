//! What holds after every string of calls on an opened run and its board.

ghost use Rattle.laws.specs.Laws.{DistancesAddUp, HoldersAreCounted, RunsArePictured, MovesAreTurns};

/// The distance left, the departures and the arrivals make up all legs twice.
#[tactic(auto, using(crate::proofs::Running::distances_add_up))]
pub fn distances_add_up()
    ensures { DistancesAddUp }
{}

/// A carrier holds a place exactly when, by its departures and arrivals, it stands there or travels from it or to it; no two are at
/// one place, and the board refuses nothing in a turn but a held place.
#[tactic(auto, using(crate::proofs::Running::holders_are_counted))]
pub fn holders_are_counted()
    ensures { HoldersAreCounted }
{}

/// Every string's state is a reachable picture.
#[tactic(auto, using(crate::proofs::Running::runs_are_pictured))]
pub fn runs_are_pictured()
    ensures { RunsArePictured }
{}

/// Moves that lead to a picture, each as two turns, bring it about.
#[tactic(auto, using(crate::proofs::Running::moves_are_turns))]
pub fn moves_are_turns()
    ensures { MovesAreTurns }
{}
