ghost use Rattle.hall_floor.specs.Laws.{LegsJoinNeighbours, LengthsArePitches};

/// A leg leads from a cell to another exactly where both are open and share a side.
#[tactic(auto, using(crate::proofs::Joined::legs_join))]
pub fn legs_join_neighbours()
    ensures { LegsJoinNeighbours }
{}

/// A leg is as long as the pitch across within a row, and the pitch down within a column.
#[tactic(auto, using(crate::proofs::Joined::lengths_fit))]
pub fn lengths_are_pitches()
    ensures { LengthsArePitches }
{}
