//! What is proved of circular waits and of the one that is named.

ghost use Rattle.laws.specs.Naming.{EachCanBeWritten, OneIsNamed, WaitsAreNamed};

/// The circular wait that is named is computed; where none is computed, the paths contain none.
#[tactic(auto, using(crate::proofs::Found::waits_are_named))]
pub fn waits_are_named()
    ensures { WaitsAreNamed }
{}

/// No two circular waits are named.
#[tactic(auto, using(crate::proofs::Rounds::one_is_named))]
pub fn one_is_named()
    ensures { OneIsNamed }
{}

/// Each circular wait can be written from its lowest carrier on.
#[tactic(auto, using(crate::proofs::Rounds::each_can_be_written))]
pub fn each_can_be_written()
    ensures { EachCanBeWritten }
{}
