//! The laws of boards. Each function here does nothing but name a law, which is thereby proved of what the calls of every
//! kind of board answer and change.

ghost use Rattle.boards.specs.Laws.{FreePlacesAreGranted, OwnPlacesAreLeft, EnteredIsHeld, LeftIsFree, RefusalsChangeNothing, OtherPlacesStay, OtherCarriersStay, LeavingUndoesEntering, NeverMoreThanTwo, EmptyIsAllFree};

/// A carrier may enter exactly the free places of the board, while it holds fewer than two.
#[tactic(auto, unfolding(crate::specs::Calls::enter_answer))]
pub fn free_places_are_granted()
    ensures { FreePlacesAreGranted }
{}

/// A carrier may leave exactly the places that it holds.
#[tactic(auto, unfolding(crate::specs::Calls::leave_answer))]
pub fn own_places_are_left()
    ensures { OwnPlacesAreLeft }
{}

/// A place that was entered is then held by the carrier that entered it.
#[tactic(auto, unfolding(crate::specs::Calls::enter_answer))]
pub fn entered_is_held()
    ensures { EnteredIsHeld }
{}

/// A place that was left is then free.
pub fn left_is_free()
    ensures { LeftIsFree }
{}

/// A refused call changes no holder.
pub fn refusals_change_nothing()
    ensures { RefusalsChangeNothing }
{}

/// A call at one place changes the holder of no other place.
pub fn other_places_stay()
    ensures { OtherPlacesStay }
{}

/// What one carrier does changes no place of another.
#[tactic(auto, unfolding(crate::specs::Calls::enter_answer, crate::specs::Calls::leave_answer))]
pub fn other_carriers_stay()
    ensures { OtherCarriersStay }
{}

/// After a granted enter the same leave is granted, and restores the board.
pub fn leaving_undoes_entering()
    ensures { LeavingUndoesEntering }
{}

/// Whatever is called on a new board, no carrier ever holds more than two places.
#[tactic(auto, using(crate::proofs::Calling::never_more))]
pub fn never_more_than_two()
    ensures { NeverMoreThanTwo }
{}

/// A board is empty exactly where each place is free.
#[tactic(auto, using(crate::proofs::Emptiness::empty_free, crate::proofs::Emptiness::free_empty))]
pub fn empty_is_all_free()
    ensures { EmptyIsAllFree }
{}
