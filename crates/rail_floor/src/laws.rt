ghost use Rattle.rail_floor.specs.Laws.{LegsAreListed};

/// The exits of a place, and the lengths of its legs, are those of the legs that the floor lists.
pub fn legs_are_listed()
    ensures { LegsAreListed }
{}
