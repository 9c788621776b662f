ghost use Rattle.std.specs.Prelude.{◌≡◌};
ghost use Rattle.floors.specs.Exits.{legs_below};

use crate::floor::Floor;

/// How many legs a floor has.
pub fn leg_count<F: Floor>(floor: &F) -> usize
    ensures { result ≡ legs_below (F.exits floor.now) (F.size floor.now) }
{
    (0..floor.place_count())
        .map(|place| usize::from(floor.exit_count(place)))
        .sum()
}
