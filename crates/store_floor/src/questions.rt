//! What a store's floor tells of itself: what the floor of its kind tells.

ghost use Rattle.store_floor.specs.Layout.{places, exits_from, leg_length};
ghost use Rattle.store_floor.specs.Held.{layout_of};
ghost use Rattle.store_floor.specs.Either.{layout_fits, places_some, places_most, exits_rise, exits_inside, exits_away, exits_beyond, lengths_led, lengths_some, lengths_most};

use crate::store::StoreFloor;
use floors::floor::{Floor, Measured};

// Kept: a `match` names both kinds; no `dyn` can stand for either, since `Floor` asks for `Sized`, and a method that takes a closure for each kind is no shorter.
impl Floor for StoreFloor {
    ghost size = { λ f. places (layout_of f) };

    ghost exits = { λ f. exits_from (layout_of f) };

    ghost some = { λ f. places_some (layout_of f) (layout_fits f) };

    ghost most = { λ f. places_most (layout_of f) (layout_fits f) };

    ghost rising = { λ f. exits_rise (layout_of f) (layout_fits f) };

    ghost inside = { λ f. exits_inside (layout_of f) (layout_fits f) };

    ghost away = { λ f. exits_away (layout_of f) (layout_fits f) };

    ghost beyond = { λ f. exits_beyond (layout_of f) (layout_fits f) };

    fn place_count(&self) -> u16 {
        match self {
            StoreFloor::Rail(rail) => rail.place_count(),
            StoreFloor::Hall(hall) => hall.place_count(),
        }
    }

    fn exit_count(&self, place: u16) -> u16 {
        match self {
            StoreFloor::Rail(rail) => rail.exit_count(place),
            StoreFloor::Hall(hall) => hall.exit_count(place),
        }
    }

    fn exit(&self, place: u16, i: u16) -> Option<u16> {
        match self {
            StoreFloor::Rail(rail) => rail.exit(place, i),
            StoreFloor::Hall(hall) => hall.exit(place, i),
        }
    }
}

impl Measured for StoreFloor {
    ghost span = { λ f. leg_length (layout_of f) };

    ghost led = { λ f. lengths_led (layout_of f) };

    ghost long = { λ f. lengths_some (layout_of f) (layout_fits f) };

    ghost short = { λ f. lengths_most (layout_of f) (layout_fits f) };

    fn length(&self, from: u16, to: u16) -> Option<u16> {
        match self {
            StoreFloor::Rail(rail) => rail.length(from, to),
            StoreFloor::Hall(hall) => hall.length(from, to),
        }
    }
}
