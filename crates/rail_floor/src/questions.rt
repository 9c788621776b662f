//! What a rail floor tells of itself.

ghost use Rattle.std.specs.Prelude.{◌≡◌, ◌+◌, ◌-◌, ◌≤◌, None, length, take, drop};
ghost use Rattle.rail_floor.specs.Rails.{below, legs_at, exits_of, length_of};
ghost use Rattle.rail_floor.specs.Held.{places_of, legs_of};
ghost use Rattle.rail_floor.specs.Ordered.{rail_fit, exits_sorted, exits_inside, exits_away, exits_beyond, length-led, length_long, length_short};

use crate::legs::Leg;
use crate::rail::RailFloor;
use floors::floor::{Floor, Measured};
use std::ops::Range;

impl RailFloor {
    /// Where the legs from a place begin; at the number of places, where the last end.
    fn first_of(&self, place: u16) -> usize
        requires { place ≤ places_of self.now }
        ensures { result ≡ below (legs_of self.now) place }
    {
        usize::from(self.first[usize::from(place)])
    }

    /// Where the legs from a place stand in the list; nowhere beyond the floor.
    #[tactic(auto, using(crate::proofs::Indexed::below_next, crate::proofs::Indexed::below_le))]
    fn part_of(&self, place: u16) -> Range<usize>
        ensures rises { result.start ≤ result.end }
        ensures inside { result.end ≤ length (legs_of self.now) }
        ensures legs { take (result.end - result.start) (drop result.start (legs_of self.now)) ≡ legs_at (legs_of self.now) place }
        ensures count { result.start + length (legs_at (legs_of self.now) place) ≡ result.end }
    {
        if place >= self.places {
            return 0..0;
        }
        self.first_of(place)..self.first_of(place + 1)
    }

    /// The legs that begin at a place; none beyond the floor.
    fn legs_from(&self, place: u16) -> &[Leg]
        ensures { result.now ≡ legs_at (legs_of self.now) place }
    {
        &self.legs[self.part_of(place)]
    }
}

impl Floor for RailFloor {
    ghost size = { places_of };

    ghost exits = { λ f. exits_of (legs_of f) };

    ghost some = { λ f. (rail_fit _ _ f.fit).some };

    ghost most = { λ f. (rail_fit _ _ f.fit).most };

    ghost rising = { λ f p. (exits_sorted f.places None (legs_of f) p (rail_fit _ _ f.fit).order).rises };

    ghost inside = { λ f p q. exits_inside f.places None (legs_of f) p q (rail_fit _ _ f.fit).order };

    ghost away = { λ f p. exits_away f.places None (legs_of f) p (rail_fit _ _ f.fit).order };

    ghost beyond = { λ f p. exits_beyond f.places None (legs_of f) p (rail_fit _ _ f.fit).order };

    fn place_count(&self) -> u16 {
        self.places
    }

    fn exit_count(&self, place: u16) -> u16 {
        let Range { start, end } = self.part_of(place);
        (end - start) as u16
    }

    fn exit(&self, place: u16, i: u16) -> Option<u16> {
        let legs = self.legs_from(place);
        legs.get(usize::from(i)).map(|leg| leg.to)
    }
}

impl Measured for RailFloor {
    ghost span = { λ f. length_of (legs_of f) };

    ghost led = { λ f. length-led (legs_of f) };

    ghost long = { λ f p q d. length_long f.places None (legs_of f) p q d (rail_fit _ _ f.fit).order };

    ghost short = { λ f p q d. length_short f.places None (legs_of f) p q d (rail_fit _ _ f.fit).order };

    /// The length of the leg between two places: found by halving, since the legs from a place rise by where they lead.
    fn length(&self, from: u16, to: u16) -> Option<u16> {
        let legs = self.legs_from(from);
        legs.binary_search_by_key(&to, |leg| leg.to)
            .ok()
            .map(|at| legs[at].length)
    }
}
