//! How a rail floor is made.

ghost use Rattle.std.specs.Prelude.{◌≡◌, ℕ, ◌+◌, ◌≤◌, true, IfOk, None, length, vec_len, slice_index};
ghost use Rattle.floors.specs.Made.{Makes};
ghost use Rattle.rail_floor.specs.Rails.{above, in_order, fits_leg, fits_legs, fits_rail, below};
ghost use Rattle.rail_floor.specs.Held.{legs_of, IsRail};

use crate::legs::Leg;
use crate::rail::RailFloor;
use floors::faults::FloorFault;
use std::alloc::{AllocError, Global};

/// Whether a leg leads to another place, and stands above the one before it: by from, then by to.
pub fn in_order(before: Option<Leg>, from: u16, to: u16) -> bool
    ensures { result ≡ in_order before from to }
{
    from != to && before.is_none_or(|leg| (leg.from, leg.to) < (from, to))
}

/// Whether a leg may stand behind another on a floor of so many places.
fn leg_fits(places: u16, before: Option<Leg>, leg: Leg) -> bool
    ensures { result ≡ fits_leg places before leg }
{
    leg.from < places && leg.to < places && in_order(before, leg.from, leg.to) && 1 <= leg.length
}

/// Whether each leg fits behind the one before it.
#[tactic(auto, unfolding(crate::specs::Rails::fits_legs))]
fn legs_fit(places: u16, legs: &[Leg]) -> bool
    ensures { result ≡ fits_legs places None legs.now }
{
    legs.iter()
        .try_fold(
            None,
            |before, &leg| leg_fits(places, before, leg).then_some(Some(leg)),
        )
        .is_some()
}

/// How many legs begin below a place, where at least `start` are known to.
#[tactic(auto, using(crate::proofs::Indexed::below_le))]
fn legs_below(legs: &[Leg], start: usize, place: u16) -> usize
    requires order { (places : ℕ) × (fits_legs places None legs.now ≡ true) }
    requires start { start ≤ below legs.now place }
    ensures count { result ≡ below legs.now place }
    ensures inside { result ≤ length legs.now }
{
    let mut next = start;
    while next < legs.len() && legs[next].from < place {
        next += 1;
    }
    next
}

/// Where the legs from each place begin, and, one entry more, where the last end.
fn index(heap: Global, places: u16, legs: &[Leg]) -> Result<Vec<u16>, AllocError>
    requires { fits_rail places legs.now ≡ true }
    ensures { IfOk result (λ first. (vec_len first ≡ places + 1) × ((p : ℕ) → p ≤ places → slice_index first.items p ≡ below legs.now p)) }
{
    let mut first = Vec::with_capacity(heap, usize::from(places) + 1)?;
    let mut next = 0;
    // Kept: a loop that carries where it stands, so that each leg is passed once; a chain that halves the list anew for each place took two to three times as long, and `take_while` from where the last place ended up to 1.8 times.
    for place in 0..places + 1 {
        next = legs_below(legs, next, place);
        first.push(next as u16)?;
    }
    Ok(first)
}

impl RailFloor {
    /// A rail floor of so many places and these legs, in order.
    pub fn new(heap: Global, places: u16, legs: Vec<Leg>) -> Result<RailFloor, FloorFault>
        ensures { Makes (fits_rail places legs.items) (IsRail places legs.items) result }
    {
        let fits = (1..=1024).contains(&places)
            && legs.len() <= 4096
            && legs_fit(places, legs.as_slice());
        if !fits {
            return Err(FloorFault::Unfit);
        }
        let first = index(heap, places, legs.as_slice())?;
        Ok(RailFloor {
            places,
            legs,
            first,
        })
    }

    /// The legs of the floor, in order.
    pub fn legs(&self) -> &[Leg]
        ensures { result.now ≡ legs_of self.now }
    {
        self.legs.as_slice()
    }
}
