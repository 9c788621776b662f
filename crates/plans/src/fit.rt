//! Whether carriers fit a floor.

ghost use Rattle.std.specs.Prelude.{◌≡◌, length, nat_le};
ghost use Rattle.plans.specs.Plan.{within, on_floor, all_on_floor, entries_of, fits_carriers};
ghost use Rattle.plans.specs.Held.{route_of, routes_of};

use crate::carriers::Carrier;
use crate::tables::Tables;

/// Whether each entry is a place of a floor of so many places.
#[tactic(auto, unfolding(crate::specs::Plan::within))]
fn all_within(places: u16, entries: &[u16]) -> bool
    ensures { result ≡ within places entries.now }
{
    entries.iter().all(|entry| *entry < places)
}

/// Whether start, goal and each entry of a carrier is a place of the floor.
fn is_on_floor(places: u16, carrier: &Carrier) -> bool
    ensures { result ≡ on_floor places (route_of carrier.now) }
{
    carrier.start < places && carrier.goal < places && all_within(places, &carrier.path)
}

/// Whether the paths of all carriers together have at most 2,048 entries.
fn paths_fit(carriers: &[Carrier]) -> bool
    ensures { result ≡ nat_le (length (entries_of (routes_of carriers.now))) 2048 }
{
    carriers
        .iter()
        .try_fold(
            Tables::ENTRIES,
            |room, carrier| room.checked_sub(carrier.path.len()),
        )
        .is_some()
}

/// Whether carriers make a plan on a floor of so many places.
#[tactic(auto, using(crate::proofs::Routes::routes_length, std::proofs::lemmas::Bool::Decides::nat_tests))]
pub fn carriers_fit(places: u16, carriers: &[Carrier]) -> bool
    ensures { result ≡ fits_carriers places (routes_of carriers.now) }
{
    carriers.len() <= Tables::ROWS
        && paths_fit(carriers)
        && carriers.iter().all(|carrier| is_on_floor(places, carrier))
}
