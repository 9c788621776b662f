ghost use Rattle.std.specs.Prelude.{◌≡◌, ℕ, ◌+◌, ◌≤◌, true, vec_len, slice_index};
ghost use Rattle.rail_floor.specs.Rails.{fits_rail, below};

use crate::legs::Leg;

/// A rail floor. `first[p]` says where the legs from place p begin in `legs`, and one entry more says where the last end.
// Kept: one list and where each place's part begins, since `legs` lends all of them, and no exit is looked for among all.
#[derive(Drop)]
pub struct RailFloor {
    pub(crate) places: u16,
    pub(crate) legs: Vec<Leg>,
    pub(crate) first: Vec<u16>,
    ghost fit: { fits_rail places legs.items ≡ true },
    ghost entries: { vec_len first ≡ places + 1 },
    ghost indexed: { (p : ℕ) → p ≤ places → slice_index first.items p ≡ below legs.items p },
}
