use hall_floor::hall::HallFloor;
use rail_floor::rail::RailFloor;

/// A floor of either kind.
#[derive(Drop)]
pub enum StoreFloor {
    Rail(RailFloor),
    Hall(HallFloor),
}
