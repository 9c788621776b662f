ghost use Rattle.std.specs.Prelude.{◌≡◌, true};
ghost use Rattle.hall_floor.specs.Halls.{fits_hall};

/// A hall of `width` columns and `height` rows. `blocked` has one bit a cell, 1 for blocked; `across` and `down` are the
/// pitches in decimetres.
#[derive(Drop)]
pub struct HallFloor {
    pub(crate) width: u16,
    pub(crate) height: u16,
    pub(crate) across: u16,
    pub(crate) down: u16,
    pub(crate) blocked: Vec<u8>,
    ghost fit: { fits_hall (record { width = width; height = height; across = across; down = down; blocked = blocked.items }) ≡ true },
}
