ghost use Rattle.std.specs.Prelude.{◌≡◌};
ghost use Rattle.hall_floor.specs.Halls.{bytes_for, spare_free};
ghost use Rattle.hall_floor.specs.Held.{MakesHall};

use crate::hall::HallFloor;
use floors::faults::FloorFault;

/// How many bytes have a bit for each of so many cells.
pub fn bytes_for(cells: usize) -> usize
    ensures { result ≡ bytes_for cells }
{
    cells.div_ceil(8)
}

/// Whether the bits of the last byte that are no cell's are 0. A byte that is not there counts as 0.
pub fn spare_free(cells: usize, bytes: &[u8]) -> bool
    ensures { result ≡ spare_free cells bytes.now }
{
    let last = bytes
        .get(bytes_for(cells).saturating_sub(1))
        .copied()
        .unwrap_or(0);
    u16::from(last) < 1u16 << (cells.saturating_sub(1) % 8 + 1)
}

impl HallFloor {
    /// The floor of a hall of `width` columns and `height` rows, with the pitches `across` and `down` in decimetres.
    /// `blocked` has one bit a cell, 1 for blocked: cell c is bit c mod 8, bit 0 the lowest, of byte c div 8.
    pub fn new(
        width: u16,
        height: u16,
        across: u16,
        down: u16,
        blocked: Vec<u8>,
    ) -> Result<HallFloor, FloorFault>
        ensures { MakesHall (record { width = width; height = height; across = across; down = down; blocked = blocked.items }) result }
    {
        let cells = usize::from(width) * usize::from(height);
        if (1..=1024).contains(&width)
            && (1..=1024).contains(&height)
            && cells <= 1024
            && 1 <= across
            && 1 <= down
            && blocked.len() == bytes_for(cells)
            && spare_free(cells, blocked.as_slice())
        {
            return Ok(HallFloor {
                width,
                height,
                across,
                down,
                blocked,
            });
        }
        Err(FloorFault::Unfit)
    }
}
