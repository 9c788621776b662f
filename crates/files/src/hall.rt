//! The record of a hall floor.

ghost use Rattle.std.specs.Prelude.{◌≡◌, ◌+◌, ◌≤◌, IfOk, vec_items, vec_len};
ghost use Rattle.store_floor.specs.Layout.{cellular};
ghost use Rattle.hall_floor.specs.Held.{hall_of};
ghost use Rattle.files.specs.Parse.{cells_at, hall_at};
ghost use Rattle.files.specs.Position.{further, first_record};
ghost use Rattle.files.specs.Reading.{Agrees};

use crate::cursor::Cursor;
use crate::faults::{FileFault, ReadFault};
use hall_floor::build::{bytes_for, spare_free};
use hall_floor::hall::HallFloor;
use std::alloc::Global;

/// The bits of so many cells.
#[tactic(auto, unfolding(crate::specs::Parse::cells_at))]
fn read_cells(heap: Global, cursor: &mut Cursor<'_>, cells: usize) -> Result<Vec<u8>, ReadFault>
    requires stands { cursor.old ≡ further (first_record cursor.old.bytes) 8 }
    requires some { 1 ≤ cells }
    ensures value { Agrees vec_items result (cells_at cursor.old.bytes 10 cells) }
    ensures moves { IfOk result (λ v. cursor.new ≡ further cursor.old (vec_len v)) }
{
    let bits = cursor.take(bytes_for(cells))?;
    if !spare_free(cells, bits) {
        let last = cursor.at() - 1;
        return Err(FileFault::OutOfRange { at: last }.into());
    }
    Ok(Vec::from_slice(heap, bits)?)
}

/// The hall floor with whose mark the file begins.
#[tactic(auto, unfolding(crate::specs::Parse::hall_at))]
pub(crate) fn read_hall(heap: Global, cursor: &mut Cursor<'_>) -> Result<HallFloor, ReadFault>
    requires { cursor.old ≡ first_record cursor.old.bytes }
    ensures value { Agrees (λ f. cellular (hall_of f)) result (hall_at cursor.old.bytes) }
    ensures moves { IfOk result (λ f. cursor.new ≡ further cursor.old (8 + vec_len f.blocked)) }
{
    let width = cursor.ranged(1, 1024)?;
    let at = cursor.at();
    let height = cursor.ranged(1, 1024)?;
    let cells = usize::from(width) * usize::from(height);
    if cells > 1024 {
        return Err(FileFault::OutOfRange { at }.into());
    }
    let across = cursor.ranged(1, u16::MAX)?;
    let down = cursor.ranged(1, u16::MAX)?;
    let blocked = read_cells(heap, cursor, cells)?;
    Ok(HallFloor::new(width, height, across, down, blocked).unwrap())
}
