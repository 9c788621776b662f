//! A whole file, as a floor and carriers.

ghost use Rattle.std.specs.Prelude.{◌≡◌, IfOk};
ghost use Rattle.store_floor.specs.Held.{layout_of};
ghost use Rattle.files.specs.Parse.{floor_at, record_size, parse};
ghost use Rattle.files.specs.Reading.{Agrees, draft_of};

use crate::carriers::read_carriers;
use crate::cursor::Cursor;
use crate::draft::Draft;
use crate::faults::{FileFault, ReadFault};
use crate::hall::read_hall;
use crate::marks::Mark;
use crate::rail::read_rail;
use floors::floor::Floor;
use std::alloc::Global;
use store_floor::store::StoreFloor;

/// The floor that begins the file, and where the carriers begin.
#[tactic(auto, unfolding(crate::specs::Parse::floor_at, crate::specs::Marks::mark_at))]
fn read_floor(heap: Global, bytes: &[u8]) -> Result<(StoreFloor, Cursor<'_>), ReadFault>
    ensures value { Agrees (λ r. layout_of r.0) result (floor_at bytes.now) }
    ensures moves { IfOk result (λ r. (r.1.bytes ≡ bytes.now) × (r.1.at ≡ record_size (layout_of r.0))) }
{
    let mut cursor = Cursor::new(bytes);
    let floor = match cursor.mark()? {
        Mark::Rail => StoreFloor::Rail(read_rail(heap, &mut cursor)?),
        Mark::Hall => StoreFloor::Hall(read_hall(heap, &mut cursor)?),
        Mark::Carrier | Mark::End => {
            return Err(FileFault::WrongMark {
                at: cursor.record_at(),
            }
            .into());
        }
    };
    Ok((floor, cursor))
}

/// The floor and the carriers of a file.
#[tactic(auto, unfolding(crate::specs::Parse::parse))]
pub(crate) fn decode(heap: Global, bytes: &[u8]) -> Result<Draft, ReadFault>
    ensures { Agrees draft_of result (parse bytes.now) }
{
    let (floor, mut cursor) = read_floor(heap, bytes)?;
    let carriers = read_carriers(heap, &mut cursor, floor.place_count())?;
    Ok(Draft { floor, carriers })
}
