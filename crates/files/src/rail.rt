//! The record of a rail floor.

ghost use Rattle.std.specs.Prelude.{◌≡◌, ◌+◌, ◌*◌, length, IfOk, None, vec_items, vec_len, OnOk};
ghost use Rattle.store_floor.specs.Layout.{rails};
ghost use Rattle.rail_floor.specs.Held.{places_of, legs_of};
ghost use Rattle.files.specs.Parse.{leg_at, legs_at, rail_at};
ghost use Rattle.files.specs.Position.{further, first_record};
ghost use Rattle.files.specs.Reading.{Agrees};

use crate::cursor::Cursor;
use crate::faults::{FileFault, ReadFault};
use floors::faults::FloorFault;
use rail_floor::build::in_order;
use rail_floor::legs::Leg;
use rail_floor::rail::RailFloor;
use std::alloc::Global;

/// The next leg, on a floor of `size` places and behind the leg `before`.
#[tactic(auto, unfolding(crate::specs::Parse::leg_at))]
fn read_leg(cursor: &mut Cursor<'_>, size: u16, before: Option<Leg>) -> Result<Leg, FileFault>
    ensures value { result ≡ leg_at cursor.old.bytes cursor.old.record_at cursor.old.at size before }
    ensures moves { OnOk result (cursor.new ≡ further cursor.old 6) }
{
    let at = cursor.at();
    let last = size.saturating_sub(1);
    let from = cursor.ranged(0, last)?;
    let to = cursor.ranged(0, last)?;
    if !in_order(before, from, to) {
        return Err(FileFault::OutOfOrder { at });
    }
    let length = cursor.ranged(1, u16::MAX)?;
    Ok(Leg { from, to, length })
}

/// So many legs.
fn read_legs(
    heap: Global,
    cursor: &mut Cursor<'_>,
    size: u16,
    count: u16,
) -> Result<Vec<Leg>, ReadFault>
    ensures value { Agrees vec_items result (legs_at cursor.old.bytes cursor.old.record_at cursor.old.at size None count) }
    ensures moves { IfOk result (λ v. cursor.new ≡ further cursor.old (6 * vec_len v)) }
{
    let mut legs = Vec::new(heap);
    let mut before = None;
    // Kept: a twin of the loop in `read_entries`, where a chain into `try_collect` did not prove; one function for both would hand each item the one before, which only legs need.
    for _ in 0..count {
        let leg = read_leg(cursor, size, before)?;
        legs.push(leg)?;
        before = Some(leg);
    }
    Ok(legs)
}

/// The rail floor with whose mark the file begins.
// Kept: `read_hall`, `read_cells` and, behind its own mark, `read_carrier` ask where the cursor stands too; a type for one that stands there is no plainer, since records are defined by offsets from their marks.
#[tactic(auto, unfolding(crate::specs::Parse::rail_at))]
pub(crate) fn read_rail(heap: Global, cursor: &mut Cursor<'_>) -> Result<RailFloor, ReadFault>
    requires { cursor.old ≡ first_record cursor.old.bytes }
    ensures value { Agrees (λ f. rails (places_of f) (legs_of f)) result (rail_at cursor.old.bytes) }
    ensures moves { IfOk result (λ f. cursor.new ≡ further cursor.old (4 + 6 * length (legs_of f))) }
{
    let size = cursor.ranged(1, 1024)?;
    let count = cursor.ranged(0, 4096)?;
    let legs = read_legs(heap, cursor, size, count)?;
    RailFloor::new(heap, size, legs).map_err(|fault| match fault {
        FloorFault::Memory => ReadFault::Memory,
        FloorFault::Unfit => unreachable(),
    })
}
