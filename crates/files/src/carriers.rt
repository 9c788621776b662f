//! The records of the carriers, and the end.

ghost use Rattle.std.specs.Prelude.{◌≡◌, ◌+◌, ◌*◌, ◌≤◌, IfOk, vec_items, vec_len, OnOk};
ghost use Rattle.plans.specs.Held.{route_of};
ghost use Rattle.files.specs.Parse.{entries_at, carrier_at, follows_at, carriers_at};
ghost use Rattle.files.specs.Position.{further, behind_mark};
ghost use Rattle.files.specs.Reading.{Agrees, carriers_in};

use crate::cursor::Cursor;
use crate::faults::{FileFault, ReadFault};
use crate::marks::Mark;
use plans::carriers::Carrier;
use std::alloc::Global;

/// So many entries, none above `last`.
fn read_entries(
    heap: Global,
    cursor: &mut Cursor<'_>,
    last: u16,
    count: u16,
) -> Result<Vec<u16>, ReadFault>
    ensures value { Agrees vec_items result (entries_at cursor.old.bytes cursor.old.record_at cursor.old.at last count) }
    ensures moves { IfOk result (λ v. cursor.new ≡ further cursor.old (2 * vec_len v)) }
    ensures many { IfOk result (λ v. vec_len v ≡ count) }
{
    let mut entries = Vec::new(heap);
    // Kept: as a chain into `try_collect` it did not prove, since nothing is known of the cursor that the closure moves.
    for _ in 0..count {
        entries.push(cursor.ranged(0, last)?)?;
    }
    Ok(entries)
}

/// The carrier behind its mark, with at most `room` entries.
#[tactic(auto, unfolding(crate::specs::Parse::carrier_at))]
fn read_carrier(
    heap: Global,
    cursor: &mut Cursor<'_>,
    size: u16,
    room: u16,
) -> Result<Carrier, ReadFault>
    requires { cursor.old.at ≡ cursor.old.record_at + 2 }
    ensures value { Agrees route_of result (carrier_at cursor.old.bytes cursor.old.record_at size room) }
    ensures moves { IfOk result (λ c. cursor.new ≡ further cursor.old (6 + 2 * vec_len c.path)) }
    ensures few { IfOk result (λ c. vec_len c.path ≤ room) }
{
    let last = size.saturating_sub(1);
    let start = cursor.ranged(0, last)?;
    let goal = cursor.ranged(0, last)?;
    let count = cursor.ranged(0, room)?;
    let path = read_entries(heap, cursor, last, count)?;
    Ok(Carrier { start, goal, path })
}

/// Whether a carrier's mark stands next, and not the end's.
#[tactic(auto, unfolding(crate::specs::Parse::follows_at, crate::specs::Marks::mark_at))]
fn carrier_follows(cursor: &mut Cursor<'_>) -> Result<bool, FileFault>
    ensures value { result ≡ follows_at cursor.old.bytes cursor.old.at }
    ensures moves { OnOk result (cursor.new ≡ behind_mark cursor.old) }
{
    match cursor.mark()? {
        Mark::Carrier => Ok(true),
        Mark::End => Ok(false),
        Mark::Rail | Mark::Hall => Err(FileFault::WrongMark {
            at: cursor.record_at(),
        }),
    }
}

/// The carriers and the end.
pub(crate) fn read_carriers(
    heap: Global,
    cursor: &mut Cursor<'_>,
    size: u16,
) -> Result<Vec<Carrier>, ReadFault>
    ensures { Agrees carriers_in result (carriers_at cursor.old.bytes cursor.old.at size 2048 32) }
{
    let mut carriers = Vec::new(heap);
    let mut room = 2048;
    while carrier_follows(cursor)? {
        if carriers.len() == 32 {
            return Err(FileFault::OutOfRange {
                at: cursor.record_at(),
            }
            .into());
        }
        let carrier = read_carrier(heap, cursor, size, room)?;
        room -= carrier.path.len() as u16;
        carriers.push(carrier)?;
    }
    if !cursor.is_at_end() {
        return Err(FileFault::Trailing { at: cursor.at() }.into());
    }
    Ok(carriers)
}
