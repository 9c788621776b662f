ghost use Rattle.files.specs.Reading.{Reads};

use crate::decode::decode;
use crate::draft::{Draft, ReadRefused};
use plans::plans::ReadPlan;
use plans::rows::CarrierRow;
use plans::tables::Tables;
use std::alloc::Global;

/// Reads a file into a plan, which takes both tables: at least 2,048 entries and 32 rows.
#[tactic(auto, using(crate::proofs::Whole::draft_fits))]
pub fn read(
    heap: Global,
    bytes: &[u8],
    entries: Vec<u16>,
    rows: Vec<CarrierRow>,
) -> Result<ReadPlan, ReadRefused>
    ensures { Reads bytes.now entries rows result }
{
    let tables = Tables::new(entries, rows)?;
    // Kept: a `match`, since a closure for `map_err` would take the tables on both ways.
    let Draft { floor, carriers } = match decode(heap, bytes) {
        Ok(draft) => draft,
        Err(fault) => return Err(ReadRefused::new(tables, fault)),
    };
    Ok(ReadPlan::new(floor, &carriers, tables).unwrap())
}
