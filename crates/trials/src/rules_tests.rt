use files::read::read;
use plans::plans::ReadPlan;
use plans::rows::CarrierRow;
use rules::search::{equal_goals, foreign_goal, no_leg, wrong_end};
use std::alloc::Global;
use std::test::Fail;

/// Five places: a line 0, 1, 2, 3, and a way round from 1 to 2 by 4; legs both ways.
const FLOOR: &[u8] =
    b"RF\x05\0\x0a\0\0\0\x01\0\x1e\0\x01\0\0\0\x1e\0\x01\0\x02\0\x5a\0\x01\0\x04\0\x14\0\x02\0\x01\0\x5a\0\x02\0\x03\0\x1e\0\x02\0\x04\0\x14\0\x03\0\x02\0\x1e\0\x04\0\x01\0\x14\0\x04\0\x02\0\x14\0";

/// The plan of these carriers on this floor.
fn plan(heap: Global, carriers: &[u8]) -> Result<ReadPlan, Fail> {
    let mut file = Vec::new(heap);
    file.extend_from_slice(FLOOR)?;
    file.extend_from_slice(carriers)?;
    let entries = vec![in heap; 0u16; 2048]?;
    let rows = vec![in heap; CarrierRow::NONE; 32]?;
    match read(heap, file.as_slice(), entries, rows) {
        Ok(plan) => Ok(plan),
        Err(_) => Err(Fail::new("not read")),
    }
}

/// 0 1 2 and 2 3 2 4, which leaves the other's goal and comes back to it.
const BACK: &[u8] =
    b"CA\0\0\x02\0\x03\0\0\0\x01\0\x02\0CA\x02\0\x04\0\x04\0\x02\0\x03\0\x02\0\x04\0EN";

/// 0 1 3 and 0 4, both from 0 to 3.
const LEGLESS: &[u8] = b"CA\0\0\x03\0\x03\0\0\0\x01\0\x03\0CA\0\0\x03\0\x02\0\0\0\x04\0EN";

#[test]
fn foreign_goal_is_found(rt: HostRuntime) -> Result<(), Fail> {
    let plan = plan(rt.alloc(), BACK)?;
    assert_eq!(rt; foreign_goal(&plan), Some((1, 2, 0)));
    Ok(())
}

#[test]
fn other_breaches_are_found(rt: HostRuntime) -> Result<(), Fail> {
    let plan = plan(rt.alloc(), LEGLESS)?;
    assert_eq!(rt; wrong_end(&plan), Some((1, 1)));
    assert_eq!(rt; no_leg(&plan), Some((0, 2)));
    assert_eq!(rt; equal_goals(&plan), Some((0, 1)));
    Ok(())
}
