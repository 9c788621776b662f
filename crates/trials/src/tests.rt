use files::faults::{FileFault, ReadFault};
use files::read::read;
use plans::rows::CarrierRow;
use plans::tables::ShortTable;
use std::test::Fail;

/// Two places with a leg from 0 to 1, 9 decimetres long, and one carrier, which goes over it.
const FILE: [u8; 26] = [
    0x52, 0x46, 2, 0, 1, 0, 0, 0, 1, 0, 9, 0, 0x43, 0x41, 0, 0, 1, 0, 2, 0, 0, 0, 1, 0, 0x45, 0x4e,
];

/// A row that no plan writes.
const OTHER: CarrierRow = CarrierRow {
    start: 7,
    goal: 7,
    before: 7,
    count: 7,
};

#[test]
fn longer_tables_keep_their_rest(rt: HostRuntime) -> Result<(), Fail> {
    let heap = rt.alloc();
    let entries = vec![in heap; 7u16; 2050]?;
    let rows = vec![in heap; OTHER; 33]?;
    let Ok(plan) = read(heap, &FILE, entries, rows) else {
        return Err(Fail::new("not read"));
    };
    assert_eq!(rt; plan.carrier_count(), 1);
    assert_eq!(rt; plan.start(0), Some(0));
    assert_eq!(rt; plan.goal(0), Some(1));
    assert_eq!(rt; plan.goal(1), None);
    assert_eq!(rt; plan.entry(0, 1), Some(1));
    assert_eq!(rt; plan.entry(0, 2), None);
    let (_floor, tables) = plan.into_parts();
    let (entries, rows) = tables.into_parts();
    assert_eq!(rt; entries.get(1).copied(), Some(1));
    assert_eq!(rt; entries.get(2).copied(), Some(0));
    assert_eq!(rt; entries.get(2047).copied(), Some(0));
    assert_eq!(rt; entries.get(2048).copied(), Some(7));
    assert_eq!(rt; rows.get(31).copied(), Some(CarrierRow::NONE));
    assert_eq!(rt; rows.get(32).copied(), Some(OTHER));
    Ok(())
}

#[test]
fn short_tables_are_handed_back(rt: HostRuntime) -> Result<(), Fail> {
    let heap = rt.alloc();
    let entries = vec![in heap; 7u16; 2048]?;
    let rows = vec![in heap; OTHER; 31]?;
    let Err(refused) = read(heap, &FILE, entries, rows) else {
        return Err(Fail::new("read"));
    };
    assert_eq!(rt; refused.fault, ReadFault::Short(ShortTable::Rows));
    assert_eq!(rt; refused.entries.get(0).copied(), Some(7));
    assert_eq!(rt; refused.rows.len(), 31);
    Ok(())
}

#[test]
fn refused_files_hand_tables_back(rt: HostRuntime) -> Result<(), Fail> {
    let heap = rt.alloc();
    let entries = vec![in heap; 7u16; 2048]?;
    let rows = vec![in heap; OTHER; 32]?;
    let Err(refused) = read(heap, &FILE[0..25], entries, rows) else {
        return Err(Fail::new("read"));
    };
    assert_eq!(rt; refused.fault, ReadFault::File(FileFault::Ends { at: 24 }));
    assert_eq!(rt; refused.entries.get(0).copied(), Some(7));
    assert_eq!(rt; refused.rows.get(0).copied(), Some(OTHER));
    Ok(())
}
