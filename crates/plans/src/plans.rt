ghost use Rattle.std.specs.Prelude.{◌≡◌, ◌≤◌, true, take};
ghost use Rattle.store_floor.specs.Held.{layout_of};
ghost use Rattle.plans.specs.Plan.{fits};
ghost use Rattle.plans.specs.Tables.{routes_in, entry_table, row_table};

use crate::tables::Tables;
use store_floor::store::StoreFloor;

/// A plan as it was read: its floor, and its carriers in its tables. It keeps to the bounds of floors and carriers, and the
/// first 2,048 entries and 32 rows are exactly the plan, unused ones 0.
// Kept: by a rule of the project a plan owns the two tables passed in, so a count and offsets stand beside them.
#[derive(Drop)]
pub struct ReadPlan {
    pub(crate) floor: StoreFloor,
    pub(crate) tables: Tables,
    pub(crate) carriers: u8,
    ghost few: { carriers ≤ 32 },
    ghost fit: { fits (record { floor = layout_of floor; carriers = routes_in tables.entries.items tables.rows.items carriers }) ≡ true },
    ghost laid: { take 2048 tables.entries.items ≡ entry_table (routes_in tables.entries.items tables.rows.items carriers) },
    ghost rowed: { take 32 tables.rows.items ≡ row_table (routes_in tables.entries.items tables.rows.items carriers) },
}

/// A floor and carriers that make no plan together; floor and tables are handed back as they were.
#[derive(Drop)]
pub struct Misfit {
    pub floor: StoreFloor,
    pub tables: Tables,
}
