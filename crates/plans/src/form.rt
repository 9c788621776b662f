//! Making a plan, and taking it apart.

ghost use Rattle.std.specs.Prelude.{◌≡◌, take};
ghost use Rattle.plans.specs.Tables.{entry_table, row_table};
ghost use Rattle.plans.specs.Held.{routes_of, plan_of};
ghost use Rattle.plans.specs.Forms.{Forms};

use crate::carriers::Carrier;
use crate::layout::Fitting;
use crate::plans::{Misfit, ReadPlan};
use crate::tables::Tables;
use floors::floor::Floor;
use store_floor::store::StoreFloor;

impl ReadPlan {
    /// The plan of a floor and carriers, in these tables; or both handed back, where the carriers do not fit the floor.
    pub fn new(
        floor: StoreFloor,
        carriers: &[Carrier],
        mut tables: Tables,
    ) -> Result<ReadPlan, Misfit>
        ensures { Forms floor (routes_of carriers.now) tables result }
    {
        let Some(fitting) = Fitting::new(floor.place_count(), carriers) else {
            return Err(Misfit { floor, tables });
        };
        tables.lay(&fitting);
        Ok(ReadPlan {
            floor,
            tables,
            carriers: fitting.count(),
        })
    }

    /// The floor and the tables, which hold the plan.
    pub fn into_parts(self) -> (StoreFloor, Tables)
        ensures floor { result.0 ≡ self.floor }
        ensures tables { result.1 ≡ self.tables }
        ensures entries { take 2048 result.1.entries.items ≡ entry_table (plan_of self).carriers }
        ensures rows { take 32 result.1.rows.items ≡ row_table (plan_of self).carriers }
    {
        (self.floor, self.tables)
    }
}
