ghost use Rattle.std.specs.Prelude.{◌≡◌, IfOk};
ghost use Rattle.store_floor.specs.Held.{layout_of};
ghost use Rattle.plans.specs.Held.{plan_of};
ghost use Rattle.files.specs.Parse.{parse};
ghost use Rattle.answers.specs.Told.{kind_of, account_of, told};

use crate::answer::{Account, Answer, FloorKind};
use files::faults::ReadFault;
use files::read::read;
use floors::floor::Floor;
use floors::legs::leg_count;
use plans::plans::ReadPlan;
use plans::rows::CarrierRow;
use plans::tables::Tables;
use std::alloc::{AllocError, Global};
use store_floor::store::StoreFloor;

impl<'f> From<&'f StoreFloor> for FloorKind {
    ghost from_gives = { λ floor kind. kind ≡ kind_of (layout_of floor.now) };

    fn from(floor: &'f StoreFloor) -> FloorKind {
        match floor {
            StoreFloor::Rail(_) => FloorKind::Rail,
            StoreFloor::Hall(_) => FloorKind::Hall,
        }
    }
}

impl<'p> From<&'p ReadPlan> for Account {
    ghost from_gives = { λ plan account. account ≡ account_of (plan_of plan.now) };

    fn from(plan: &'p ReadPlan) -> Account {
        let floor = plan.floor();
        Account {
            kind: floor.into(),
            places: floor.place_count(),
            legs: leg_count(floor),
            carriers: plan.carrier_count(),
            entries: plan.entry_count(),
        }
    }
}

/// The answer to a file.
pub fn answer(heap: Global, bytes: &[u8]) -> Result<Answer, AllocError>
    ensures { IfOk result (λ a. a ≡ told (parse bytes.now)) }
{
    let entries = vec![in heap; 0u16; Tables::ENTRIES]?;
    let rows = vec![in heap; CarrierRow::NONE; Tables::ROWS]?;
    // Kept: three refusals go three ways, to an answer, to an error and to what cannot be; `map` and `map_err` say it no shorter.
    match read(heap, bytes, entries, rows) {
        Ok(plan) => Ok(Answer(Ok(Account::from(&plan)))),
        Err(refused) => match refused.fault {
            ReadFault::File(fault) => Ok(Answer(Err(fault))),
            ReadFault::Memory => Err(AllocError),
            ReadFault::Short(_) => unreachable(),
        },
    }
}
