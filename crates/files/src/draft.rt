//! What passes between the parts of the reader.

ghost use Rattle.std.specs.Prelude.{◌≡◌};
ghost use Rattle.files.specs.declared.faults.ReadFault.TheVariants.{Short};

use crate::faults::ReadFault;
use plans::carriers::Carrier;
use plans::rows::CarrierRow;
use plans::tables::{Tables, TablesRefused};
use store_floor::store::StoreFloor;

/// A floor and carriers as they were decoded, before they are laid into tables.
#[derive(Drop)]
pub struct Draft {
    pub floor: StoreFloor,
    pub carriers: Vec<Carrier>,
}

/// A file that was not read; both tables are handed back as they were.
// Kept: one generic type with `TablesRefused`, which would stand in `plans`, could have no `From` here: neither type would be this crate's.
#[derive(Drop)]
pub struct ReadRefused {
    pub entries: Vec<u16>,
    pub rows: Vec<CarrierRow>,
    pub fault: ReadFault,
}

impl ReadRefused {
    /// These tables, handed back, and why.
    pub(crate) fn new(tables: Tables, fault: ReadFault) -> Self
        ensures { result ≡ record { entries = tables.entries; rows = tables.rows; fault = fault } }
    {
        let (entries, rows) = tables.into_parts();
        ReadRefused {
            entries,
            rows,
            fault,
        }
    }
}

impl From<TablesRefused> for ReadRefused {
    ghost from_gives = { λ t r. r ≡ record { entries = t.entries; rows = t.rows; fault = Short t.short } };

    fn from(refused: TablesRefused) -> ReadRefused {
        let TablesRefused {
            entries,
            rows,
            short,
        } = refused;
        ReadRefused {
            entries,
            rows,
            fault: ReadFault::Short(short),
        }
    }
}
