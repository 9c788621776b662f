//! Tables that are long enough, and the refusal of others.

ghost use Rattle.std.specs.Prelude.{◌≡◌, Some};
ghost use Rattle.refusals.specs.Refusal.{spelt};
ghost use Rattle.plans.specs.Short.{short_refusal, Takes};

use crate::rows::CarrierRow;
use crate::tables::{ShortTable, Tables, TablesRefused};
use std::fmt;

impl Tables {
    /// The tables of a plan, or both handed back, with the lowest that is too short.
    pub fn new(entries: Vec<u16>, rows: Vec<CarrierRow>) -> Result<Tables, TablesRefused>
        ensures { Takes entries rows result }
    {
        let short = if entries.len() < Tables::ENTRIES {
            ShortTable::Entries
        } else if rows.len() < Tables::ROWS {
            ShortTable::Rows
        } else {
            return Ok(Tables { entries, rows });
        };
        Err(TablesRefused {
            entries,
            rows,
            short,
        })
    }

    /// Both tables, the entries first.
    pub fn into_parts(self) -> (Vec<u16>, Vec<CarrierRow>)
        ensures { (result.0 ≡ self.entries) × (result.1 ≡ self.rows) }
    {
        (self.entries, self.rows)
    }
}

impl ShortTable {
    /// The number of the refusal.
    // Kept: by a rule of the project a refusal has a number, which is printed and stands for it on screens.
    pub fn number(&self) -> u8
        ensures { result ≡ (short_refusal self.now).number }
    {
        18
    }
}

impl fmt::Display for ShortTable {
    ghost output = { λ s. Some (spelt (short_refusal s)) };

    fn fmt<W: fmt::Write>(&self, f: &mut fmt::Formatter<W>) -> fmt::Result {
        let number = self.number();
        let (table, due) = match self {
            ShortTable::Entries => (1u8, Tables::ENTRIES),
            ShortTable::Rows => (2, Tables::ROWS),
        };
        write!(f, "{number} {table} {due}")
    }
}

impl std::error::Error for ShortTable {}
