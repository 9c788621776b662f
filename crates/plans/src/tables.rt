ghost use Rattle.std.specs.Prelude.{◌≤◌, vec_len};

use crate::rows::CarrierRow;

/// The two tables of a plan, long enough for any: at least 2,048 entries and 32 rows.
#[derive(Drop)]
pub struct Tables {
    pub(crate) entries: Vec<u16>,
    pub(crate) rows: Vec<CarrierRow>,
    ghost long: { 2048 ≤ vec_len entries },
    ghost tall: { 32 ≤ vec_len rows },
}

impl Tables {
    /// How many entries the entry table has at least.
    pub const ENTRIES: usize = 2048;

    /// How many rows the carrier table has at least.
    pub const ROWS: usize = 32;
}

/// The table that is too short.
#[derive(Clone, Copy, PartialEq, Eq, Debug)]
pub enum ShortTable {
    /// The entry table, the first: fewer than 2,048 entries.
    Entries,
    /// The carrier table, the second: fewer than 32 rows.
    Rows,
}

/// Tables that are no tables of a plan, handed back as they were.
#[derive(Drop)]
pub struct TablesRefused {
    pub entries: Vec<u16>,
    pub rows: Vec<CarrierRow>,
    pub short: ShortTable,
}
