//! Writing carriers into the tables of a plan.

ghost use Rattle.std.specs.Prelude.{◌≡◌, ◌≤◌, ◌++◌, is_some, length, drop, IfSome};
ghost use Rattle.plans.specs.Plan.{entries_of, fits_carriers};
ghost use Rattle.plans.specs.Tables.{entry_table, row_table};
ghost use Rattle.plans.specs.Held.{routes_of};

use crate::carriers::Carrier;
use crate::fit::carriers_fit;
use crate::rows::CarrierRow;
use crate::tables::Tables;

/// Carriers that have room in the tables of a plan: at most 32, with at most 2,048 entries in all.
#[derive(Clone, Copy)]
pub(crate) struct Fitting<'c> {
    pub(crate) carriers: &'c [Carrier],
    ghost few: { length carriers.now ≤ 32 },
    ghost short: { length (entries_of (routes_of carriers.now)) ≤ 2048 },
}

impl<'c> Fitting<'c> {
    /// The carriers, if they make a plan on a floor of so many places.
    #[tactic(auto, using(crate::proofs::Routes::routes_length, crate::proofs::Formed::few_carriers, crate::proofs::Formed::few_entries))]
    pub(crate) fn new(places: u16, carriers: &'c [Carrier]) -> Option<Fitting<'c>>
        ensures fit { is_some result ≡ fits_carriers places (routes_of carriers.now) }
        ensures same { IfSome result (λ f. f.carriers.now ≡ carriers.now) }
    {
        // Kept: `then` was tried, and that its closure makes a `Fitting` was not proved.
        if carriers_fit(places, carriers) {
            Some(Fitting { carriers })
        } else {
            None
        }
    }

    /// How many carriers there are.
    pub(crate) fn count(&self) -> u8
        ensures { result ≡ length self.now.carriers.now }
    {
        self.carriers.len() as u8
    }
}

impl Tables {
    /// Writes the paths of the carriers one behind another, and 0 up to 2,048.
    #[tactic(auto, using(crate::proofs::Routes::entries_within), unfolding(crate::specs::Plan::entries_of))]
    fn write_entries(&mut self, fitting: &Fitting)
        ensures entries { self.new.entries.items ≡ entry_table (routes_of fitting.now.carriers.now) ++ drop 2048 self.old.entries.items }
        ensures rows { self.new.rows ≡ self.old.rows }
    {
        // Kept: places are counted, here and in `write_rows`, as each of the two writes one table and says what it then holds; after a walk with `split_at_mut` the proof knows the table's length and no entry.
        let mut at = 0;
        for carrier in fitting.carriers {
            let count = carrier.path.len();
            self.entries[at..at + count].copy_from_slice(&carrier.path);
            at += count;
        }
        self.entries[at..Tables::ENTRIES].fill(0);
    }

    /// Writes a row for each carrier, and 0 up to 32 rows.
    #[tactic(auto, using(crate::proofs::Routes::entries_within), unfolding(crate::specs::Plan::entries_of, crate::specs::Tables::rows_of))]
    fn write_rows(&mut self, fitting: &Fitting)
        ensures rows { self.new.rows.items ≡ row_table (routes_of fitting.now.carriers.now) ++ drop 32 self.old.rows.items }
        ensures entries { self.new.entries ≡ self.old.entries }
    {
        // Kept: rows are written by index; after `iter_mut` with `zip` the proof knows the length of the table and no row.
        let mut before: u16 = 0;
        for (c, carrier) in fitting.carriers.iter().enumerate() {
            let count = carrier.path.len() as u16;
            self.rows[c] = CarrierRow {
                start: carrier.start,
                goal: carrier.goal,
                before,
                count,
            };
            before += count;
        }
        self.rows[fitting.carriers.len()..Tables::ROWS].fill(CarrierRow::NONE);
    }

    /// Lays the carriers into the tables, which keep what stands behind the first 2,048 entries and 32 rows.
    pub(crate) fn lay(&mut self, fitting: &Fitting)
        ensures entries { self.new.entries.items ≡ entry_table (routes_of fitting.now.carriers.now) ++ drop 2048 self.old.entries.items }
        ensures rows { self.new.rows.items ≡ row_table (routes_of fitting.now.carriers.now) ++ drop 32 self.old.rows.items }
    {
        self.write_entries(fitting);
        self.write_rows(fitting);
    }
}
