//! What a plan answers about its floor and its carriers. An unknown carrier, and an entry beyond a path, is answered.

ghost use Rattle.std.specs.Prelude.{◌≡◌, ◌+◌, ◌≤◌, length, take, IfSome};
ghost use Rattle.std.specs.Option.{option_map};
ghost use Rattle.std.specs.List.{slice_get, All};
ghost use Rattle.plans.specs.Plan.{entries_of, carrier};
ghost use Rattle.plans.specs.Held.{plan_of};

use crate::plans::ReadPlan;
use crate::rows::CarrierRow;
use store_floor::store::StoreFloor;

impl ReadPlan {
    /// The rows of the carriers.
    #[tactic(auto, using(crate::proofs::Facts::rows_within))]
    fn rows(&self) -> &[CarrierRow]
        ensures value { result.now ≡ take self.now.carriers self.now.tables.rows.items }
        ensures within { All (λ row. row.before + row.count ≤ 2048) result.now }
    {
        &self.tables.rows[..usize::from(self.carriers)]
    }

    /// The row of a carrier; none if there is no such carrier.
    fn row(&self, number: u8) -> Option<CarrierRow>
        ensures value { result ≡ slice_get (take self.now.carriers self.now.tables.rows.items) number }
        ensures within { IfSome result (λ row. row.before + row.count ≤ 2048) }
    {
        self.rows().get(usize::from(number)).copied()
    }

    /// The floor.
    pub fn floor(&self) -> &StoreFloor
        ensures { result.now ≡ self.now.floor }
    {
        &self.floor
    }

    /// How many carriers there are.
    #[tactic(auto, using(crate::proofs::Facts::carriers_count))]
    pub fn carrier_count(&self) -> u8
        ensures { result ≡ length (plan_of self.now).carriers }
    {
        self.carriers
    }

    /// Where a carrier starts; none if there is no such carrier.
    #[tactic(auto, unfolding(crate::specs::Tables::routes_in))]
    pub fn start(&self, carrier: u8) -> Option<u16>
        ensures { result ≡ option_map (λ x. x.start) (slice_get (plan_of self.now).carriers carrier) }
    {
        self.row(carrier).map(|row| row.start)
    }

    /// Where a carrier is to go; none if there is no such carrier.
    #[tactic(auto, unfolding(crate::specs::Tables::routes_in))]
    pub fn goal(&self, carrier: u8) -> Option<u16>
        ensures { result ≡ option_map (λ x. x.goal) (slice_get (plan_of self.now).carriers carrier) }
    {
        self.row(carrier).map(|row| row.goal)
    }

    /// A carrier's path: empty if it has none, or if there is no such carrier.
    pub fn path(&self, number: u8) -> &[u16]
        ensures { result.now ≡ (carrier (plan_of self.now) number).path }
    {
        let Some(row) = self.row(number) else {
            return &[];
        };
        &self.tables.entries[usize::from(row.before)..][..usize::from(row.count)]
    }

    /// Entry `t` of a carrier's path, counted from 0; none beyond the last.
    pub fn entry(&self, number: u8, t: u16) -> Option<u16>
        ensures { result ≡ slice_get (carrier (plan_of self.now) number).path t }
    {
        self.path(number).get(usize::from(t)).copied()
    }

    /// How many entries the paths of all carriers have together.
    pub fn entry_count(&self) -> u16
        ensures { result ≡ length (entries_of (plan_of self.now).carriers) }
    {
        self.rows().last().map_or(0, |row| row.before + row.count)
    }
}
