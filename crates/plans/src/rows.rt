/// A carrier's row of the carrier table: its start and goal, how many entries of the entry table lie before its path, and
/// how many are its path.
#[derive(Clone, Copy, PartialEq, Eq, Debug)]
pub struct CarrierRow {
    pub start: u16,
    pub goal: u16,
    pub before: u16,
    pub count: u16,
}

impl CarrierRow {
    /// The row of no carrier.
    pub const NONE: CarrierRow = CarrierRow {
        start: 0,
        goal: 0,
        before: 0,
        count: 0,
    };
}
