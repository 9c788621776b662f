/// What was found out about each leg of a plan: one with a height is dropped from the search, one without is kept.
// Kept: a list for each carrier would be memory that can run out; `offsets` stands beside the one array, since the rows of a plan are not lent.
#[derive(Clone, Copy)]
pub struct Dropped {
    /// For each carrier, where the heights of its legs begin.
    pub(crate) offsets: [u16; 32],
    /// The heights, leg behind leg.
    pub(crate) heights: [Option<u16>; 2048],
}
