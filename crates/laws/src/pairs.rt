/// A leg of a carrier: leg t leads from the carrier's entry t to its entry t + 1.
#[derive(Clone, Copy, PartialEq, Eq, Debug)]
pub struct Pair {
    pub carrier: u8,
    pub leg: u16,
}
