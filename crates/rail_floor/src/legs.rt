/// A leg of a rail floor: it leads one way, from a place to another place, and is so many decimetres long.
#[derive(Clone, Copy, PartialEq, Eq, Debug)]
pub struct Leg {
    pub from: u16,
    pub to: u16,
    pub length: u16,
}
