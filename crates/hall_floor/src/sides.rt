/// The sides of a cell of a hall.
#[derive(Clone, Copy, PartialEq, Eq, Debug)]
pub enum Side {
    /// Towards the row before.
    North,
    /// Towards the column before.
    West,
    /// Towards the next column.
    East,
    /// Towards the next row.
    South,
}
