use files::faults::FileFault;

/// The kind of a floor.
#[derive(Clone, Copy, PartialEq, Eq, Debug)]
pub enum FloorKind {
    Rail,
    Hall,
}

/// An account of a plan that was read.
#[derive(Clone, Copy, PartialEq, Eq, Debug)]
pub struct Account {
    /// The kind of its floor.
    pub kind: FloorKind,
    /// How many places the floor has.
    pub places: u16,
    /// How many legs the floor has.
    pub legs: usize,
    /// How many carriers there are.
    pub carriers: u8,
    /// How many entries their paths have together.
    pub entries: u16,
}

/// The answer to a file: an account of the plan that it is read as, or why it is refused.
#[derive(Clone, Copy, PartialEq, Eq, Debug)]
pub struct Answer(pub Result<Account, FileFault>);
