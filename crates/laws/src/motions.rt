/// What a carrier does: it stands at an entry of its path, or travels a leg of it.
#[derive(Clone, Copy, PartialEq, Eq, Debug)]
pub enum Motion {
    /// It stands at this entry.
    Standing(u16),
    /// It travels this leg, from the entry of that number to the next.
    Travelling(u16),
}

/// What a turn answers.
#[derive(Clone, Copy, PartialEq, Eq, Debug)]
pub enum Turn {
    /// The carrier stands at its last entry.
    Home,
    /// It has begun its next leg.
    Departed,
    /// It stays, since its next place is held.
    Waits { place: u16, holder: u8 },
    /// It has ended its leg.
    Arrived,
}
