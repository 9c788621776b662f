//! The calls that are made on an opened run and its board, and what they are replied.

use crate::faults::RunFault;
use crate::motions::{Motion, Turn};
use boards::faults::BoardFault;

/// A turn for a carrier, or a question.
#[derive(Clone, Copy)]
pub enum Call {
    /// A turn for this carrier.
    TurnFor(u8),
    /// What this carrier does.
    MotionOf(u8),
    /// How far all carriers are from home.
    DistanceLeft,
    /// Who holds this place.
    HolderOf(u16),
    /// How many places this carrier holds.
    CountOf(u8),
}

/// What is replied to a call of each kind.
#[derive(Clone, Copy)]
pub enum Reply {
    Turned(Result<Turn, RunFault>),
    Moves(Result<Motion, RunFault>),
    Far(u32),
    Held(Result<Option<u8>, BoardFault>),
    Holds(Result<u8, BoardFault>),
}
