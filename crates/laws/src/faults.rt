//! Why a run refuses a call.

use boards::faults::BoardFault;

#[derive(Clone, Copy, PartialEq, Eq, Debug)]
pub enum RunFault {
    /// The carrier is not in the run.
    NotInRun { carrier: u8 },
    /// The board refuses in a turn, other than because the place is held.
    BoardRefuses { carrier: u8, fault: BoardFault },
}
