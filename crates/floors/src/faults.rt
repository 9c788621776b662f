//! Why a floor is not made.

ghost use Rattle.std.specs.Prelude.{◌≡◌, Some};
ghost use Rattle.floors.specs.declared.faults.FloorFault.TheVariants.{Memory};
ghost use Rattle.floors.specs.Faults.{spelt_fault};

use std::alloc::{AllocError, AllocFailed};
use std::error::Error;
use std::fmt;

/// Why a floor is not made.
#[derive(Clone, Copy, PartialEq, Eq, Debug)]
pub enum FloorFault {
    /// What was passed in is no such floor.
    Unfit,
    /// There is no memory for what the floor owns.
    Memory,
}

impl fmt::Display for FloorFault {
    ghost output = { λ f. Some (spelt_fault f) };

    fn fmt<W: fmt::Write>(&self, f: &mut fmt::Formatter<W>) -> fmt::Result {
        match self {
            FloorFault::Unfit => write!(f, "no such floor"),
            FloorFault::Memory => write!(f, "no memory"),
        }
    }
}

impl Error for FloorFault {}

// Kept: written out for either error of memory that a `?` may meet, since a derived `From` says nothing of what it makes.
impl From<AllocError> for FloorFault {
    ghost from_gives = { λ _ r. r ≡ Memory };

    fn from(_e: AllocError) -> FloorFault {
        FloorFault::Memory
    }
}

impl<T: Drop> From<AllocFailed<T>> for FloorFault {
    ghost from_gives = { λ _ r. r ≡ Memory };

    fn from(_e: AllocFailed<T>) -> FloorFault {
        FloorFault::Memory
    }
}
