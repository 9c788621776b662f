//! How a refusal is printed: its number and what it returns.

ghost use Rattle.std.specs.Prelude.{◌≡◌, Some};
ghost use Rattle.refusals.specs.Refusal.{spelt};
ghost use Rattle.files.specs.Faults.{refusal, spelt_fault};

use crate::faults::{FileFault, ReadFault};
use std::error::Error;
use std::fmt;
use std::fmt::Display;

impl FileFault {
    /// The number of the refusal.
    // Kept: by a rule of the project a refusal has a number, which is printed and stands for it on screens.
    pub fn number(&self) -> u8
        ensures { result ≡ (refusal self.now).number }
    {
        match self {
            FileFault::Ends { .. } => 1,
            FileFault::WrongMark { .. } => 2,
            FileFault::OutOfRange { .. } => 3,
            FileFault::OutOfOrder { .. } => 4,
            FileFault::Trailing { .. } => 5,
        }
    }
}

impl fmt::Display for FileFault {
    ghost output = { λ f. Some (spelt (refusal f)) };

    fn fmt<W: fmt::Write>(&self, f: &mut fmt::Formatter<W>) -> fmt::Result {
        let number = self.number();
        let (FileFault::Ends { at }
        | FileFault::WrongMark { at }
        | FileFault::OutOfRange { at }
        | FileFault::OutOfOrder { at }
        | FileFault::Trailing { at }) = self;
        write!(f, "{number} {at}")
    }
}

impl fmt::Display for ReadFault {
    ghost output = { λ f. Some (spelt_fault f) };

    fn fmt<W: fmt::Write>(&self, f: &mut fmt::Formatter<W>) -> fmt::Result {
        match self {
            ReadFault::Short(table) => table.fmt(f),
            ReadFault::File(fault) => fault.fmt(f),
            ReadFault::Memory => write!(f, "no memory"),
        }
    }
}

impl Error for FileFault {}

impl Error for ReadFault {}
