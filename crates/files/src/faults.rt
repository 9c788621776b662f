//! Why a file is not read.

ghost use Rattle.std.specs.Prelude.{◌≡◌};
ghost use Rattle.files.specs.declared.faults.ReadFault.TheVariants.{File, Memory};

use plans::tables::ShortTable;
use std::alloc::{AllocError, AllocFailed};

/// Why the bytes are no plan's file, with the offset that the refusal returns.
#[derive(Clone, Copy, PartialEq, Eq, Debug)]
pub enum FileFault {
    /// The file ends in the record whose mark stands here, or here, where a mark is due.
    Ends { at: usize },
    /// The mark here is unknown or not due.
    WrongMark { at: usize },
    /// The number, carrier mark, entry count or byte of cells here is out of range.
    OutOfRange { at: usize },
    /// The leg here leads to its own place, or does not stand above the one before it.
    OutOfOrder { at: usize },
    /// The first of the bytes behind the end stands here.
    Trailing { at: usize },
}

/// Why a file is not read.
#[derive(Clone, Copy, PartialEq, Eq, Debug)]
pub enum ReadFault {
    /// A table is too short.
    Short(ShortTable),
    /// The file is refused.
    File(FileFault),
    /// There is no memory for the floor and the carriers.
    Memory,
}

// Kept: three impls by hand, since the one that `thiserror` derives has no `from_gives`, and clauses read it.
impl From<FileFault> for ReadFault {
    ghost from_gives = { λ f r. r ≡ File f };

    fn from(fault: FileFault) -> ReadFault {
        ReadFault::File(fault)
    }
}

impl From<AllocError> for ReadFault {
    ghost from_gives = { λ _ r. r ≡ Memory };

    fn from(_e: AllocError) -> ReadFault {
        ReadFault::Memory
    }
}

impl<T: Drop> From<AllocFailed<T>> for ReadFault {
    ghost from_gives = { λ _ r. r ≡ Memory };

    fn from(_e: AllocFailed<T>) -> ReadFault {
        ReadFault::Memory
    }
}
