//! The marks with which the records of a file begin.

ghost use Rattle.std.specs.Prelude.{◌≡◌};
ghost use Rattle.std.specs.Result.{result_ok};
ghost use Rattle.files.specs.Marks.{mark_of};

/// "RF", the low byte first.
const RAIL: u16 = 0x4652;

/// "HF", the low byte first.
const HALL: u16 = 0x4648;

/// "CA", the low byte first.
const CARRIER: u16 = 0x4143;

/// "EN", the low byte first.
const END: u16 = 0x4e45;

/// The mark with which a record begins.
#[derive(Clone, Copy)]
pub(crate) enum Mark {
    /// A rail floor.
    Rail,
    /// A hall floor.
    Hall,
    /// A carrier.
    Carrier,
    /// The end of the file.
    End,
}

/// A number that is no mark's.
#[derive(Clone, Copy)]
pub(crate) struct UnknownMark;

impl TryFrom<u16> for Mark {
    type Error = UnknownMark;

    ghost try_from_gives = { λ n r. result_ok r ≡ mark_of n };

    fn try_from(number: u16) -> Result<Self, UnknownMark> {
        match number {
            RAIL => Ok(Mark::Rail),
            HALL => Ok(Mark::Hall),
            CARRIER => Ok(Mark::Carrier),
            END => Ok(Mark::End),
            _ => Err(UnknownMark),
        }
    }
}
