//! Why a board refuses.

ghost use Rattle.std.specs.Prelude.{◌≡◌, Some};
ghost use Rattle.refusals.specs.Refusal.{spelt};
ghost use Rattle.boards.specs.Refusals.{refusal};

use std::error::Error;
use std::fmt;

/// Why a board refuses.
#[derive(Clone, Copy, PartialEq, Eq, Debug)]
pub enum BoardFault {
    /// The board has no such place.
    BeyondBoard { place: u16 },
    /// There is no such carrier: they are numbered 0 to 31.
    BeyondCarriers { carrier: u8 },
    /// The place has a holder already: another carrier, or the same.
    Held { place: u16, holder: u8 },
    /// The carrier holds two places already.
    HoldsTwo { carrier: u8 },
    /// The carrier does not hold the place: another does, or none.
    NotHolder { place: u16, holder: Option<u8> },
}

impl BoardFault {
    /// The number of the refusal.
    // Kept: by a rule of the project a refusal has a number, which is printed and stands for it on screens.
    pub fn number(&self) -> u8
        ensures { result ≡ (refusal self.now).number }
    {
        match self {
            BoardFault::BeyondBoard { .. } => 30,
            BoardFault::BeyondCarriers { .. } => 31,
            BoardFault::Held { .. } => 32,
            BoardFault::HoldsTwo { .. } => 33,
            BoardFault::NotHolder { .. } => 34,
        }
    }
}

impl fmt::Display for BoardFault {
    ghost output = { λ f. Some (spelt (refusal f)) };

    fn fmt<W: fmt::Write>(&self, f: &mut fmt::Formatter<W>) -> fmt::Result {
        let number = self.number();
        match self {
            BoardFault::BeyondBoard { place } => write!(f, "{number} {place}"),
            BoardFault::BeyondCarriers { carrier } => write!(f, "{number} {carrier}"),
            BoardFault::Held { place, holder } => write!(f, "{number} {place} {holder}"),
            BoardFault::HoldsTwo { carrier } => write!(f, "{number} {carrier}"),
            BoardFault::NotHolder {
                place,
                holder: Some(holder),
            } => write!(f, "{number} {place} {holder}"),
            BoardFault::NotHolder {
                place,
                holder: None,
            } => write!(f, "{number} {place}"),
        }
    }
}

impl Error for BoardFault {}
