ghost use Rattle.std.specs.Prelude.{◌≡◌, ℕ, List, length, replicate, None, Option};
ghost use Rattle.boards.specs.Holders.{Known, AtMostTwo};
ghost use Rattle.boards.specs.Calls.{enter_answer, entered, leave_answer, left, who_answer, count_answer};

use crate::faults::BoardFault;

/// How many carriers there are: they are numbered 0 to 31.
pub const CARRIERS: u8 = 32;

/// A board records who holds which place: each place has no holder or one carrier.
/// Its meaning is the list of holders; all that a call answers and changes is said of that list.
pub trait Board: Sized {
    /// How many places a board of this kind has.
    const PLACES: u16;

    /// The same number, in clauses.
    ghost PLACES: { ℕ };

    /// The holder of each place, from place 0 on.
    ghost holders: { Self → List (Option ℕ) };

    /// The number of places: `PLACES`.
    final fn place_count() -> u16
        ensures { result ≡ PLACES }
    {
        Self::PLACES
    }

    /// A board of which no place is held.
    fn new() -> Self
        ensures { holders result ≡ replicate PLACES None };

    /// The carrier becomes the holder of the place, and all else stays. Refused, in this order, are a place beyond the board,
    /// a carrier above 31, a place that has a holder (be it the carrier itself), and a carrier that holds two places.
    fn enter(&mut self, carrier: u8, place: u16) -> Result<(), BoardFault>
        ensures answer { result ≡ enter_answer PLACES (holders self.old) carrier place }
        ensures after { holders self.new ≡ entered PLACES (holders self.old) carrier place };

    /// The place becomes free, and all else stays. Refused, in this order, are a place beyond the board, a carrier above 31,
    /// and a place that the carrier does not hold.
    fn leave(&mut self, carrier: u8, place: u16) -> Result<(), BoardFault>
        ensures answer { result ≡ leave_answer PLACES (holders self.old) carrier place }
        ensures after { holders self.new ≡ left PLACES (holders self.old) carrier place };

    /// The holder of the place, or none. Refused is a place beyond the board.
    fn who(&self, place: u16) -> Result<Option<u8>, BoardFault>
        ensures { result ≡ who_answer PLACES (holders self.now) place };

    /// How many places the carrier holds. Refused is a carrier above 31.
    fn count(&self, carrier: u8) -> Result<u8, BoardFault>
        ensures { result ≡ count_answer (holders self.now) carrier };

    /// There is an entry for each of the `PLACES` and no more: nothing is held beyond them.
    ghost sized: { (b : Self) → length (holders b) ≡ PLACES };

    /// Each holder is one of the carriers 0 to 31.
    ghost known: { (b : Self) → Known (holders b) };

    /// No carrier holds more than two places.
    ghost few: { (b : Self) → AtMostTwo (holders b) };
}
