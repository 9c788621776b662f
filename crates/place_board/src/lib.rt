//! A board that is kept by places: a cell for each place, with its holder.
#![tactic(auto)]

ghost use Rattle.std.specs.Prelude.{◌≡◌, length};
ghost use Rattle.boards.specs.Holders.{Known, AtMostTwo};
ghost use Rattle.place_board.specs.Counts.{Counted};

use boards::board::Board;
use boards::faults::BoardFault;

#[cfg(test)]
mod tests;

/// A board of 512 places. Beside the holder of each place it keeps, for each carrier, how many places it holds.
#[derive(Drop)]
pub struct PlaceBoard {
    cells: [Option<u8>; 512],
    counts: [u8; 32],
    ghost long: { length cells ≡ 512 },
    ghost known: { Known cells },
    ghost few: { AtMostTwo cells },
    ghost counted: { Counted cells counts },
}

impl Board for PlaceBoard {
    const PLACES: u16 = 512;

    ghost PLACES = { 512 };

    ghost holders = { λ b. b.cells };

    ghost sized = { λ b. b.long };

    ghost known = { λ b. b.known };

    ghost few = { λ b. b.few };

    fn new() -> Self {
        PlaceBoard {
            cells: [None; 512],
            counts: [0; 32],
        }
    }

    #[tactic(auto, unfolding(boards::specs::Calls::enter_answer))]
    fn enter(&mut self, carrier: u8, place: u16) -> Result<(), BoardFault> {
        let holder = self.who(place)?;
        let count = self.count(carrier)?;
        if let Some(holder) = holder {
            return Err(BoardFault::Held { place, holder });
        }
        if count >= 2 {
            return Err(BoardFault::HoldsTwo { carrier });
        }
        self.cells[usize::from(place)] = Some(carrier);
        self.counts[usize::from(carrier)] = count + 1;
        Ok(())
    }

    #[tactic(auto, unfolding(boards::specs::Calls::leave_answer))]
    fn leave(&mut self, carrier: u8, place: u16) -> Result<(), BoardFault> {
        let holder = self.who(place)?;
        let count = self.count(carrier)?;
        if holder != Some(carrier) {
            return Err(BoardFault::NotHolder { place, holder });
        }
        self.cells[usize::from(place)] = None;
        self.counts[usize::from(carrier)] = count - 1;
        Ok(())
    }

    // Kept: `who` and `count` look into two tables with two refusals; one function for both would be longer than each.
    fn who(&self, place: u16) -> Result<Option<u8>, BoardFault> {
        self.cells
            .get(usize::from(place))
            .copied()
            .ok_or(BoardFault::BeyondBoard { place })
    }

    fn count(&self, carrier: u8) -> Result<u8, BoardFault> {
        self.counts
            .get(usize::from(carrier))
            .copied()
            .ok_or(BoardFault::BeyondCarriers { carrier })
    }
}
