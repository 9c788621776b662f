//! A board that is kept by carriers: two cells for each carrier, each with a place that it holds.
#![tactic(auto)]

ghost use Rattle.std.specs.Prelude.{◌≡◌, ◌<◌, ◌≤◌, MatchResult, length, position, nat_eq};
ghost use Rattle.std.specs.Option.{option_eq};
ghost use Rattle.boards.specs.declared.faults.BoardFault.TheVariants.{BeyondCarriers};
ghost use Rattle.carrier_board.specs.Cells.{cells_of, carrier_of, spread, Pairs, Within, Apart};
ghost use Rattle.carrier_board.specs.Spreading.{length-spread, known_spread, few_spread};

use boards::board::Board;
use boards::faults::BoardFault;

#[cfg(test)]
mod tests;

/// A board of 1,024 places. It keeps for each carrier two cells, each with a place that it holds or with none; no place is ever in two cells.
#[derive(Drop)]
pub struct CarrierBoard {
    cells: [[Option<u16>; 2]; 32],
    ghost long: { length cells ≡ 32 },
    ghost pairs: { Pairs cells },
    ghost within: { Within 1024 cells },
    ghost apart: { Apart cells },
}

/// The first of a carrier's cells with this in it: a place, or none.
fn cell_with(own: &[Option<u16>; 2], held: Option<u16>) -> Option<usize>
    ensures { result ≡ position (λ cell. option_eq nat_eq cell held) own.now }
{
    own.iter().position(|cell| *cell == held)
}

impl CarrierBoard {
    /// The carrier with a cell that has the place, if there is one.
    fn carrier_of(&self, place: u16) -> Option<usize>
        ensures { result ≡ carrier_of self.now.cells place }
    {
        self.cells.iter().position(|own| own.contains(&Some(place)))
    }

    /// The cells of the carrier. Refused is a carrier above 31.
    fn cells_of(&self, carrier: u8) -> Result<&[Option<u16>; 2], BoardFault>
        ensures { MatchResult result (λ own. (carrier < 32) × (own.now ≡ cells_of self.now.cells carrier)) (λ fault. (32 ≤ carrier) × (fault ≡ BeyondCarriers carrier)) }
    {
        self.cells
            .get(usize::from(carrier))
            .ok_or(BoardFault::BeyondCarriers { carrier })
    }
}

impl Board for CarrierBoard {
    const PLACES: u16 = 1024;

    ghost PLACES = { 1024 };

    ghost holders = { λ b. spread 1024 b.cells };

    ghost sized = { λ b. length-spread 1024 b.cells };

    ghost known = { λ b. known_spread 1024 b.cells b.long };

    ghost few = { λ b. few_spread 1024 b.cells b.pairs b.within b.apart };

    fn new() -> Self {
        CarrierBoard {
            cells: [[None; 2]; 32],
        }
    }

    #[tactic(auto, unfolding(boards::specs::Calls::enter_answer))]
    fn enter(&mut self, carrier: u8, place: u16) -> Result<(), BoardFault> {
        let holder = self.who(place)?;
        let own = self.cells_of(carrier)?;
        if let Some(holder) = holder {
            return Err(BoardFault::Held { place, holder });
        }
        let free = cell_with(own, None).ok_or(BoardFault::HoldsTwo { carrier })?;
        self.cells[usize::from(carrier)][free] = Some(place);
        Ok(())
    }

    #[tactic(auto, unfolding(boards::specs::Calls::leave_answer))]
    fn leave(&mut self, carrier: u8, place: u16) -> Result<(), BoardFault> {
        let holder = self.who(place)?;
        let own = self.cells_of(carrier)?;
        let cell = cell_with(own, Some(place)).ok_or(BoardFault::NotHolder { place, holder })?;
        self.cells[usize::from(carrier)][cell] = None;
        Ok(())
    }

    #[tactic(auto, using(crate::specs::Spreading::holder_spread))]
    fn who(&self, place: u16) -> Result<Option<u8>, BoardFault> {
        if place >= Self::PLACES {
            return Err(BoardFault::BeyondBoard { place });
        }
        Ok(self.carrier_of(place).map(|carrier| carrier as u8))
    }

    fn count(&self, carrier: u8) -> Result<u8, BoardFault> {
        let [first, second] = self.cells_of(carrier)?;
        Ok(u8::from(first.is_some()) + u8::from(second.is_some()))
    }
}
