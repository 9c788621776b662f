//! An example of code over any kind of board, proved from the trait alone.

ghost use Rattle.std.specs.Prelude.{◌≡◌};
ghost use Rattle.boards.specs.Moving.{advance_answer, advanced, Moves};

use crate::board::Board;
use crate::faults::BoardFault;

/// Moves a carrier from a place to another: it enters the one and then leaves the other, so between the two it holds both.
/// A carrier that holds only the place `from` is moved wherever the place `to` is free.
pub fn advance<B: Board>(board: &mut B, carrier: u8, from: u16, to: u16) -> Result<(), BoardFault>
    ensures answer { result ≡ advance_answer B.PLACES (B.holders board.old) carrier from to }
    ensures after { B.holders board.new ≡ advanced B.PLACES (B.holders board.old) carrier from to }
    ensures moves { Moves B.PLACES (B.holders board.old) carrier from to result (B.holders board.new) }
{
    board.enter(carrier, to)?;
    board.leave(carrier, from)
}
