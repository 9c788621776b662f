ghost use Rattle.std.specs.Prelude.{◌≡◌};
ghost use Rattle.boards.specs.Holders.{empty};

use crate::board::{Board, CARRIERS};

/// Whether no place of the board is held: no carrier holds one.
pub fn is_empty<B: Board>(board: &B) -> bool
    ensures { result ≡ empty (B.holders board.now) }
{
    (0..CARRIERS).all(|carrier| board.count(carrier) == Ok(0))
}
