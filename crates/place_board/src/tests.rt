use crate::PlaceBoard;
use boards::board::Board;
use boards::empty::is_empty;
use boards::faults::BoardFault;
use boards::moving::advance;
use std::test::Fail;

#[test]
fn holds_two_places_and_no_third(rt: HostRuntime) -> Result<(), Fail> {
    let mut board = PlaceBoard::new();
    assert!(rt; is_empty(&board));
    board.enter(7, 511)?;
    board.enter(7, 3)?;
    assert!(rt; board.enter(7, 4) == Err(BoardFault::HoldsTwo { carrier: 7 }));
    assert!(rt;
        board.enter(7, 3)
            == Err(BoardFault::Held {
                place: 3,
                holder: 7,
            })
    );
    board.leave(7, 511)?;
    advance(&mut board, 7, 3, 4)?;
    assert!(rt; board.who(4) == Ok(Some(7)));
    assert!(rt; board.count(7) == Ok(1));
    Ok(())
}
