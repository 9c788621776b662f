use crate::CarrierBoard;
use boards::board::Board;
use boards::empty::is_empty;
use boards::faults::BoardFault;
use std::test::Fail;

#[test]
fn only_the_holder_leaves(rt: HostRuntime) -> Result<(), Fail> {
    let mut board = CarrierBoard::new();
    assert!(rt;
        board.leave(31, 1023)
            == Err(BoardFault::NotHolder {
                place: 1023,
                holder: None,
            })
    );
    board.enter(31, 1023)?;
    assert!(rt; !is_empty(&board));
    assert!(rt; board.who(1023) == Ok(Some(31)));
    assert!(rt;
        board.leave(30, 1023)
            == Err(BoardFault::NotHolder {
                place: 1023,
                holder: Some(31),
            })
    );
    assert!(rt; board.enter(0, 1024) == Err(BoardFault::BeyondBoard { place: 1024 }));
    assert!(rt; board.count(32) == Err(BoardFault::BeyondCarriers { carrier: 32 }));
    Ok(())
}
