// Openings and their refusals.
use crate::sample::opened;
use board::{Board, BoardFault, Summary};
use faults::Report;
use std::test::Fail;

#[test]
fn a_new_board_is_opened_once(rt: HostRuntime) -> Result<(), Fail> {
    let mut board = Board::new(rt.alloc())?;
    assert_eq!(rt; board.summary(), None);
    assert_eq!(rt; board.open(7, 2, 86400, &[0, 86399]), Ok(()));
    assert_eq!(rt;
        board.summary(),
        Some(Summary {
            events: 2,
            period: 86400,
            constraints: 0,
        })
    );
    // opened already, though the other values are wrong too
    assert_eq!(rt; board.open(7, 0, 0, &[1]), Err(BoardFault::Opened));
    Ok(())
}

#[test]
fn an_opening_is_refused_for_its_lowest_cause(rt: HostRuntime) -> Result<(), Fail> {
    let mut board = Board::new(rt.alloc())?;
    assert_eq!(rt; board.open(0, 0, 0, &[1]), Err(BoardFault::EventCount));
    assert_eq!(rt; board.open(0, 33, 3600, &[]), Err(BoardFault::EventCount));
    assert_eq!(rt; board.open(0, 1, 0, &[0, 0]), Err(BoardFault::Period));
    assert_eq!(rt; board.open(0, 1, 86401, &[86401]), Err(BoardFault::Period));
    assert_eq!(rt; board.open(0, 1, 10, &[10, 0]), Err(BoardFault::Departure));
    assert_eq!(rt; board.open(0, 2, 10, &[9]), Err(BoardFault::Length));
    assert_eq!(rt; board.summary(), None);
    Ok(())
}

#[test]
fn faults_report_their_numbers(rt: HostRuntime) -> Result<(), Fail> {
    let mut board = opened(rt.alloc())?;
    let Err(fault) = board.open(1, 3, 3600, &[0, 1200, 2400]) else {
        return Err(Fail::new("opened twice"));
    };
    assert_eq!(rt; Report::from(fault).number, 2);
    assert_eq!(rt; Report::from(fault).place, 0);
    Ok(())
}
