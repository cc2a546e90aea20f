// Retimings and withdrawals, and their refusals.
use crate::sample::{board_b, free, opened};
use board::{Board, BoardFault};
use std::test::Fail;

#[test]
fn a_new_board_has_nothing_to_change(rt: HostRuntime) -> Result<(), Fail> {
    let mut board = Board::new(rt.alloc())?;
    assert_eq!(rt; board.retime(0, 14401), Err(BoardFault::New));
    assert_eq!(rt; board.withdraw(0), Err(BoardFault::New));
    Ok(())
}

#[test]
fn a_retiming_is_refused_for_its_lowest_cause(rt: HostRuntime) -> Result<(), Fail> {
    let mut board = board_b(rt.alloc())?;
    assert_eq!(rt; board.retime(4, 14401), Err(BoardFault::Time));
    assert_eq!(rt; board.retime(4, 14400), Err(BoardFault::Number));
    assert_eq!(rt; board.retime(3, 14400), Ok(()));
    assert_eq!(rt; board.withdraw(3), Ok(()));
    assert_eq!(rt; board.retime(3, 2300), Err(BoardFault::NotStanding));
    Ok(())
}

#[test]
fn a_constraint_is_withdrawn_once(rt: HostRuntime) -> Result<(), Fail> {
    let mut board = board_b(rt.alloc())?;
    assert_eq!(rt; board.withdraw(255), Err(BoardFault::Number));
    assert_eq!(rt; board.withdraw(4), Err(BoardFault::Number));
    assert_eq!(rt; board.withdraw(3), Ok(()));
    assert_eq!(rt; board.withdraw(3), Err(BoardFault::NotStanding));
    Ok(())
}

#[test]
fn a_withdrawn_constraint_closes_no_circuit(rt: HostRuntime) -> Result<(), Fail> {
    let mut board = opened(rt.alloc())?;
    assert_eq!(rt; board.add(free(0, 1, 127)), Ok(0));
    assert_eq!(rt; board.add(free(1, 0, 127)), Err(BoardFault::Circuit));
    assert_eq!(rt; board.withdraw(0), Ok(()));
    assert_eq!(rt; board.add(free(1, 0, 127)), Ok(1));
    Ok(())
}
