// Additions and their refusals.
use crate::sample::{board_b, free, opened};
use board::{Board, BoardFault};
use std::test::Fail;
use timetable::Addition;

#[test]
fn a_token_free_circuit_is_refused_where_its_days_meet(rt: HostRuntime) -> Result<(), Fail> {
    let mut board = opened(rt.alloc())?;
    assert_eq!(rt; board.add(free(0, 1, 31)), Ok(0));
    assert_eq!(rt; board.add(free(1, 0, 112)), Err(BoardFault::Circuit));
    assert_eq!(rt; board.add(free(1, 0, 96)), Ok(1));
    Ok(())
}

#[test]
fn a_token_free_constraint_to_its_own_event_is_refused(rt: HostRuntime) -> Result<(), Fail> {
    let mut board = opened(rt.alloc())?;
    assert_eq!(rt; board.add(free(2, 2, 1)), Err(BoardFault::Circuit));
    let tokened = Addition {
        tokens: 1,
        ..free(2, 2, 1)
    };
    assert_eq!(rt; board.add(tokened), Ok(0));
    Ok(())
}

#[test]
fn board_b_takes_a_fifth_constraint_with_a_token(rt: HostRuntime) -> Result<(), Fail> {
    let mut board = board_b(rt.alloc())?;
    assert_eq!(rt; board.add(free(2, 0, 127)), Err(BoardFault::Circuit));
    let tokened = Addition {
        tokens: 1,
        ..free(2, 0, 127)
    };
    assert_eq!(rt; board.add(tokened), Ok(4));
    let slow = Addition {
        time: 14401,
        ..tokened
    };
    assert_eq!(rt; board.add(slow), Err(BoardFault::Time));
    let slowest = Addition {
        time: 14400,
        ..tokened
    };
    assert_eq!(rt; board.add(slowest), Ok(5));
    Ok(())
}

#[test]
fn an_addition_is_refused_for_its_lowest_cause(rt: HostRuntime) -> Result<(), Fail> {
    let mut new = Board::new(rt.alloc())?;
    assert_eq!(rt; new.add(free(9, 9, 0)), Err(BoardFault::New));
    let mut board = opened(rt.alloc())?;
    let wrong = Addition {
        from: 0,
        to: 3,
        time: 14401,
        tokens: 8,
        days: 0,
        letter: b'X',
    };
    assert_eq!(rt; board.add(wrong), Err(BoardFault::Event));
    let wrong = Addition { to: 0, ..wrong };
    assert_eq!(rt; board.add(wrong), Err(BoardFault::Time));
    let wrong = Addition { time: 0, ..wrong };
    assert_eq!(rt; board.add(wrong), Err(BoardFault::Tokens));
    let wrong = Addition { tokens: 0, ..wrong };
    assert_eq!(rt; board.add(wrong), Err(BoardFault::Days));
    let wrong = Addition { days: 128, ..wrong };
    assert_eq!(rt; board.add(wrong), Err(BoardFault::Days));
    // the letter comes before the circuit that a token-free constraint to its own event is
    let wrong = Addition { days: 127, ..wrong };
    assert_eq!(rt; board.add(wrong), Err(BoardFault::Letter));
    Ok(())
}

#[test]
fn a_board_takes_128_constraints(rt: HostRuntime) -> Result<(), Fail> {
    let mut board = opened(rt.alloc())?;
    for number in 0..128u8 {
        assert_eq!(rt; board.add(free(0, 1, 127)), Ok(number));
    }
    // full comes before the circuit
    assert_eq!(rt; board.add(free(1, 0, 127)), Err(BoardFault::Full));
    Ok(())
}
