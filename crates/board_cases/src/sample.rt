// The running example, board B: three events, a period of an hour, and four constraints.
use board::Board;
use std::alloc::Global;
use std::test::Fail;
use timetable::Addition;

// The file of board B.
pub const FILE: [u8; 68] = [
    1, 0, 7, 0, 1, 3, 0, 0, 14, 16, // mark 1, 3 events, period 3,600
    2, 0, 12, 0, 0, 0, 0, 0, 0, 4, 176, 0, 0, 9, 96, // departures 0, 1,200, 2,400
    3, 0, 7, 0, 1, 4, 76, 0, 127, 82, // 0 to 1, 1,100 s, no token, R
    3, 0, 7, 1, 2, 3, 232, 0, 127, 82, // 1 to 2, 1,000 s, no token, R
    3, 0, 7, 2, 0, 4, 26, 1, 127, 76, // 2 to 0, 1,050 s, one token, L
    3, 0, 7, 1, 0, 8, 252, 1, 127, 84, // 1 to 0, 2,300 s, one token, T
    4, 0, 0,
];

// A new board, opened as board B without its constraints.
pub fn opened(heap: Global) -> Result<Board, Fail> {
    let mut board = Board::new(heap)?;
    board.open(1, 3, 3600, &[0, 1200, 2400])?;
    Ok(board)
}

// Board B.
pub fn board_b(heap: Global) -> Result<Board, Fail> {
    let mut board = Board::new(heap)?;
    board.load(&FILE)?;
    Ok(board)
}

// A token-free addition of no seconds, lettered R.
pub fn free(from: u8, to: u8, days: u8) -> Addition {
    Addition {
        from,
        to,
        time: 0,
        tokens: 0,
        days,
        letter: b'R',
    }
}
