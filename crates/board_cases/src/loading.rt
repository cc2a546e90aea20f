// Board files, one for each number that loading can answer.
use crate::sample::{FILE, board_b};
use board::{Board, Summary};
use faults::{Layer, Report};
use std::alloc::Global;
use std::process::Abort;
use std::test::Fail;

// What loading a file into a new board reports; the board is then still new.
fn refused(rt: &impl Abort, heap: Global, bytes: &[u8]) -> Result<Report, Fail> {
    let mut board = Board::new(heap)?;
    let Err(fault) = board.load(bytes) else {
        return Err(Fail::new("the file was loaded"));
    };
    assert_eq!(rt; board.summary(), None);
    Ok(Report::from(fault))
}

fn report(layer: Layer, number: u8, place: usize) -> Report {
    Report {
        layer,
        number,
        place,
    }
}

// Board B's file with one byte replaced.
fn changed(place: usize, byte: u8) -> [u8; 68] {
    let mut file = FILE;
    if place < 68 {
        file[place] = byte;
    }
    file
}

#[test]
fn the_file_of_board_b_is_loaded(rt: HostRuntime) -> Result<(), Fail> {
    let board = board_b(rt.alloc())?;
    assert_eq!(rt;
        board.summary(),
        Some(Summary {
            events: 3,
            period: 3600,
            constraints: 4,
        })
    );
    Ok(())
}

#[test]
fn an_opened_board_is_not_loaded(rt: HostRuntime) -> Result<(), Fail> {
    let mut board = board_b(rt.alloc())?;
    let Err(fault) = board.load(&[9]) else {
        return Err(Fail::new("loaded twice"));
    };
    assert_eq!(rt; Report::from(fault), report(Layer::Board, 2, 0));
    Ok(())
}

#[test]
fn frames_are_refused(rt: HostRuntime) -> Result<(), Fail> {
    // cut in its last field, before its first, and between two fields
    assert_eq!(rt;
        refused(&rt, rt.alloc(), &FILE[0..67])?,
        report(Layer::Frame, 24, 65)
    );
    assert_eq!(rt; refused(&rt, rt.alloc(), &[])?, report(Layer::Frame, 24, 0));
    assert_eq!(rt;
        refused(&rt, rt.alloc(), &FILE[0..25])?,
        report(Layer::Frame, 24, 25)
    );
    // a wrong tag whose body runs past the end
    assert_eq!(rt;
        refused(&rt, rt.alloc(), &[9, 0, 1])?,
        report(Layer::Frame, 24, 0)
    );
    // a byte behind the end
    let mut longer = [0u8; 69];
    longer[0..68].copy_from_slice(&FILE);
    assert_eq!(rt;
        refused(&rt, rt.alloc(), &longer)?,
        report(Layer::Frame, 27, 68)
    );
    Ok(())
}

#[test]
fn records_are_refused(rt: HostRuntime) -> Result<(), Fail> {
    // departures first, constraints before departures, a second opening, a tag that there is not
    assert_eq!(rt;
        refused(&rt, rt.alloc(), &FILE[10..68])?,
        report(Layer::Record, 25, 0)
    );
    assert_eq!(rt;
        refused(&rt, rt.alloc(), &changed(10, 3))?,
        report(Layer::Record, 25, 10)
    );
    assert_eq!(rt;
        refused(&rt, rt.alloc(), &changed(25, 1))?,
        report(Layer::Record, 25, 25)
    );
    assert_eq!(rt;
        refused(&rt, rt.alloc(), &changed(65, 5))?,
        report(Layer::Record, 25, 65)
    );
    // an opening of six bytes; a departure list for three events where there are four
    assert_eq!(rt;
        refused(&rt, rt.alloc(), &[1, 0, 6, 0, 1, 3, 0, 0, 14])?,
        report(Layer::Record, 26, 0)
    );
    assert_eq!(rt;
        refused(&rt, rt.alloc(), &changed(5, 4))?,
        report(Layer::Record, 26, 10)
    );
    Ok(())
}

#[test]
fn the_boards_faults_lie_at_their_tags(rt: HostRuntime) -> Result<(), Fail> {
    // 33 events, judged before the departures; a period of 0
    assert_eq!(rt;
        refused(&rt, rt.alloc(), &changed(5, 33))?,
        report(Layer::Board, 3, 0)
    );
    assert_eq!(rt;
        refused(&rt, rt.alloc(), &[1, 0, 7, 0, 1, 3, 0, 0, 0, 0])?,
        report(Layer::Board, 4, 0)
    );
    // the first departure at 16,777,216
    assert_eq!(rt;
        refused(&rt, rt.alloc(), &changed(13, 1))?,
        report(Layer::Board, 5, 10)
    );
    // event 3, 19,482 seconds, 8 tokens, no day, letter X, each in the third constraint
    assert_eq!(rt;
        refused(&rt, rt.alloc(), &changed(49, 3))?,
        report(Layer::Board, 6, 45)
    );
    assert_eq!(rt;
        refused(&rt, rt.alloc(), &changed(50, 76))?,
        report(Layer::Board, 7, 45)
    );
    assert_eq!(rt;
        refused(&rt, rt.alloc(), &changed(52, 8))?,
        report(Layer::Board, 8, 45)
    );
    assert_eq!(rt;
        refused(&rt, rt.alloc(), &changed(53, 0))?,
        report(Layer::Board, 9, 45)
    );
    assert_eq!(rt;
        refused(&rt, rt.alloc(), &changed(54, 88))?,
        report(Layer::Board, 10, 45)
    );
    // the third constraint without its token closes a circuit
    assert_eq!(rt;
        refused(&rt, rt.alloc(), &changed(52, 0))?,
        report(Layer::Board, 12, 45)
    );
    Ok(())
}

#[test]
fn the_129th_constraint_is_refused(rt: HostRuntime) -> Result<(), Fail> {
    // board B's opening and departures, its first constraint 129 times, and the end
    let mut file = Vec::new(rt.alloc());
    file.extend_from_slice(&FILE[0..25])?;
    for _ in 0..129 {
        file.extend_from_slice(&FILE[25..35])?;
    }
    file.extend_from_slice(&FILE[65..68])?;
    assert_eq!(rt;
        refused(&rt, rt.alloc(), file.as_slice())?,
        report(Layer::Board, 11, 1305)
    );
    Ok(())
}
