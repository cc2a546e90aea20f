// The board's faults.
ghost use Rattle.std.specs.Prelude.{◌≡◌, ◌==◌};
ghost use Rattle.std.specs.Cmp.Rules.{comparing};
ghost use Rattle.std.proofs.Common.{rules};
ghost use Rattle.board.specs.Faults.{board_report};

use faults::{Layer, Report};

// Why a board refuses a call, with the number of the fault.
#[derive(Clone, Copy, Eq, Debug)]
pub enum BoardFault {
    // another call than opening or loading, on a new board
    New = 1,
    // opening or loading an opened board
    Opened = 2,
    // the number of events is not 1 to 32
    EventCount = 3,
    // the period is not 1 to 86,400
    Period = 4,
    // a departure is not below the period
    Departure = 5,
    // an event is not below the number of events
    Event = 6,
    // the time is above 14,400
    Time = 7,
    // there are more than 7 tokens
    Tokens = 8,
    // the days mask is not 1 to 127
    Days = 9,
    // the letter is not R, L, T or H
    Letter = 10,
    // 128 additions were accepted
    Full = 11,
    // the addition would close a token-free circuit
    Circuit = 12,
    // a number that was never given to a constraint
    Number = 13,
    // the constraint of the number does not stand
    NotStanding = 14,
    // suspending a constraint of letter R or L
    NotSuspendable = 15,
    // a ticket of another mark, or of a number that is not suspended
    Ticket = 16,
    // a list has the wrong length
    Length = 18,
}

// Two faults are equal exactly when their numbers are. It is not derived, so that the promise speaks of the numbers, and a mistake in it has a place.
impl PartialEq for BoardFault {
    ghost eq = { λ x y. ((board_report x).number == (board_report y).number) };

    ghost laws = { Prim.search (comparing, rules) };

    fn eq(&self, other: &BoardFault) -> bool {
        *self as u8 == *other as u8
    }
}

// The fault's layer, number and place.
impl From<BoardFault> for Report {
    ghost from_gives = { λ fault report. report ≡ board_report fault };

    fn from(fault: BoardFault) -> Report {
        Report {
            layer: Layer::Board,
            // the case's own number, for which std has no From
            number: fault as u8,
            place: 0,
        }
    }
}
