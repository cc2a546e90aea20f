// What a board lends to the questions above it.
ghost use Rattle.board.specs.Holding.{ledger_of};
ghost use Rattle.board.specs.Lending.{LendsRows};

use crate::Board;
use timetable::Constraint;

impl Board {
    // The constraints of the board by their numbers, whatever their state; a new board has none.
    pub fn constraints(&self) -> &[Constraint]
        ensures { LendsRows (ledger_of self.now) result.now }
    {
        self.table.rows.as_slice()
    }
}
