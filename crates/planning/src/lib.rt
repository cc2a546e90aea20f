// Planning: a session holds a board and exactly the tickets of its suspended constraints, and performs lists of calls.
#![tactic(auto)]

ghost use Rattle.std.specs.Prelude.{◌≡◌, vec_len};
ghost use Rattle.board.specs.Holding.{ledger_of};
ghost use Rattle.planning.specs.Tickets.{ByNumber, HoldsTickets};

use board::{Board, Ticket};

mod numbers;
mod performing;
mod tickets;

// Tickets by the numbers of their constraints, a place for each number that a board can give. No map: every place is reserved when a session
// is made, so that no later call can fail for want of memory.
struct HeldTickets {
    places: Vec<Option<Ticket>>,
    ghost count: { vec_len places ≡ 128 },
    ghost numbered: { ByNumber places.items },
}

// A board with the tickets of its suspended constraints: one for each, and no other. It can't be let go: closing it spends them.
pub struct Session {
    board: Board,
    tickets: HeldTickets,
    ghost held: { HoldsTickets (ledger_of board) tickets.places.items },
}
