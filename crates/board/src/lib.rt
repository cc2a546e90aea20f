// The board: one periodic timetable under its invariant. The struct stands here, and what it does in the modules below.
#![tactic(auto)]

ghost use Rattle.std.specs.Prelude.{◌≡◌, ◌≤◌, true, None, vec_len, vec_capacity};
ghost use Rattle.std.specs.Option.{ForSome, ForNone};
ghost use Rattle.board.specs.Circuits.{NoFreeCircuit};
ghost use Rattle.board.specs.Invariant.{opening_in_range, all_in_range, KeptHolds};

use board_file::OpeningRecord;
use delays::Cell;
use timetable::ConstraintTable;

mod calls;
mod circuits;
mod fault;
mod ledger;
mod load;
mod summary;
mod view;

pub use fault::BoardFault;
pub use summary::Summary;

// The most events of a board, and the most recovery times between them.
const MOST_EVENTS: usize = 32;

const MOST_CELLS: usize = MOST_EVENTS * MOST_EVENTS;

// The longest period and the longest time of a constraint, in seconds.
const LONGEST_PERIOD: u32 = 86_400;

const LONGEST_TIME: u16 = 14_400;

// The most tokens of a constraint.
const MOST_TOKENS: u8 = 7;

// The mask of all seven days.
const EVERY_DAY: u8 = 127;

// A board is new until it is opened. All memory that it will ever want is reserved when it is made. The clauses `after` and `kept` stand
// at each call, since they speak of the board before and after it, and a fact of the type speaks of one moment.
#[derive(Drop)]
pub struct Board {
    opening: Option<OpeningRecord>,
    departures: Vec<u32>,
    table: ConstraintTable,
    // the day of which `kept` is the recovery table
    day: Option<u8>,
    kept: Vec<Cell>,
    ghost room: { (32 ≤ vec_capacity departures) × (128 ≤ vec_capacity table.rows) × (1024 ≤ vec_capacity kept) },
    ghost few: { vec_len table.rows ≤ 128 },
    ghost opened: { ForSome opening (λ o. opening_in_range o.events o.period departures.items ≡ true) },
    ghost ranges: { ForSome opening (λ o. all_in_range o.events table.rows.items ≡ true) },
    ghost sound: { NoFreeCircuit table.rows.items },
    ghost held: { ForSome opening (λ o. KeptHolds day departures.items o.period table.rows.items kept.items) },
    ghost blank: { ForNone opening ((vec_len table.rows ≡ 0) × (vec_len departures ≡ 0) × (day ≡ None)) },
}

// What a suspension hands out: the board's mark and the constraint's number. It can neither be copied nor let go, and only restoring or
// dismissing the constraint ends it.
pub struct Ticket {
    mark: u16,
    number: u8,
}
