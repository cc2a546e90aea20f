// Gaining circuits, potentials, and the circuit of the extreme ratio, of a small net of arcs with a gain and a cost each.
#![tactic(auto)]

ghost use Rattle.std.specs.Prelude.{◌≡◌, ◌≤◌, true, length};
ghost use Rattle.runs.specs.Tables.{in_range, every};
ghost use Rattle.circuits.specs.Arcs.{arc_in_range};

use arrayvec::ArrayVec;

mod net;
mod numbers;
mod predecessors;
mod ratio;
mod rotation;
mod rounds;
mod search;
mod sums;
mod walk;
mod weighed;

pub use numbers::Circuit;

// The most events of a net, and so the most arcs of a circuit.
const MOST_EVENTS: usize = 32;

// The most arcs of a net.
const MOST_ARCS: usize = 128;

// The largest gain of an arc, either way.
const LARGEST_GAIN: i64 = 1_073_741_824;

// The largest cost of an arc.
const LARGEST_COST: i64 = 7;

// An arc between two events, with what it gains and what it costs.
#[derive(Clone, Copy, Default, PartialEq, Debug)]
pub struct Arc {
    pub from: u8,
    pub to: u8,
    pub gain: i64,
    pub cost: i64,
}

// A circuit with what its gains and its costs add up to.
#[derive(Clone, Copy, PartialEq, Debug)]
pub struct WeighedCircuit {
    pub gain: i64,
    pub cost: i64,
    pub circuit: Circuit,
}

// A net of 1 to 32 events and at most 128 arcs. It allocates nothing. An arc goes by its number, the count of arcs accepted before it;
// its gain is at most 1,073,741,824 either way, and its cost is 0 to 7.
#[derive(Drop)]
pub struct ArcNet {
    events: u8,
    arcs: ArrayVec<Arc, MOST_ARCS>,
    ghost size: { in_range events ≡ true },
    ghost few: { length arcs.items ≤ 128 },
    ghost ranges: { every (arc_in_range events) arcs.items ≡ true },
}
