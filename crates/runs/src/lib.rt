// Links between events, and the table of what all short runs over weighted links come to, for every kind of weight.
#![tactic(auto)]

ghost use Rattle.std.specs.Prelude.{◌≡◌};

use faults::{Layer, Report};

mod net;
mod table;

pub use table::table_of_runs;

// A link from one event to another.
#[derive(Clone, Copy, Default, PartialEq, Eq, Debug)]
pub struct Link {
    pub from: u8,
    pub to: u8,
}

// Why a table is refused.
#[derive(Clone, Copy, PartialEq, Eq, Debug)]
pub enum TableFault {
    EventCount,
    Event,
    Length,
    Span,
    Gain(usize),
}

// The fault's layer, number and place.
impl From<TableFault> for Report {
    ghost use Rattle.runs.specs.Faults.{table_report};

    ghost from_gives = { λ fault report. report ≡ table_report fault };

    fn from(fault: TableFault) -> Report {
        let (number, place) = match fault {
            TableFault::EventCount => (3, 0),
            TableFault::Event => (6, 0),
            TableFault::Length => (18, 0),
            TableFault::Span => (22, 0),
            TableFault::Gain(event) => (23, event),
        };
        Report {
            layer: Layer::Table,
            number,
            place,
        }
    }
}

#[cfg(test)]
mod tests;
