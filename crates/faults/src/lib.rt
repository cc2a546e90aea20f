// What a refusal reports: its layer, its number and its place.
#![tactic(auto)]

ghost use Rattle.std.specs.Prelude.{Some};
ghost use Rattle.faults.specs.Shown.{layer_name, report_text};

use std::fmt;

// The layer of the board that refuses.
#[derive(Clone, Copy, PartialEq, Eq, Debug)]
pub enum Layer {
    Frame,
    Record,
    Board,
    Table,
}

// A refusal: its layer, its number among the faults, and its place.
#[derive(Clone, Copy, PartialEq, Eq, Debug)]
pub struct Report {
    pub layer: Layer,
    pub number: u8,
    pub place: usize,
}

impl fmt::Display for Layer {
    ghost output = { λ layer. Some (layer_name layer) };

    fn fmt<W: fmt::Write>(&self, f: &mut fmt::Formatter<W>) -> fmt::Result {
        let name = match self {
            Layer::Frame => "frame",
            Layer::Record => "record",
            Layer::Board => "board",
            Layer::Table => "table",
        };
        f.write_str(name)
    }
}

impl fmt::Display for Report {
    ghost output = { λ report. Some (report_text report) };

    fn fmt<W: fmt::Write>(&self, f: &mut fmt::Formatter<W>) -> fmt::Result {
        let Report {
            layer,
            number,
            place,
        } = *self;
        write!(f, "{layer} {number} {place}")
    }
}
