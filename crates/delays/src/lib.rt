// Delays: recovery times between departures.
#![tactic(auto)]

ghost use Rattle.std.specs.Prelude.{◌≡◌};
ghost use Rattle.delays.specs.Cells.{empty_cell, told};

// A recovery time in seconds, or none where there is no run.
#[derive(Clone, Copy, PartialEq, Eq, Debug)]
pub struct Cell {
    recovery: Option<u32>,
}

impl Cell {
    // The cell that says none.
    pub fn none() -> Cell
        ensures { result ≡ empty_cell }
    {
        Cell { recovery: None }
    }

    // What the cell says.
    pub fn recovery(self) -> Option<u32>
        ensures { result ≡ told self }
    {
        self.recovery
    }
}
