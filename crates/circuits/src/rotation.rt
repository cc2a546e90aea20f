// A circuit turned so that it begins at its arc of the lowest number.
ghost use Rattle.std.specs.Prelude.{◌≡◌, ◌<◌, ◌≤◌, length, [], MatchOption};
ghost use Rattle.std.specs.List.{All};
ghost use Rattle.circuits.specs.Turns.{TurnsToLowest, ShownTurned};
ghost use Rattle.circuits.specs.Walks.{nth};

use crate::{Circuit, WeighedCircuit};

// The place of the lowest number, if there is any.
fn lowest_place(numbers: &[u8]) -> Option<usize>
    ensures { MatchOption result (numbers.now ≡ []) (λ place. (place < length numbers.now) × All (λ b. nth numbers.now place ≤ b) numbers.now) }
{
    let lowest = numbers.iter().min()?;
    numbers.iter().position(|number| number == lowest)
}

impl Circuit {
    // The circuit from its arc of the lowest number on.
    pub(crate) fn turned_to_lowest(self) -> Circuit
        ensures { TurnsToLowest self result }
    {
        let Some(place) = lowest_place(self.numbers()) else {
            return self;
        };
        let mut arcs = self.arcs;
        arcs[..self.len].rotate_left(place);
        Circuit {
            arcs,
            len: self.len,
        }
    }
}

impl WeighedCircuit {
    // The circuit with its sums, from its arc of the lowest number on.
    pub(crate) fn turned_to_lowest(self) -> WeighedCircuit
        ensures { ShownTurned self result }
    {
        WeighedCircuit {
            circuit: self.circuit.turned_to_lowest(),
            ..self
        }
    }
}
