// The search for a gaining circuit: rounds until nothing is raised, or until a circuit is found.
ghost use Rattle.std.specs.Prelude.{◌≡◌, MatchResult};
ghost use Rattle.circuits.specs.Arcs.{numbers_of};
ghost use Rattle.circuits.specs.Searches.{SettledRow};
ghost use Rattle.circuits.specs.Walks.{GainingCircuit};
ghost use Rattle.circuits.specs.Weighed.{arcs_in, weight_in};

use crate::predecessors::Predecessors;
use crate::weighed::WeighedNet;
use crate::{Circuit, MOST_EVENTS};

impl<'a> WeighedNet<'a> {
    // The values that no arc would raise, or a circuit whose weights add up to more than 0.
    pub(crate) fn settle(&self) -> Result<[i64; MOST_EVENTS], Circuit>
        ensures { MatchResult result (SettledRow (arcs_in self.now.arcs.now) (weight_in self.now.arcs.now)) (λ c. GainingCircuit (arcs_in self.now.arcs.now) (weight_in self.now.arcs.now) (numbers_of c)) }
    {
        let mut values = [0; MOST_EVENTS];
        let mut predecessors = Predecessors::none(self);
        for done in 0..self.events {
            let round = self.round(values);
            let Some(event) = round.first_raised() else {
                return Ok(values);
            };
            predecessors.note(&round, event);
            if let Some(circuit) = predecessors.circuit() {
                return Err(circuit);
            }
            values = round.new;
        }
        Err(self.walked_circuit(predecessors.last))
    }
}
