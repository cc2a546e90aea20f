// The guarantee of the search: once the last round has raised an event, the arcs that raised one another hold a circuit that gains.
ghost use Rattle.std.specs.Prelude.{◌≡◌, ℕ, ◌<◌, ◌≤◌, length, MatchOption, ◌≢◌};
ghost use Rattle.std.specs.List.{All};
ghost use Rattle.circuits.specs.Arcs.{start_of, numbers_of};
ghost use Rattle.circuits.specs.Walks.{nth, IsChain, WalksBack, IsRaised, OpenUpTo, FirstCircuit, GainingCircuit};
ghost use Rattle.circuits.specs.Weighed.{arcs_in, weight_in};

use crate::weighed::WeighedNet;
use crate::{Circuit, MOST_EVENTS};
use arrayvec::ArrayVec;

// The circuit of some numbers of arcs. No `From`, since there are numbers that no `u8` holds, and a loop with an index, since of a loop over a
// zip of what is written nothing is known.
fn circuit_of(numbers: &[usize]) -> Circuit
    requires short { length numbers.now ≤ 32 }
    requires small { All (λ a. a < 256) numbers.now }
    ensures { numbers_of result ≡ numbers.now }
{
    let mut arcs = [0; MOST_EVENTS];
    for (place, number) in numbers.iter().enumerate() {
        arcs[place] = u8::try_from(*number).unwrap();
    }
    Circuit {
        arcs,
        len: numbers.len(),
    }
}

impl<'a> WeighedNet<'a> {
    // The arcs that raised one another, from the start on, up to the one that raised `last` in the last round. Not one function with
    // `Predecessors::path`: here each arc needs the number of its round and is there, and there none is needed and one may be missing.
    fn walk_back(&self, last: usize) -> ArrayVec<usize, MOST_EVENTS>
        requires event { last < 32 }
        requires raised { IsRaised (arcs_in self.now.arcs.now) (weight_in self.now.arcs.now) self.now.events last }
        ensures len { length result.items ≡ self.now.events }
        ensures walk { WalksBack (arcs_in self.now.arcs.now) (weight_in self.now.arcs.now) 0 result.items }
    {
        let mut path = ArrayVec::new();
        let mut event = last;
        for rounds in (0..self.events).rev() {
            let round = self.round(self.values_after(rounds));
            let arc = round.raising_arc(event).unwrap();
            path.push(arc);
            event = usize::from(self.arcs[arc].arc.from);
        }
        path.reverse();
        path
    }

    // The first arc of a path that begins at an event.
    fn meeting_arc(&self, path: &[usize], event: u8) -> Option<usize>
        requires { All (λ a. a < length self.now.arcs.now) path.now }
        ensures { MatchOption result ((s : ℕ) → s < length path.now → start_of (arcs_in self.now.arcs.now) (nth path.now s) ≢ event) (λ s. (s < length path.now) × (start_of (arcs_in self.now.arcs.now) (nth path.now s) ≡ event)) }
    {
        path.iter()
            .position(|number| self.arcs[*number].arc.from == event)
    }

    // The first circuit in a path: it ends at the first arc whose end was met before.
    pub(crate) fn first_circuit(&self, path: &[usize]) -> Circuit
        requires whole { length path.now ≡ self.now.events }
        requires chain { IsChain (arcs_in self.now.arcs.now) path.now }
        ensures { FirstCircuit (arcs_in self.now.arcs.now) path.now (numbers_of result) }
    {
        for (last, number) in path.iter().enumerate() {
            if let Some(first) = self.meeting_arc(&path[..=last], self.arcs[*number].arc.to) {
                return circuit_of(&path[first..=last]);
            }
        }
        unreachable()
    }

    // A circuit that gains, once the last round has raised `last`.
    pub(crate) fn walked_circuit(&self, last: usize) -> Circuit
        requires event { last < 32 }
        requires raised { IsRaised (arcs_in self.now.arcs.now) (weight_in self.now.arcs.now) self.now.events last }
        ensures { GainingCircuit (arcs_in self.now.arcs.now) (weight_in self.now.arcs.now) (numbers_of result) }
    {
        let path = self.walk_back(last);
        self.first_circuit(path.as_slice())
    }
}
