// The speed of the search: after each round a circuit among the latest predecessors is taken, if its weights add up to more than 0.
ghost use Rattle.std.specs.Prelude.{◌≡◌, ◌<◌, length, IfSome};
ghost use Rattle.std.proofs.Props.{props};
ghost use Rattle.circuits.specs.Arcs.{numbers_of};
ghost use Rattle.circuits.specs.Walks.{IsChain, ArePredecessors, GainingCircuit};
ghost use Rattle.circuits.specs.Weighed.{arcs_in, weight_in};

use crate::rounds::Round;
use crate::weighed::WeighedNet;
use crate::{Circuit, MOST_EVENTS};
use arrayvec::ArrayVec;

// For each event the latest arc that raised it, if any did, and the event where the way back begins.
#[derive(Drop)]
pub(crate) struct Predecessors<'a> {
    pub net: WeighedNet<'a>,
    pub latest: [Option<usize>; MOST_EVENTS],
    pub last: usize,
    ghost event: { last < 32 },
    ghost known: { ArePredecessors (arcs_in net.arcs.now) latest } by { Prim.hlevel props },
}

impl<'a> Predecessors<'a> {
    // No predecessors yet.
    pub(crate) fn none(net: &WeighedNet<'a>) -> Predecessors<'a>
        ensures { result.net ≡ net.now }
    {
        Predecessors {
            net: *net,
            latest: [None; MOST_EVENTS],
            last: 0,
        }
    }

    // Notes, for each event that a round raised, an arc that raised it, and one of those events.
    pub(crate) fn note(&mut self, round: &Round<'a>, raised: usize)
        requires net { round.now.net ≡ self.old.net }
        requires event { raised < 32 }
        ensures net { self.new.net ≡ self.old.net }
        ensures last { self.new.last ≡ raised }
    {
        self.last = raised;
        for (number, weighed) in round.net.arcs.iter().enumerate() {
            if round.raises(weighed) {
                self.latest[usize::from(weighed.arc.to)] = Some(number);
            }
        }
    }

    // The arcs back from the event raised last, as many as there are events, if there are so many.
    fn path(&self) -> Option<ArrayVec<usize, MOST_EVENTS>>
        ensures { IfSome result (λ path. (length path.items ≡ self.now.net.events) × IsChain (arcs_in self.now.net.arcs.now) path.items) }
    {
        let mut path = ArrayVec::new();
        let mut event = self.last;
        for walked in 0..self.net.events {
            let arc = self.latest[event]?;
            path.push(arc);
            event = usize::from(self.net.arcs[arc].arc.from);
        }
        path.reverse();
        Some(path)
    }

    // A circuit on the way back, if it gains.
    pub(crate) fn circuit(&self) -> Option<Circuit>
        ensures { IfSome result (λ c. GainingCircuit (arcs_in self.now.net.arcs.now) (weight_in self.now.net.arcs.now) (numbers_of c)) }
    {
        let path = self.path()?;
        let circuit = self.net.first_circuit(path.as_slice());
        let weight = circuit.sum_along(|number| self.net.arcs[number].weight);
        (weight > 0).then_some(circuit)
    }
}
