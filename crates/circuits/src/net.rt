// Making a net of arcs, and what it answers: the potentials at a price, and the circuit of the extreme ratio.
ghost use Rattle.std.specs.Prelude.{◌≡◌, false, ◌&&◌, [], ◌∷◌, ◌++◌, length, is_ok, IfErr, if◌then◌else◌, MatchOption, nat_lt};
ghost use Rattle.runs.specs.Tables.{in_range};
ghost use Rattle.circuits.specs.Arcs.{arc_in_range};
ghost use Rattle.circuits.specs.Holding.{arcs_of, IsEmptyNet};
ghost use Rattle.circuits.specs.Potentials.{weight_at, Settles};
ghost use Rattle.circuits.specs.Ratios.{Improved, AnswersFromLowest};

use crate::ratio::Ratio;
use crate::{Arc, ArcNet, LARGEST_COST, LARGEST_GAIN, MOST_EVENTS, WeighedCircuit};
use arrayvec::ArrayVec;

impl Arc {
    // Whether the arc goes between events below `events` and its numbers are in range.
    fn is_in_range(&self, events: u8) -> bool
        ensures { result ≡ arc_in_range events self.now }
    {
        (self.from < events && self.to < events)
            && ((-LARGEST_GAIN..=LARGEST_GAIN).contains(&self.gain)
                && (0..=LARGEST_COST).contains(&self.cost))
    }
}

impl ArcNet {
    // A net of 1 to 32 events without arcs; nothing for another number of events.
    pub fn new(events: u8) -> Option<ArcNet>
        ensures { MatchOption result (in_range events ≡ false) (IsEmptyNet events) }
    {
        if !(1..=MOST_EVENTS).contains(&usize::from(events)) {
            return None;
        }
        Some(ArcNet {
            events,
            arcs: ArrayVec::new(),
        })
    }

    // One arc more, under the next number. An arc that is out of range, or that would be the 129th, comes back, and the net stays as it
    // was.
    pub fn push(&mut self, arc: Arc) -> Result<(), Arc>
        ensures test { is_ok result ≡ (arc_in_range self.old.events arc && nat_lt (length (arcs_of self.old)) 128) }
        ensures back { IfErr result (λ a. a ≡ arc) }
        ensures arcs { arcs_of self.new ≡ (if is_ok result then arcs_of self.old ++ arc ∷ [] else arcs_of self.old) }
        ensures events { self.new.events ≡ self.old.events }
    {
        if !arc.is_in_range(self.events) || self.arcs.is_full() {
            return Err(arc);
        }
        self.arcs.push(arc);
        Ok(())
    }

    // The potential of each event at a price: the largest of its gains less the price of its costs over the runs that end there, or a
    // circuit whose gain exceeds the price of its cost, from its arc of the lowest number on. With n events and m arcs it takes at most
    // n rounds of m steps, and where no early circuit is found n² × m more. The array has a place for each event that a net can have, since
    // nothing is allocated.
    pub fn potentials(&self, price: u32) -> Result<[i64; MOST_EVENTS], WeighedCircuit>
        ensures { Settles self.now.events (arcs_of self.now) (weight_at (arcs_of self.now) price) result }
    {
        let ratio = Ratio {
            gain: i64::from(price),
            cost: 1,
        };
        self.search_against(ratio)
            .map_err(WeighedCircuit::turned_to_lowest)
    }

    // Of the circuits that cost something, one whose ratio of gain to cost is at least that of every other, from its arc of the lowest
    // number on; none only where no circuit costs anything. Where a circuit gains and costs nothing no ratio is the largest, and such a
    // circuit may come back in its place.
    pub fn extreme(&self) -> Result<Option<WeighedCircuit>, WeighedCircuit>
        ensures improved { Improved (arcs_of self.now) result }
        ensures lowest { AnswersFromLowest result }
    {
        self.improve()
            .map(|best| best.map(WeighedCircuit::turned_to_lowest))
            .map_err(WeighedCircuit::turned_to_lowest)
    }
}
