// The circuit whose ratio of gain to cost is largest: a loop that improves the ratio by each circuit that is better.
ghost use Rattle.std.specs.Prelude.{◌≡◌, ◌<◌, ◌≤◌, length, ◌*ℤ◌, ◌-ℤ◌, MatchResult, unsigned_abs};
ghost use Rattle.std.specs.List.{All};
ghost use Rattle.circuits.specs.Arcs.{CircuitOf, numbers_of, ArcFits};
ghost use Rattle.circuits.specs.Ratios.{OwnSums, BetterCircuit, Improved};
ghost use Rattle.circuits.specs.Searches.{SettledAgainst};
ghost use Rattle.circuits.specs.Weighed.{AreWeighed};

use crate::weighed::{WeighedArc, WeighedNet};
use crate::{Arc, ArcNet, Circuit, MOST_ARCS, MOST_EVENTS, WeighedCircuit};
use arrayvec::ArrayVec;

// The ratio of a gain to a cost, neither of them larger than a circuit's can be.
#[derive(Clone, Copy)]
pub(crate) struct Ratio {
    pub gain: i64,
    pub cost: i64,
    ghost gain_small: { unsigned_abs gain ≤ 34359738368 },
    ghost cost_small: { unsigned_abs cost ≤ 224 },
}

impl Ratio {
    // What an arc weighs against the ratio.
    fn weight(self, arc: &Arc) -> i64
        requires { ArcFits arc.now }
        ensures value { result ≡ (arc.now.gain *ℤ self.cost) -ℤ (arc.now.cost *ℤ self.gain) }
        ensures modest { unsigned_abs result ≤ 1099511627776 }
    {
        arc.gain * self.cost - arc.cost * self.gain
    }
}

impl ArcNet {
    ghost use Rattle.circuits.specs.Holding.{arcs_of};

    // The arcs that were accepted.
    fn accepted(&self) -> &[Arc]
        ensures is { result.now ≡ arcs_of self.now }
        ensures count { length result.now ≤ 128 }
        ensures small { All ArcFits result.now }
    {
        self.arcs.as_slice()
    }

    // Each arc weighed against a ratio. A loop, since `collect` may fail, and here there is always room.
    fn weighed_against(&self, ratio: Ratio) -> ArrayVec<WeighedArc, MOST_ARCS>
        ensures { AreWeighed (arcs_of self.now) ratio.gain ratio.cost (length (arcs_of self.now)) result.items }
    {
        let mut weighed = ArrayVec::new();
        for arc in self.accepted() {
            weighed.push(WeighedArc {
                arc: *arc,
                weight: ratio.weight(arc),
            });
        }
        weighed
    }

    // A circuit with what its gains and its costs add up to.
    fn with_sums(&self, circuit: Circuit) -> WeighedCircuit
        requires circuit { CircuitOf (arcs_of self.now) (numbers_of circuit) }
        requires known { All (λ a. a < length (arcs_of self.now)) (numbers_of circuit) }
        ensures own { OwnSums (arcs_of self.now) result }
        ensures same { result.circuit ≡ circuit }
    {
        let arcs = self.accepted();
        WeighedCircuit {
            gain: circuit.sum_along(|number| arcs[number].gain),
            cost: circuit.sum_along(|number| arcs[number].cost),
            circuit,
        }
    }

    // The values that no arc, weighed against a ratio, would raise, or a circuit whose ratio is above that.
    pub(crate) fn search_against(&self, ratio: Ratio) -> Result<[i64; MOST_EVENTS], WeighedCircuit>
        ensures { MatchResult result (SettledAgainst (arcs_of self.now) ratio.gain ratio.cost) (BetterCircuit (arcs_of self.now) ratio.gain ratio.cost) }
    {
        let weighed = self.weighed_against(ratio);
        let net = WeighedNet {
            events: usize::from(self.events),
            arcs: weighed.as_slice(),
        };
        net.settle().map_err(|circuit| self.with_sums(circuit))
    }

    // Of the circuits that cost something, one whose ratio of gain to cost is largest, if there is any; or one that gains for nothing.
    pub(crate) fn improve(&self) -> Result<Option<WeighedCircuit>, WeighedCircuit>
        ensures { Improved (arcs_of self.now) result }
    {
        let mut best = None;
        let mut ratio = Ratio { gain: -1, cost: 0 };
        'rising: loop {
            let Err(circuit) = self.search_against(ratio) else {
                break 'rising Ok(best);
            };
            if circuit.cost == 0 {
                break 'rising Err(circuit);
            }
            ratio = Ratio {
                gain: circuit.gain,
                cost: circuit.cost,
            };
            best = Some(circuit);
        }
    }
}
