// Rounds of the search: in each, every event takes the best of its value and of what its arcs bring.
ghost use Rattle.std.specs.Prelude.{◌≡◌, ℕ, ◌<◌, ◌≤◌, length, ◌≤ℤ◌, ◌<ℤ◌, ◌+ℤ◌, MatchOption, IsTrue, ◌↔◌, slice_index_or};
ghost use Rattle.std.specs.List.{All};
ghost use Rattle.circuits.specs.Rounds.{at, HoldsRound, HoldsRise, ValuesFit};
ghost use Rattle.circuits.specs.Walks.{RaisesTo};
ghost use Rattle.circuits.specs.Weighed.{arcs_in, weight_in, no_weighed_arc, GoesBelow, IsModest};

use crate::MOST_EVENTS;
use crate::weighed::{WeighedArc, WeighedNet};

// The values of the events before a round and after it. Each event of a net is below 32, so an index into an array of 32 needs no fact
// about how many values there are.
#[derive(Clone, Copy)]
pub(crate) struct Round<'a> {
    pub net: WeighedNet<'a>,
    pub old: [i64; MOST_EVENTS],
    pub new: [i64; MOST_EVENTS],
    ghost roomy: { ValuesFit old },
    ghost rises: { HoldsRise (arcs_in net.arcs.now) (weight_in net.arcs.now) old new },
}

// What an arc brings to its end: the value at its start and its weight.
fn brought(old: &[i64; MOST_EVENTS], weighed: &WeighedArc) -> i64
    requires within { GoesBelow 32 weighed.now }
    requires modest { IsModest weighed.now }
    requires roomy { ValuesFit old.now }
    ensures { result ≡ at old.now weighed.now.arc.from +ℤ weighed.now.weight }
{
    old[usize::from(weighed.arc.from)] + weighed.weight
}

impl<'a> WeighedNet<'a> {
    // The round that begins with some values.
    pub(crate) fn round(&self, old: [i64; MOST_EVENTS]) -> Round<'a>
        requires { ValuesFit old }
        ensures net { result.net ≡ self.now }
        ensures old { result.old ≡ old }
    {
        let mut new = old;
        for weighed in self.arcs {
            let end = usize::from(weighed.arc.to);
            new[end] = new[end].max(brought(&old, weighed));
        }
        Round {
            net: *self,
            old,
            new,
        }
    }

    // The values after some rounds.
    pub(crate) fn values_after(&self, rounds: usize) -> [i64; MOST_EVENTS]
        requires { rounds ≤ 32 }
        ensures { HoldsRound (arcs_in self.now.arcs.now) (weight_in self.now.arcs.now) rounds result }
    {
        let mut values = [0; MOST_EVENTS];
        for done in 0..rounds {
            values = self.round(values).new;
        }
        values
    }
}

impl<'a> Round<'a> {
    // The first event that the round raised.
    pub(crate) fn first_raised(&self) -> Option<usize>
        ensures { MatchOption result ((j : ℕ) → j < 32 → at self.now.new j ≤ℤ at self.now.old j) (λ e. (e < 32) × (at self.now.old e <ℤ at self.now.new e)) }
    {
        self.old
            .iter()
            .zip(&self.new)
            .position(|(old, new)| old < new)
    }

    // Whether the arc gave its end the value that it was raised to.
    pub(crate) fn raises(&self, weighed: &WeighedArc) -> bool
        requires within { GoesBelow 32 weighed.now }
        requires modest { IsModest weighed.now }
        ensures { IsTrue result ↔ ((at self.now.old weighed.now.arc.to <ℤ at self.now.new weighed.now.arc.to) × (at self.now.old weighed.now.arc.from +ℤ weighed.now.weight ≡ at self.now.new weighed.now.arc.to)) }
    {
        let end = usize::from(weighed.arc.to);
        self.old[end] < self.new[end] && brought(&self.old, weighed) == self.new[end]
    }

    // The first arc that gave an event the value that the round raised it to.
    pub(crate) fn raising_arc(&self, event: usize) -> Option<usize>
        ensures { MatchOption result (All (λ x. RaisesTo self.now.old self.now.new event x → ⊥) self.now.net.arcs.now) (λ a. (a < length self.now.net.arcs.now) × RaisesTo self.now.old self.now.new event (slice_index_or self.now.net.arcs.now a no_weighed_arc)) }
    {
        self.net.arcs.iter().position(|weighed| usize::from(weighed.arc.to) == event
            && self.raises(weighed))
    }
}
