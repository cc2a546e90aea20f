// A circuit, by the numbers of its arcs.
ghost use Rattle.std.specs.Prelude.{◌≤◌};

use crate::MOST_EVENTS;

// A circuit of at most 32 arcs, by their numbers: of `arcs` the first `len` count. It is an array with its length, and no `ArrayVec`, since
// a circuit is copied.
#[derive(Clone, Copy, Debug)]
pub struct Circuit {
    pub arcs: [u8; MOST_EVENTS],
    pub len: usize,
    ghost short: { len ≤ 32 },
}

impl Circuit {
    ghost use Rattle.std.specs.Prelude.{◌≡◌};
    ghost use Rattle.circuits.specs.Arcs.{numbers_of};

    // The numbers of the arcs, in order.
    pub fn numbers(&self) -> &[u8]
        ensures { result.now ≡ numbers_of self.now }
    {
        &self.arcs[..self.len]
    }
}

// Circuits are equal where their numbers are. It is not derived, since what stands behind the first `len` does not count.
impl PartialEq for Circuit {
    ghost use Rattle.std.specs.Prelude.{◌==◌};
    ghost use Rattle.std.specs.Cmp.Lexicographic.{pointwise};
    ghost use Rattle.std.specs.Cmp.Rules.{comparing};
    ghost use Rattle.std.specs.Ordering.{on};
    ghost use Rattle.std.proofs.Common.{rules};
    ghost use Rattle.circuits.specs.Arcs.{numbers_of};

    ghost eq = { on numbers_of (pointwise ◌==◌) };

    ghost laws = { Prim.search (comparing, rules) };

    fn eq(&self, other: &Circuit) -> bool {
        self.numbers() == other.numbers()
    }
}
