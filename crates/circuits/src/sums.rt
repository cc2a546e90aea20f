// What the numbers of a circuit's arcs add up to.
ghost use Rattle.std.specs.Prelude.{◌≡◌, ℕ, ℤ, ◌≤◌, length, unsigned_abs};
ghost use Rattle.std.specs.List.{All};
ghost use Rattle.circuits.specs.Arcs.{sum, numbers_of};

use crate::Circuit;

impl Circuit {
    // What a number of each arc adds up to, where no number is above 2 ^ 40 either way. A loop, since a chain's closure would need clauses of
    // its own: `number` need not take every argument.
    pub(crate) fn sum_along<F: Fn(usize) -> i64>(&self, number: F) -> i64
        requires known { All (λ a. F.pre number a) (numbers_of self.now) }
        requires small { All (λ a. (x : ℤ) → F.post number a x → unsigned_abs x ≤ 1099511627776) (numbers_of self.now) }
        ensures short { length (numbers_of self.now) ≤ 32 }
        ensures sum { (f : ℕ → ℤ) → ((a : ℕ) (x : ℤ) → F.post number a x → x ≡ f a) → result ≡ sum f (numbers_of self.now) }
    {
        let mut total = 0;
        for arc in self.numbers() {
            total += number(usize::from(*arc));
        }
        total
    }
}
