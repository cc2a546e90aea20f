// What a kind of weight is, by an interface, and two kinds: sets of weekdays, and seconds.
#![tactic(auto)]

ghost use Rattle.std.specs.Prelude.{◌≡◌};
ghost use Rattle.weights.specs.Kinds.{Kind, Laws, Idempotent, Chained};

pub mod days;
pub mod seconds;

// A kind of weight. `kind` is what its operations mean, `meaning` what a weight stands for, and the laws are those that
// the table of runs rests on. No function refuses, but for `chain`.
pub trait Weight: Copy {
    ghost kind: { Kind };

    ghost meaning: { Self → kind.carrier };

    // The weight where there is no run.
    fn none() -> Self
        ensures { meaning result ≡ kind.none };

    // The weight of the empty run.
    fn start() -> Self
        ensures { meaning result ≡ kind.start };

    // The choice between two weights.
    fn choose(self, other: Self) -> Self
        ensures { meaning result ≡ kind.choice (meaning self) (meaning other) };

    // The chaining of two weights, this one first; nothing exactly when their spans add to more than 32.
    fn chain(self, other: Self) -> Option<Self>
        ensures { Chained kind meaning self other result };

    // Whether two weights mean the same.
    fn same(self, other: Self) -> bool
        ensures { result ≡ kind.equal (meaning self) (meaning other) };

    // How far the weight spans.
    fn span(self) -> u64
        ensures { result ≡ kind.span (meaning self) };

    ghost lawful: { Laws kind };

    ghost idempotent: { Idempotent kind };
}
