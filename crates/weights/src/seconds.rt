// Seconds: a whole number of seconds, or none.
ghost use Rattle.std.specs.Prelude.{◌≡◌};
ghost use Rattle.weights.specs.SecondsKind.{seconds_kind, span_of, LeastSpan};
ghost use Rattle.weights.specs.SecondsLaws.{seconds_laws, seconds_idempotent};

use crate::Weight;

// A time gained or, below 0, lost; none where there is no time.
#[derive(Clone, Copy, PartialEq, Eq, PartialOrd, Ord, Debug)]
pub struct Seconds(pub Option<i64>);

// A weight spans one for each such number of seconds begun.
const SPAN: u64 = 1_073_741_824;

impl Weight for Seconds {
    ghost kind = { seconds_kind };

    ghost meaning = { λ seconds. seconds.0 };

    ghost lawful = { seconds_laws };

    ghost idempotent = { seconds_idempotent };

    fn none() -> Seconds {
        Seconds(None)
    }

    fn start() -> Seconds {
        Seconds(Some(0))
    }

    fn choose(self, other: Seconds) -> Seconds {
        self.max(other)
    }

    fn chain(self, other: Seconds) -> Option<Seconds> {
        if self.span() + other.span() > 32 {
            return None;
        }
        Some(Seconds(self.0.zip(other.0).map(|(v, w)| v + w)))
    }

    fn same(self, other: Seconds) -> bool {
        self == other
    }

    // The least span by which the number of seconds can be held.
    fn span(self) -> u64
        ensures value { result ≡ span_of self.0 }
        ensures least { LeastSpan self.0 result }
    {
        self.0.map_or(0, |v| v.unsigned_abs().div_ceil(SPAN))
    }
}
