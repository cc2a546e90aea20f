// Days: sets of weekdays.
ghost use Rattle.std.specs.Prelude.{◌≡◌, ◌<◌, ◌≤◌, ◌&&◌, MatchResult};
ghost use Rattle.weights.specs.DaysKind.{days_of, some_weekday, days_kind};
ghost use Rattle.weights.specs.DaysLaws.{days_laws, days_idempotent};

use crate::Weight;

// A set of weekdays as a mask: bit 0 is Monday, bit 6 is Sunday.
#[derive(Clone, Copy, PartialEq, Eq, Debug)]
pub struct Days {
    mask: u8,
    ghost within: { mask < 128 },
}

// A mask with an eighth bit: it stands for no set of weekdays.
#[derive(Clone, Copy, PartialEq, Eq, Debug)]
pub struct NotWeekdays(pub u8);

// No day. (A derive does not see that the ghost field holds.)
impl Default for Days {
    ghost is_default = { λ days. days_of days.mask ≡ days_kind.none };

    fn default() -> Days {
        Days::none()
    }
}

impl TryFrom<u8> for Days {
    type Error = NotWeekdays;

    ghost try_from_gives = { λ mask result. MatchResult result (λ days. (mask < 128) × (days.mask ≡ mask)) (λ e. (128 ≤ mask) × (e.0 ≡ mask)) };

    fn try_from(mask: u8) -> Result<Days, NotWeekdays> {
        if mask < 128 {
            Ok(Days { mask })
        } else {
            Err(NotWeekdays(mask))
        }
    }
}

impl Days {
    // The mask of the days.
    pub fn mask(self) -> u8
        ensures { result ≡ self.mask }
    {
        self.mask
    }

    // Whether two sets of days have a day in common.
    #[tactic(auto, using(crate::proofs::Masks::mask_meets))]
    pub fn meets(self, other: Days) -> bool
        ensures { result ≡ some_weekday (λ d. days_of self.mask d && days_of other.mask d) }
    {
        (self.mask & other.mask) != 0
    }
}

impl Weight for Days {
    ghost kind = { days_kind };

    ghost meaning = { λ days. days_of days.mask };

    ghost lawful = { days_laws };

    ghost idempotent = { days_idempotent };

    fn none() -> Days {
        Days { mask: 0 }
    }

    fn start() -> Days {
        Days { mask: 127 }
    }

    fn choose(self, other: Days) -> Days {
        Days {
            mask: self.mask | other.mask,
        }
    }

    fn chain(self, other: Days) -> Option<Days> {
        Some(Days {
            mask: self.mask & other.mask,
        })
    }

    #[tactic(auto, using(crate::proofs::Masks::mask_equal))]
    fn same(self, other: Days) -> bool {
        self == other
    }

    fn span(self) -> u64 {
        0
    }
}
