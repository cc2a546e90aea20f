// What there is to say of a board at a glance.
ghost use Rattle.std.specs.Prelude.{Some};
ghost use Rattle.board.specs.Shown.{summary_text};

use std::fmt;

// The number of events, the period, and how many additions were accepted.
#[derive(Clone, Copy, PartialEq, Eq, Debug)]
pub struct Summary {
    pub events: u8,
    pub period: u32,
    pub constraints: usize,
}

// The three numbers, each behind its name.
impl fmt::Display for Summary {
    ghost output = { λ summary. Some (summary_text summary) };

    fn fmt<W: fmt::Write>(&self, f: &mut fmt::Formatter<W>) -> fmt::Result {
        let Summary {
            events,
            period,
            constraints,
        } = *self;
        write!(
            f,
            "events {events} period {period} constraints {constraints}"
        )
    }
}
