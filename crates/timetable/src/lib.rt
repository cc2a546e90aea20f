// Constraints between departures: what an addition hands in, a constraint with its letter and state, the table of constraints,
// what counts on a day, and slack.
#![tactic(auto)]

ghost use Rattle.std.specs.Prelude.{◌≡◌, ◌+◌, ◌*◌, ◌^◌, ◌<◌, ◌≤◌, false, ◌&&◌, [], ◌∷◌, ◌++◌, pos, is_some, is_ok, ok_or, IfOk, IfErr, if◌then◌else◌, vec_len, vec_capacity, ◌==◌, int_lt, nat_lt};
ghost use Rattle.weights.specs.DaysKind.{days_of};
ghost use Rattle.timetable.specs.Changes.{state_after, changes_counted, with_time, moved, changed};
ghost use Rattle.timetable.specs.Words.{letter_of, byte_of, suspendable, is_live, counted, slack_of, link_of, free_days, row_at};

use runs::Link;
use std::alloc::{AllocError, Global};
use weights::Weight;
use weights::days::Days;

// A table has places for so many constraints.
pub const CAPACITY: usize = 128;

// What an addition hands in: values that may still be out of range, the letter as an ASCII byte.
#[derive(Clone, Copy, PartialEq, Eq, Debug)]
pub struct Addition {
    pub from: u8,
    pub to: u8,
    pub time: u16,
    pub tokens: u8,
    pub days: u8,
    pub letter: u8,
}

// What a constraint is for: running and dwell, layover, transfer, or headway.
#[derive(Clone, Copy, PartialEq, Eq, Debug)]
pub enum Letter {
    Running,
    Layover,
    Transfer,
    Headway,
}

// A byte that is no letter.
#[derive(Clone, Copy, PartialEq, Eq, Debug)]
pub struct UnknownLetter(pub u8);

// Whether a constraint stands, is suspended, or is withdrawn for good.
#[derive(Clone, Copy, PartialEq, Eq, Debug)]
pub enum State {
    Standing,
    Suspended,
    Withdrawn,
}

// What the ledger does to the state of a constraint.
#[derive(Clone, Copy, PartialEq, Eq, Debug)]
pub enum LedgerEvent {
    Suspend,
    Restore,
    Dismiss,
    Withdraw,
}

// A constraint: the departure of event `to` is at least `time` seconds after that of event `from`, `tokens` periods before; on
// the days of the mask.
#[derive(Clone, Copy, PartialEq, Eq, Debug)]
pub struct Constraint {
    pub from: u8,
    pub to: u8,
    pub time: u16,
    pub tokens: u8,
    pub days: u8,
    pub letter: Letter,
    pub state: State,
}

// The letter of an ASCII byte: R, L, T or H.
impl TryFrom<u8> for Letter {
    type Error = UnknownLetter;

    ghost try_from_gives = { λ byte letter. letter ≡ ok_or (letter_of byte) (record { 0 = byte }) };

    fn try_from(byte: u8) -> Result<Letter, UnknownLetter> {
        match byte {
            b'R' => Ok(Letter::Running),
            b'L' => Ok(Letter::Layover),
            b'T' => Ok(Letter::Transfer),
            b'H' => Ok(Letter::Headway),
            _ => Err(UnknownLetter(byte)),
        }
    }
}

// The ASCII byte of a letter.
impl From<Letter> for u8 {
    ghost from_gives = { λ letter byte. byte ≡ byte_of letter };

    fn from(letter: Letter) -> u8 {
        match letter {
            Letter::Running => b'R',
            Letter::Layover => b'L',
            Letter::Transfer => b'T',
            Letter::Headway => b'H',
        }
    }
}

impl Letter {
    // Whether a constraint of the letter may be suspended.
    pub fn is_suspendable(self) -> bool
        ensures { result ≡ suspendable self }
    {
        matches!(self, Letter::Transfer | Letter::Headway)
    }
}

impl State {
    // The state after an event, where the event is due in the state.
    pub fn after(self, event: LedgerEvent) -> Option<State>
        ensures { result ≡ state_after self event }
    {
        match (self, event) {
            (State::Standing, LedgerEvent::Suspend) => Some(State::Suspended),
            (State::Standing, LedgerEvent::Withdraw) => Some(State::Withdrawn),
            (State::Suspended, LedgerEvent::Restore) => Some(State::Standing),
            (State::Suspended, LedgerEvent::Dismiss) => Some(State::Withdrawn),
            _ => None,
        }
    }
}

impl LedgerEvent {
    // Whether the event can change what counts on some day: a dismissal cannot, since neither a suspended nor a withdrawn constraint counts.
    pub fn changes_counted(self) -> bool
        ensures { result ≡ changes_counted self }
    {
        self != LedgerEvent::Dismiss
    }
}

impl Constraint {
    // Whether the constraint stands or is suspended.
    pub fn is_live(&self) -> bool
        ensures { result ≡ is_live self.now }
    {
        self.state != State::Withdrawn
    }

    // Whether the constraint counts on a day, 0 for Monday to 6 for Sunday: it stands, and its mask has the day. The day stays a
    // number, since a caller may ask for any, and on one above 6 nothing counts.
    pub fn counts_on(&self, day: u8) -> bool
        ensures { result ≡ counted day self.now }
    {
        self.state == State::Standing && day < 7 && (self.days >> day) % 2 == 1
    }

    // The slack, in seconds, where event `from` departs at `first` and event `to` at `second`, in a timetable of the period.
    // It may be negative. The three numbers stay plain: a struct for them would be made for one call and taken apart in it.
    pub fn slack(&self, first: u32, second: u32, period: u32) -> i64
        ensures { result ≡ slack_of first second period self.now }
    {
        let latest = i64::from(second) + i64::from(self.tokens) * i64::from(period);
        let earliest = i64::from(first) + i64::from(self.time);
        latest - earliest
    }

    // Whether the constraint is broken: its slack is negative.
    pub fn is_broken(&self, first: u32, second: u32, period: u32) -> bool
        ensures { result ≡ int_lt (slack_of first second period self.now) (pos 0) }
    {
        self.slack(first, second, period) < 0
    }

    // The link that the constraint is between its events.
    pub fn link(&self) -> Link
        ensures { result ≡ link_of self.now }
    {
        Link {
            from: self.from,
            to: self.to,
        }
    }

    // The days of the mask, where the constraint stands or is suspended and has no token; else none.
    #[tactic(auto, using(crate::proofs::Free::free_on_all, crate::proofs::Free::free_on_none))]
    pub fn free_days(&self) -> Days
        ensures { days_of result.mask ≡ free_days self.now }
    {
        if self.is_free() {
            days_of(self.days)
        } else {
            no_days()
        }
    }

    // Gives the constraint another time.
    pub fn retime(&mut self, time: u16)
        ensures { self.new ≡ with_time self.old time }
    {
        self.time = time;
    }

    // Changes the state by an event and answers yes; where the event is not due in the state, nothing changes and the answer is no.
    pub fn change(&mut self, event: LedgerEvent) -> bool
        ensures due { result ≡ is_some (state_after self.old.state event) }
        ensures after { self.new ≡ moved event self.old }
    {
        let Some(state) = self.state.after(event) else {
            return false;
        };
        self.state = state;
        true
    }

    // Whether the constraint stands or is suspended and has no token.
    fn is_free(&self) -> bool
        ensures { result ≡ (is_live self.now && self.now.tokens == 0) }
    {
        self.is_live() && self.tokens == 0
    }
}

// No day.
fn no_days() -> Days
    ensures { days_of result.mask ≡ (λ d. false) }
{
    Days::none()
}

// The weekdays of a byte: its eighth bit stands for none.
fn days_of(mask: u8) -> Days
    ensures { days_of result.mask ≡ days_of mask }
{
    Days::try_from(mask % 128).unwrap()
}

// The constraints of a board by their numbers, with places reserved for all that it can have. That no call takes places away is a
// clause of each, since it speaks of the table before and after, and a fact of the type speaks of one moment; nor is it a fact of the
// type that there are 128 places, since that would ask more of who writes the open field, and each clause would stand as before.
#[derive(Drop)]
pub struct ConstraintTable {
    pub rows: Vec<Constraint>,
}

impl ConstraintTable {
    // An empty table, with its places.
    pub fn new(heap: Global) -> Result<ConstraintTable, AllocError>
        ensures { IfOk result (λ t. (t.rows.items ≡ []) × (vec_len t.rows ≡ 0) × (128 ≤ vec_capacity t.rows)) }
    {
        Ok(ConstraintTable {
            rows: Vec::with_capacity(heap, CAPACITY)?,
        })
    }

    // One constraint more, under the next number; where no place is left, it comes back and the table stays as it was.
    pub fn push(&mut self, constraint: Constraint) -> Result<(), Constraint>
        ensures test { is_ok result ≡ nat_lt (vec_len self.old.rows) (vec_capacity self.old.rows) }
        ensures back { IfErr result (λ c. c ≡ constraint) }
        ensures rows { self.new.rows.items ≡ (if is_ok result then self.old.rows.items ++ constraint ∷ [] else self.old.rows.items) }
        ensures capacity { vec_capacity self.new.rows ≡ vec_capacity self.old.rows }
    {
        if self.rows.len() >= self.rows.capacity() {
            return Err(constraint);
        }
        self.rows.push_reserved(constraint);
        Ok(())
    }

    // Gives the constraint of a number another time, and answers whether there is one. It shares three lines with the change below: a
    // function of both that takes the step as a closure would need more clauses than it spares.
    #[tactic(auto, using(crate::proofs::Changed::changed_set, crate::proofs::Changed::changed_past))]
    pub fn retime(&mut self, number: usize, time: u16) -> bool
        ensures given { result ≡ nat_lt number (vec_len self.old.rows) }
        ensures rows { self.new.rows.items ≡ changed (λ c. with_time c time) self.old.rows.items number }
        ensures capacity { vec_capacity self.new.rows ≡ vec_capacity self.old.rows }
    {
        let Some(constraint) = self.rows.get_mut(number) else {
            return false;
        };
        constraint.retime(time);
        true
    }

    // Changes the state of the constraint of a number by an event and answers yes; where there is none, or the event is not due in its
    // state, nothing changes and the answer is no.
    #[tactic(auto, using(crate::proofs::Changed::changed_set, crate::proofs::Changed::changed_past))]
    pub fn change(&mut self, number: usize, event: LedgerEvent) -> bool
        ensures due { result ≡ is_some (state_after (row_at self.old.rows.items number).state event) }
        ensures rows { self.new.rows.items ≡ changed (moved event) self.old.rows.items number }
        ensures capacity { vec_capacity self.new.rows ≡ vec_capacity self.old.rows }
    {
        let Some(row) = self.rows.get_mut(number) else {
            return false;
        };
        row.change(event)
    }
}
