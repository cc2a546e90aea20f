// Making, opening and filling a board.
ghost use Rattle.std.specs.Prelude.{◌≡◌, IfOk, None, MatchResult};
ghost use Rattle.faults.specs.Causes.{fault_of};
ghost use Rattle.board.specs.declared.fault.BoardFault.TheVariants.{New as NewFault};
ghost use Rattle.board.specs.Invariant.{departures_below};
ghost use Rattle.board.specs.Ledger.{nothing, head_fault, open_fault, open_after, early_add_fault, constraint_of, add_fault, add_after, next_number, CircuitLaw, summary_of, kept_after};
ghost use Rattle.board.specs.Holding.{ledger_of, kept_day};

use crate::circuits::closes_circuit;
use crate::{
    Board, BoardFault, EVERY_DAY, LONGEST_PERIOD, LONGEST_TIME, MOST_CELLS, MOST_EVENTS,
    MOST_TOKENS, Summary,
};
use board_file::OpeningRecord;
use std::alloc::{AllocError, Global};
use timetable::{Addition, CAPACITY, Constraint, ConstraintTable, Letter, State};

// Whether each departure is below the period.
fn departures_below(period: u32, departures: &[u32]) -> bool
    ensures { result ≡ departures_below period departures.now }
{
    departures.iter().all(|departure| *departure < period)
}

// Refuses a number of events or a period that is out of range.
pub(crate) fn check_head(events: u8, period: u32) -> Result<(), BoardFault>
    ensures { fault_of result ≡ head_fault events period None }
{
    if !(1..=MOST_EVENTS).contains(&usize::from(events)) {
        return Err(BoardFault::EventCount);
    }
    if !(1..=LONGEST_PERIOD).contains(&period) {
        return Err(BoardFault::Period);
    }
    Ok(())
}

// Refuses to open a new board for the lowest cause.
fn check_opening(events: u8, period: u32, departures: &[u32]) -> Result<(), BoardFault>
    ensures { fault_of result ≡ open_fault nothing events period departures.now }
{
    check_head(events, period)?;
    if !departures_below(period, departures) {
        return Err(BoardFault::Departure);
    }
    if departures.len() != usize::from(events) {
        return Err(BoardFault::Length);
    }
    Ok(())
}

// The constraint of an addition, standing, or the lowest cause of refusing it before its circuits are looked at.
fn standing(events: u8, count: usize, addition: &Addition) -> Result<Constraint, BoardFault>
    ensures reply { fault_of result ≡ early_add_fault events count addition.now None }
    ensures row { IfOk result (λ c. c ≡ constraint_of addition.now) }
{
    if addition.from >= events || addition.to >= events {
        return Err(BoardFault::Event);
    }
    if addition.time > LONGEST_TIME {
        return Err(BoardFault::Time);
    }
    if addition.tokens > MOST_TOKENS {
        return Err(BoardFault::Tokens);
    }
    if !(1..=EVERY_DAY).contains(&addition.days) {
        return Err(BoardFault::Days);
    }
    let Ok(letter) = Letter::try_from(addition.letter) else {
        return Err(BoardFault::Letter);
    };
    if count >= CAPACITY {
        return Err(BoardFault::Full);
    }
    Ok(Constraint {
        from: addition.from,
        to: addition.to,
        time: addition.time,
        tokens: addition.tokens,
        days: addition.days,
        letter,
        state: State::Standing,
    })
}

impl Board {
    // A new board. It fails only for want of memory; no later call wants any.
    pub fn new(heap: Global) -> Result<Board, AllocError>
        ensures ledger { IfOk result (λ b. ledger_of b ≡ nothing) }
        ensures kept { IfOk result (λ b. kept_day b ≡ None) }
    {
        Ok(Board {
            opening: None,
            departures: Vec::with_capacity(heap, MOST_EVENTS)?,
            table: ConstraintTable::new(heap)?,
            day: None,
            kept: Vec::with_capacity(heap, MOST_CELLS)?,
        })
    }

    // What the board was opened with. Refused with 1.
    pub(crate) fn opened(&self) -> Result<OpeningRecord, BoardFault>
        ensures { MatchResult result (λ o. self.now.opening ≡ Some o) (λ fault. (self.now.opening ≡ None) × (fault ≡ NewFault)) }
    {
        self.opening.ok_or(BoardFault::New)
    }

    // Opens a new board: with a mark, 1 to 32 events, a period of 1 to 86,400 seconds, and for each event its departure below the
    // period. Refused with 2, 3, 4, 5 and 18.
    pub fn open(
        &mut self,
        mark: u16,
        events: u8,
        period: u32,
        departures: &[u32],
    ) -> Result<(), BoardFault>
        ensures reply { fault_of result ≡ open_fault (ledger_of self.old) events period departures.now }
        ensures after { ledger_of self.new ≡ open_after (ledger_of self.old) mark events period departures.now }
        ensures kept { kept_day self.new ≡ kept_after (fault_of result) (kept_day self.old) }
    {
        if self.opening.is_some() {
            return Err(BoardFault::Opened);
        }
        check_opening(events, period, departures)?;
        self.departures.extend_from_slice(departures).unwrap();
        self.opening = Some(OpeningRecord {
            mark,
            events,
            period,
        });
        Ok(())
    }

    // Adds a constraint, standing, and answers its number: the count of additions accepted before. Refused with 1 and with 6 to 12.
    pub fn add(&mut self, addition: Addition) -> Result<u8, BoardFault>
        ensures reply { fault_of result ≡ add_fault (ledger_of self.old) addition }
        ensures number { IfOk result (λ k. k ≡ next_number (ledger_of self.old)) }
        ensures after { ledger_of self.new ≡ add_after (ledger_of self.old) addition }
        ensures kept { kept_day self.new ≡ kept_after (fault_of result) (kept_day self.old) }
        ensures law { CircuitLaw (ledger_of self.old) addition (fault_of result) }
    {
        let opening = self.opened()?;
        let count = self.table.rows.len();
        let constraint = standing(opening.events, count, &addition)?;
        let events = usize::from(opening.events);
        if closes_circuit(events, self.table.rows.as_slice(), &addition) {
            return Err(BoardFault::Circuit);
        }
        match self.table.push(constraint) {
            Ok(()) => {
                self.day = None;
                Ok(u8::try_from(count).unwrap())
            }
            Err(_) => unreachable(),
        }
    }

    // The number of events, the period and the count of accepted additions of an opened board; nothing of a new one.
    pub fn summary(&self) -> Option<Summary>
        ensures { result ≡ summary_of (ledger_of self.now) }
    {
        let constraints = self.table.rows.len();
        self.opening.map(|opening| Summary {
            events: opening.events,
            period: opening.period,
            constraints,
        })
    }
}
