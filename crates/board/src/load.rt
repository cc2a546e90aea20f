// Loading a board from a file: the record reader below, the ledger calls above, each lower fault whole inside the upper.
ghost use Rattle.std.specs.Prelude.{◌≡◌, ◌<◌, ◌≤◌, length, None, IfOk, IfSome};
ghost use Rattle.faults.specs.Causes.{fault_of};
ghost use Rattle.board.specs.Holding.{ledger_of, kept_day};
ghost use Rattle.board.specs.Ledger.{nothing, kept_after};
ghost use Rattle.board.specs.Loads.{judged_at, load_held, load_fault, load_after, LoadLaw, entries_held, IfHolding, Stepped, Came, OpenedBy};

use crate::calls::check_head;
use crate::{Board, BoardFault, MOST_EVENTS};
use board_file::{
    ADDITION_LENGTH, DEPARTURE_LENGTH, Entry, HEADER, LoadFault, OPENING_LENGTH, OpeningRecord,
    read_departures, read_end, read_entry, read_opening,
};

// The place of the departures: after the field of the opening record.
const DEPARTURES: usize = HEADER + OPENING_LENGTH;

// The place of the entries, but for the bytes of the departures, which lie before them.
const ENTRIES: usize = DEPARTURES + HEADER;

// The bytes of an addition's whole field.
const ADDITION_FIELD: usize = HEADER + ADDITION_LENGTH;

// The board's outcome at a record: a refusal lies at the place of the record's tag.
fn judged<A>(place: usize, outcome: Result<A, BoardFault>) -> Result<A, LoadFault<BoardFault>>
    ensures { result ≡ judged_at place outcome }
{
    outcome.map_err(|fault| LoadFault::Judged { place, fault })
}

impl Board {
    // Makes the board new again.
    fn forget(&mut self)
        ensures ledger { ledger_of self.new ≡ nothing }
        ensures kept { kept_day self.new ≡ None }
    {
        self.departures.clear();
        self.table.rows.clear();
        self.day = None;
        self.opening = None;
    }

    // Reads the entry at a place and performs it: answers the next entry's place, or nothing at the end.
    fn read_one(
        &mut self,
        bytes: &[u8],
        place: usize,
    ) -> Result<Option<usize>, LoadFault<BoardFault>>
        ensures further { IfOk result (λ next. IfSome next (λ at. (place < at) × (at ≤ length bytes.now))) }
        ensures step { IfHolding (ledger_of self.old) (λ before. Stepped bytes.now place before (ledger_of self.new) result) }
    {
        match read_entry(bytes, place)? {
            Entry::End => {
                read_end(bytes, place + HEADER)?;
                Ok(None)
            }
            Entry::Add(addition) => {
                let _ = judged(place, self.add(addition))?;
                Ok(Some(place + ADDITION_FIELD))
            }
        }
    }

    // Reads and performs the entries from a place on, up to the end or the first fault.
    fn read_entries(&mut self, bytes: &[u8], start: usize) -> Result<(), LoadFault<BoardFault>>
        ensures { IfHolding (ledger_of self.old) (λ first. Came (entries_held bytes.now start first) (ledger_of self.new) result) }
    {
        let mut place = start;
        while let Some(next) = self.read_one(bytes, place)? {
            place = next;
        }
        Ok(())
    }

    // Reads the departures of an opening record, as many as there are events, and opens the board with them.
    fn open_by(&mut self, bytes: &[u8], opening: OpeningRecord) -> Result<(), LoadFault<BoardFault>>
        ensures { ledger_of self.old ≡ nothing → OpenedBy bytes.now opening (ledger_of self.new) result }
    {
        judged(0, check_head(opening.events, opening.period))?;
        // an array, since a board allocates nothing once it is made, and reading fills a slice that has its length already
        let mut places = [0; MOST_EVENTS];
        let departures = &mut places[..usize::from(opening.events)];
        read_departures(bytes, DEPARTURES, departures)?;
        judged(
            DEPARTURES,
            self.open(opening.mark, opening.events, opening.period, departures),
        )
    }

    // Reads the whole file and performs it on a new board.
    fn read_file(&mut self, bytes: &[u8]) -> Result<(), LoadFault<BoardFault>>
        ensures { ledger_of self.old ≡ nothing → Came (load_held bytes.now) (ledger_of self.new) result }
    {
        let opening = read_opening(bytes)?;
        self.open_by(bytes, opening)?;
        let count = usize::from(opening.events);
        self.read_entries(bytes, ENTRIES + DEPARTURE_LENGTH * count)
    }

    // Loads a new board from a file: its opening, its departures and its fields in order. Refused with 2, with the faults of frames and
    // records, 24 to 27, and with those of opening and adding; a refused load leaves the board as it was.
    pub fn load(&mut self, bytes: &[u8]) -> Result<(), LoadFault<BoardFault>>
        ensures reply { fault_of result ≡ load_fault (ledger_of self.old) bytes.now }
        ensures after { ledger_of self.new ≡ load_after (ledger_of self.old) bytes.now }
        ensures kept { kept_day self.new ≡ kept_after (fault_of result) (kept_day self.old) }
        ensures law { LoadLaw (ledger_of self.old) bytes.now (ledger_of self.new) }
    {
        if self.opening.is_some() {
            return Err(LoadFault::Judged {
                place: 0,
                fault: BoardFault::Opened,
            });
        }
        let outcome = self.read_file(bytes);
        if outcome.is_err() {
            self.forget();
        } else {
            self.day = None;
        }
        outcome
    }
}
