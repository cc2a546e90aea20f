// Changes of constraints: retiming, withdrawing, suspending, and restoring or dismissing by a ticket.
ghost use Rattle.std.specs.Prelude.{◌≡◌, IfOk, None};
ghost use Rattle.faults.specs.Causes.{fault_of};
ghost use Rattle.timetable.specs.declared.LedgerEvent.TheVariants.{Restore, Dismiss};
ghost use Rattle.timetable.specs.Changes.{moved};
ghost use Rattle.timetable.specs.Words.{suspended, row_at};
ghost use Rattle.board.specs.Ledger.{standing_fault, changed_at, retime_fault, retime_after, withdraw_fault, withdraw_after, suspend_fault, suspend_after, mark_of, spend_fault, spend_after, SpentOrBack, kept_after, kept_through, kept_spent};
ghost use Rattle.board.specs.Holding.{ledger_of, kept_day};

use crate::{Board, BoardFault, LONGEST_TIME, Ticket};
use timetable::{Constraint, LedgerEvent, State};

// The standing constraint of a number, or why there is none: the number was never given, or the constraint is suspended or withdrawn.
fn standing_at(constraints: &[Constraint], number: u8) -> Result<Constraint, BoardFault>
    ensures fault { fault_of result ≡ standing_fault constraints.now number None }
    ensures row { IfOk result (λ c. c ≡ row_at constraints.now number) }
{
    let constraint = constraints
        .get(usize::from(number))
        .ok_or(BoardFault::Number)?;
    if constraint.state != State::Standing {
        return Err(BoardFault::NotStanding);
    }
    Ok(*constraint)
}

// Whether the constraint of a number is suspended.
fn is_suspended(constraints: &[Constraint], number: u8) -> bool
    ensures { result ≡ suspended (row_at constraints.now number).state }
{
    constraints
        .get(usize::from(number))
        .is_some_and(|constraint| constraint.state == State::Suspended)
}

impl Ticket {
    // The mark of the board that handed the ticket out.
    pub fn mark(&self) -> u16
        ensures { result ≡ self.now.mark }
    {
        self.mark
    }

    // The number of the suspended constraint.
    pub fn number(&self) -> u8
        ensures { result ≡ self.now.number }
    {
        self.number
    }
}

// What becomes, through an event, of the day whose recovery table is kept: it stays only where the event can't change what counts.
fn day_after(day: Option<u8>, event: LedgerEvent) -> Option<u8>
    ensures { result ≡ kept_through event day }
{
    if event.changes_counted() { None } else { day }
}

impl Board {
    // Changes the state of the constraint of a number by an event, where the event is due. The kept recovery table stays current only
    // where the event can't change what counts.
    fn change(&mut self, number: u8, event: LedgerEvent)
        ensures after { ledger_of self.new ≡ changed_at (moved event) number (ledger_of self.old) }
        ensures kept { kept_day self.new ≡ kept_through event (kept_day self.old) }
    {
        self.day = day_after(self.day, event);
        // the answer is known, since the callers saw that the event is due
        let _ = self.table.change(usize::from(number), event);
    }

    // Gives a standing constraint another time. Refused with 1, 7, 13 and 14.
    pub fn retime(&mut self, number: u8, time: u16) -> Result<(), BoardFault>
        ensures reply { fault_of result ≡ retime_fault (ledger_of self.old) number time }
        ensures after { ledger_of self.new ≡ retime_after (ledger_of self.old) number time }
        ensures kept { kept_day self.new ≡ kept_after (fault_of result) (kept_day self.old) }
    {
        let _ = self.opened()?;
        if time > LONGEST_TIME {
            return Err(BoardFault::Time);
        }
        let _ = standing_at(self.table.rows.as_slice(), number)?;
        self.day = None;
        // the answer is known, since the constraint was just seen
        let _ = self.table.retime(usize::from(number), time);
        Ok(())
    }

    // Withdraws a standing constraint for good. Refused with 1, 13 and 14.
    pub fn withdraw(&mut self, number: u8) -> Result<(), BoardFault>
        ensures reply { fault_of result ≡ withdraw_fault (ledger_of self.old) number }
        ensures after { ledger_of self.new ≡ withdraw_after (ledger_of self.old) number }
        ensures kept { kept_day self.new ≡ kept_after (fault_of result) (kept_day self.old) }
    {
        let _ = self.opened()?;
        let _ = standing_at(self.table.rows.as_slice(), number)?;
        self.change(number, LedgerEvent::Withdraw);
        Ok(())
    }

    // Suspends a standing constraint of letter T or H and hands out its ticket. Refused with 1, 13, 14 and 15.
    pub fn suspend(&mut self, number: u8) -> Result<Ticket, BoardFault>
        ensures reply { fault_of result ≡ suspend_fault (ledger_of self.old) number }
        ensures ticket { IfOk result (λ t. (t.mark ≡ mark_of (ledger_of self.old)) × (t.number ≡ number)) }
        ensures after { ledger_of self.new ≡ suspend_after (ledger_of self.old) number }
        ensures kept { kept_day self.new ≡ kept_after (fault_of result) (kept_day self.old) }
    {
        let opening = self.opened()?;
        let constraint = standing_at(self.table.rows.as_slice(), number)?;
        if !constraint.letter.is_suspendable() {
            return Err(BoardFault::NotSuspendable);
        }
        self.change(number, LedgerEvent::Suspend);
        Ok(Ticket {
            mark: opening.mark,
            number,
        })
    }

    // Spends a ticket on an event, or hands it back with the fault. The clause `reply` is that of both calls below, since it speaks of the
    // ledger before the call, and a fact of the ticket's type would not know the ledger.
    fn spend(&mut self, ticket: Ticket, event: LedgerEvent) -> Result<(), (Ticket, BoardFault)>
        ensures reply { SpentOrBack result ticket (spend_fault (ledger_of self.old) ticket.mark ticket.number) }
        ensures after { ledger_of self.new ≡ spend_after event (ledger_of self.old) ticket.mark ticket.number }
        ensures kept { kept_day self.new ≡ kept_spent event (spend_fault (ledger_of self.old) ticket.mark ticket.number) (kept_day self.old) }
    {
        let Some(opening) = self.opening else {
            return Err((ticket, BoardFault::New));
        };
        if opening.mark != ticket.mark || !is_suspended(self.table.rows.as_slice(), ticket.number) {
            return Err((ticket, BoardFault::Ticket));
        }
        self.change(ticket.number, event);
        let Ticket { mark: _, number: _ } = ticket;
        Ok(())
    }

    // Restores the suspended constraint of a ticket: it stands again. Refused with 1 and 16, and then the ticket comes back.
    pub fn restore(&mut self, ticket: Ticket) -> Result<(), (Ticket, BoardFault)>
        ensures reply { SpentOrBack result ticket (spend_fault (ledger_of self.old) ticket.mark ticket.number) }
        ensures after { ledger_of self.new ≡ spend_after Restore (ledger_of self.old) ticket.mark ticket.number }
        ensures kept { kept_day self.new ≡ kept_spent Restore (spend_fault (ledger_of self.old) ticket.mark ticket.number) (kept_day self.old) }
    {
        self.spend(ticket, LedgerEvent::Restore)
    }

    // Dismisses the suspended constraint of a ticket: it is withdrawn. Refused with 1 and 16, and then the ticket comes back.
    pub fn dismiss(&mut self, ticket: Ticket) -> Result<(), (Ticket, BoardFault)>
        ensures reply { SpentOrBack result ticket (spend_fault (ledger_of self.old) ticket.mark ticket.number) }
        ensures after { ledger_of self.new ≡ spend_after Dismiss (ledger_of self.old) ticket.mark ticket.number }
        ensures kept { kept_day self.new ≡ kept_spent Dismiss (spend_fault (ledger_of self.old) ticket.mark ticket.number) (kept_day self.old) }
    {
        self.spend(ticket, LedgerEvent::Dismiss)
    }
}
