// Making a session and performing calls on its board.
ghost use Rattle.std.specs.Prelude.{◌≡◌, ◌++◌, ◌<◌, true, false, not, IfSome, IfOk, MatchResult};
ghost use Rattle.faults.specs.Causes.{fault_of};
ghost use Rattle.timetable.specs.declared.LedgerEvent.{LedgerEvent};
ghost use Rattle.board.specs.Ledger.{nothing, suspend_fault, suspend_after, mark_of, spend_fault, spend_after};
ghost use Rattle.board.specs.Holding.{ledger_of};
ghost use Rattle.planning.specs.Tickets.{not_held, EndsSuspension, Spends, lowest_ticket, dismissed_lowest, closed};
ghost use Rattle.calls.specs.Histories.{outcome_of, call_after, reply_to, ledger_through, replies_to};
ghost use Rattle.calls.specs.Laws.{now_suspended, HistoryLaw};
ghost use Rattle.planning.specs.Sessions.{session_ledger};

use crate::numbers::board_number;
use crate::{HeldTickets, Session};
use board::{Board, BoardFault, Ticket};
use calls::{Answer, Call, CallFault, Reply};
use std::alloc::{AllocError, Global};

// The fault of presenting a ticket that the session does not hold.
fn not_held(board: &Board) -> BoardFault
    ensures { result ≡ not_held (ledger_of board.now) }
{
    match board.summary() {
        None => BoardFault::New,
        Some(_) => BoardFault::Ticket,
    }
}

impl Session {
    // A session with a new board. It fails only for want of memory.
    pub fn new(heap: Global) -> Result<Session, AllocError>
        ensures { IfOk result (λ s. session_ledger s ≡ nothing) }
    {
        let board = Board::new(heap)?;
        let tickets = HeldTickets::new(heap)?;
        Ok(Session { board, tickets })
    }

    // The board.
    pub fn board(&self) -> &Board
        ensures { ledger_of result.now ≡ session_ledger self.now }
    {
        &self.board
    }

    // Suspends a constraint and keeps its ticket: answers the ticket's mark.
    fn suspend(&mut self, number: u16) -> Result<u16, BoardFault>
        ensures reply { fault_of result ≡ suspend_fault (session_ledger self.old) number }
        ensures mark { IfOk result (λ m. m ≡ mark_of (session_ledger self.old)) }
        ensures after { session_ledger self.new ≡ suspend_after (session_ledger self.old) number }
    {
        let ticket = self.board.suspend(board_number(number))?;
        let mark = ticket.mark();
        self.tickets.put(ticket);
        Ok(mark)
    }

    // Spends the ticket of a mark and a number by a step that restores or dismisses its constraint. A ticket that the session does not hold
    // is refused.
    fn spend<F: FnOnce(&mut Board, Ticket) -> Result<(), (Ticket, BoardFault)>>(
        &mut self,
        mark: u16,
        number: u16,
        step: F,
    ) -> Result<(), BoardFault>
        ghost event: { LedgerEvent }
        requires ends { EndsSuspension event }
        requires callable { F.IsAlwaysCallable step }
        requires spends { Spends event (F.post step) }
        ensures reply { fault_of result ≡ spend_fault (session_ledger self.old) mark number }
        ensures after { session_ledger self.new ≡ spend_after event (session_ledger self.old) mark number }
    {
        let Some(ticket) = self.tickets.take(mark, usize::from(number)) else {
            return Err(not_held(&self.board));
        };
        match step(&mut self.board, ticket) {
            Ok(()) => Ok(()),
            Err(_) => unreachable(),
        }
    }

    // Performs one call: what it answers, or why it is refused.
    fn answer(&mut self, call: &Call) -> Result<Answer, CallFault>
        ensures reply { result ≡ outcome_of (session_ledger self.old) call.now }
        ensures after { session_ledger self.new ≡ call_after (session_ledger self.old) call.now }
    {
        match call {
            Call::Open {
                mark,
                events,
                period,
                departures,
            } => {
                self.board.open(*mark, *events, *period, departures)?;
                Ok(Answer::Done)
            }
            Call::Load { bytes } => {
                self.board.load(bytes)?;
                Ok(Answer::Done)
            }
            Call::Add(addition) => {
                let number = self.board.add(*addition)?;
                Ok(Answer::Number(u16::from(number)))
            }
            Call::Retime { number, time } => {
                self.board.retime(board_number(*number), *time)?;
                Ok(Answer::Done)
            }
            Call::Withdraw { number } => {
                self.board.withdraw(board_number(*number))?;
                Ok(Answer::Done)
            }
            Call::Suspend { number } => {
                let mark = self.suspend(*number)?;
                Ok(Answer::Ticket {
                    mark,
                    number: *number,
                })
            }
            Call::Restore { mark, number } => {
                self.spend(*mark, *number, Board::restore)?;
                Ok(Answer::Done)
            }
            Call::Dismiss { mark, number } => {
                self.spend(*mark, *number, Board::dismiss)?;
                Ok(Answer::Done)
            }
        }
    }

    // Performs one call and answers its reply.
    pub fn call(&mut self, call: &Call) -> Reply
        ensures reply { result ≡ reply_to (session_ledger self.old) call.now }
        ensures after { session_ledger self.new ≡ call_after (session_ledger self.old) call.now }
    {
        Reply(self.answer(call))
    }

    // Performs the calls in their order and appends each reply to the list. It fails only for want of memory for the replies, and then it
    // has performed nothing.
    pub fn perform(&mut self, calls: &[Call], replies: &mut Vec<Reply>) -> Result<(), AllocError>
        ensures after { MatchResult result (λ _. session_ledger self.new ≡ ledger_through (session_ledger self.old) calls.now) (λ _. session_ledger self.new ≡ session_ledger self.old) }
        ensures replies { MatchResult result (λ _. replies.new.items ≡ replies.old.items ++ replies_to (session_ledger self.old) calls.now) (λ _. replies.new.items ≡ replies.old.items) }
        ensures law { HistoryLaw (session_ledger self.old) calls.now }
    {
        replies.reserve(calls.len())?;
        for call in calls {
            let reply = self.call(call);
            replies.push_reserved(reply);
        }
        Ok(())
    }

    // Dismisses the constraint of the lowest number for which the session holds a ticket, and answers the ticket's mark and number; or nothing
    // where it holds none.
    pub fn dismiss_lowest(&mut self) -> Option<(u16, u16)>
        ensures ticket { result ≡ lowest_ticket (session_ledger self.old) }
        ensures after { session_ledger self.new ≡ dismissed_lowest (session_ledger self.old) result }
        ensures fewer { IfSome result (λ _. now_suspended (session_ledger self.new) < now_suspended (session_ledger self.old)) }
    {
        let (mark, number) = self.tickets.lowest()?;
        let _ = self.spend(mark, number, Board::dismiss);
        Some((mark, number))
    }

    // Ends the session: dismisses every constraint that is still suspended, and hands the board out.
    pub fn close(mut self) -> Board
        ensures { ledger_of result ≡ closed (session_ledger self) }
    {
        while self.dismiss_lowest().is_some() {}
        let Session { board, tickets } = self;
        tickets.destroy();
        board
    }
}
