// Calls of a board and their replies, as values: what a planner asks for, and what comes back.
#![tactic(auto)]

ghost use Rattle.std.specs.Prelude.{◌≡◌, Some};
ghost use Rattle.calls.specs.declared.CallFault.TheVariants.{Board as ByBoard, Load as ByLoad};
ghost use Rattle.calls.specs.Replies.{call_report, accepted, answer_text, reply_text};

use board::BoardFault;
use board_file::LoadFault;
use faults::Report;
use std::fmt;
use timetable::Addition;

// A call of a board: opening it or loading it from a file's bytes, and the changes of its constraints. A restoration or a dismissal names its
// ticket by mark and number: two fields, as a script spells them, and no type that would only be packed and taken apart.
#[derive(Drop, PartialEq, Debug)]
pub enum Call {
    Open {
        mark: u16,
        events: u8,
        period: u32,
        departures: Vec<u32>,
    },
    Load {
        bytes: Vec<u8>,
    },
    Add(Addition),
    Retime {
        number: u16,
        time: u16,
    },
    Withdraw {
        number: u16,
    },
    Suspend {
        number: u16,
    },
    Restore {
        mark: u16,
        number: u16,
    },
    Dismiss {
        mark: u16,
        number: u16,
    },
}

// What an accepted call answers: done; the number of the constraint added; or mark and number of the ticket of the constraint suspended.
#[derive(Clone, Copy, PartialEq, Eq, Debug)]
pub enum Answer {
    Done,
    Number(u16),
    Ticket { mark: u16, number: u16 },
}

// Why a call is refused: by a rule of the board, or by what a load found, whole.
#[derive(Clone, Copy, PartialEq, Debug)]
pub enum CallFault {
    Board(BoardFault),
    Load(LoadFault<BoardFault>),
}

// The reply to a call: what it answers, or why it is refused.
#[derive(Clone, Copy, PartialEq, Debug)]
pub struct Reply(pub Result<Answer, CallFault>);

impl From<BoardFault> for CallFault {
    ghost from_gives = { λ fault call_fault. call_fault ≡ ByBoard fault };

    fn from(fault: BoardFault) -> Self {
        Self::Board(fault)
    }
}

impl From<LoadFault<BoardFault>> for CallFault {
    ghost from_gives = { λ fault call_fault. call_fault ≡ ByLoad fault };

    fn from(fault: LoadFault<BoardFault>) -> Self {
        Self::Load(fault)
    }
}

// The fault's layer, number and place.
impl From<CallFault> for Report {
    ghost from_gives = { λ fault report. report ≡ call_report fault };

    fn from(fault: CallFault) -> Self {
        match fault {
            CallFault::Board(fault) => Report::from(fault),
            CallFault::Load(fault) => Report::from(fault),
        }
    }
}

impl Reply {
    // Whether the call was accepted.
    pub fn is_accepted(self) -> bool
        ensures { result ≡ accepted self }
    {
        self.0.is_ok()
    }
}

impl fmt::Display for Answer {
    ghost output = { λ answer. Some (answer_text answer) };

    fn fmt<W: fmt::Write>(&self, f: &mut fmt::Formatter<W>) -> fmt::Result {
        match self {
            Answer::Done => f.write_str("ok"),
            Answer::Number(number) => write!(f, "number {number}"),
            Answer::Ticket { mark, number } => write!(f, "ticket {mark} {number}"),
        }
    }
}

impl fmt::Display for Reply {
    ghost output = { λ reply. Some (reply_text reply) };

    fn fmt<W: fmt::Write>(&self, f: &mut fmt::Formatter<W>) -> fmt::Result {
        match self.0 {
            Ok(answer) => write!(f, "{answer}"),
            Err(fault) => {
                let report = Report::from(fault);
                write!(f, "refused {report}")
            }
        }
    }
}
