// Reads a planner's script from standard input, performs its calls in one session, and prints the reply to each; then dismisses what is
// still suspended, and prints that too.
#![tactic(auto)]

use calls::{Call, Reply};
use planning::Session;
use script::{Line, next_line, read_line};
use std::alloc::{AllocError, Global};
use std::io;
use std::io::Read;

// What a line of the script prints: the reply to its call, that the second planner takes over, or that it is unknown. The cases have no
// fields, so that a line wants one byte: a text beside each line would want 24.
#[derive(Clone, Copy)]
enum Printed {
    Reply,
    Takeover,
    Unknown,
}

// A script: the calls of the first planner, those of the one who takes over, where one does, and what each line prints. `Session::perform` takes
// a planner's calls as one slice, so what stands between them is a list beside.
#[derive(Drop)]
struct Script {
    first: Vec<Call>,
    second: Option<Vec<Call>>,
    printed: Vec<Printed>,
}

impl Script {
    // Takes up one line. There is one takeover at most: a second one is unknown.
    fn take(&mut self, heap: Global, line: Line) -> Result<(), AllocError> {
        let printed = match line {
            Line::Silent => return Ok(()),
            Line::Takeover if self.second.is_none() => {
                self.second = Some(Vec::new(heap));
                Printed::Takeover
            }
            Line::Takeover | Line::Unknown => Printed::Unknown,
            Line::Call(call) => {
                self.second.as_mut().unwrap_or(&mut self.first).push(call)?;
                Printed::Reply
            }
        };
        self.printed.push(printed)?;
        Ok(())
    }

    // Reads a whole script.
    fn read(heap: Global, text: &[u8]) -> Result<Script, AllocError> {
        let mut script = Script {
            first: Vec::new(heap),
            second: None,
            printed: Vec::new(heap),
        };
        let mut rest = text;
        while let Some((line, behind)) = next_line(rest) {
            script.take(heap, read_line(heap, line)?)?;
            rest = behind;
        }
        Ok(script)
    }
}

// Prints what each line of the script prints, in order.
fn print_replies(rt: &HostRuntime, printed: &[Printed], replies: &[Reply]) -> io::Result<()> {
    let mut replies = replies.iter();
    for line in printed {
        match line {
            Printed::Takeover => println!(rt; "takeover")?,
            Printed::Unknown => println!(rt; "unknown")?,
            Printed::Reply => {
                if let Some(reply) = replies.next() {
                    println!(rt; "{reply}")?;
                }
            }
        }
    }
    Ok(())
}

// Dismisses what is still suspended, the lowest number first, and prints each ticket.
fn print_closing(rt: &HostRuntime, session: &mut Session) -> io::Result<()> {
    while let Some((mark, number)) = session.dismiss_lowest() {
        println!(rt; "closing dismiss {mark} {number}")?;
    }
    Ok(())
}

// Performs the script in a session, and prints.
fn run(rt: &HostRuntime, session: &mut Session, script: &Script) -> io::Result<()> {
    let mut replies = Vec::new(rt.alloc());
    session.perform(&script.first, &mut replies)?;
    if let Some(second) = &script.second {
        session.perform(second, &mut replies)?;
    }
    print_replies(rt, &script.printed, &replies)?;
    print_closing(rt, session)
}

fn main(rt: HostRuntime) -> io::Result<()> {
    let heap = rt.alloc();
    let mut text = Vec::new(heap);
    let _ = rt.stdin().read_to_end(&mut text)?;
    let script = Script::read(heap, &text)?;
    let mut session = Session::new(heap)?;
    let outcome = run(&rt, &mut session, &script);
    let _ = session.close();
    outcome
}
