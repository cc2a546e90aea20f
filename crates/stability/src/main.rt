// Reads a board file from standard input and reports on its board, or says why the file is refused.
#![tactic(auto)]

ghost use Rattle.std.specs.Prelude.{◌≤◌, length, IfOk};

use board::Board;
use faults::Report;
use std::io;
use std::io::Read;

// At most so many bytes of standard input are read.
const LIMIT: usize = 4096;

// Fills the page from the start with what standard input still has, and says how many bytes came. A page and no `Vec`, since a list that
// grows asks for few bytes at first: where the input comes in packets, what a read leaves of one is lost.
fn fill(input: &mut impl Read, page: &mut [u8]) -> io::Result<usize>
    ensures { IfOk result (λ len. len ≤ length page.old) }
{
    let mut len = 0;
    for _ in 0..LIMIT {
        if len >= page.len() {
            break;
        }
        let more = input.read(&mut page[len..])?;
        if more == 0 {
            break;
        }
        len += more;
    }
    Ok(len)
}

// Prints what there is to say of an opened board.
fn print_summary(rt: &HostRuntime, board: &Board) -> io::Result<()> {
    let Some(summary) = board.summary() else {
        return Ok(());
    };
    println!(rt; "{summary}")
}

fn main(rt: HostRuntime) -> io::Result<()> {
    let mut page = [0; LIMIT];
    let len = fill(&mut rt.stdin(), &mut page)?;
    let mut board = Board::new(rt.alloc())?;
    match board.load(&page[..len]) {
        Ok(()) => print_summary(&rt, &board),
        Err(fault) => {
            let report = Report::from(fault);
            println!(rt; "refused {report}")
        }
    }
}
