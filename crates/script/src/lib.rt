// The planner's script: its lines, and which call each of them makes.
#![tactic(auto)]

ghost use Rattle.std.specs.Prelude.{◌≡◌, ◌<◌, length, IfSome, IfOk};
ghost use Rattle.std.specs.List.{position};
ghost use Rattle.script.specs.Lines.{ends_line, lines, lines_cut, LinesLaw, is_comment, line_of, reading_of};
ghost use Rattle.script.specs.Spelling.{LineLaw};

use crate::forms::read_form;
use crate::words::Words;
use calls::Call;
use std::alloc::{AllocError, Global};

mod forms;
mod numbers;
mod words;

// What a line of a script is: a call, the takeover, nothing to reply to, or none of these.
#[derive(Drop, PartialEq, Debug)]
pub enum Line {
    Call(Call),
    Takeover,
    Silent,
    Unknown,
}

// Where the first end of a line stands, if there is one.
fn first_end(script: &[u8]) -> Option<usize>
    ensures { result ≡ position ends_line script.now }
{
    // a loop, and not the iterator's `position`, which takes half as long again for a byte
    for (i, byte) in script.iter().enumerate() {
        if *byte == b'\n' {
            return Some(i);
        }
    }
    None
}

// The first line of a script, without its end, and the script behind it; none where nothing is left. A last line needs no end. Its cost is
// linear in the length of the line.
pub fn next_line(script: &[u8]) -> Option<(&[u8], &[u8])>
    ensures lines { lines_cut result ≡ lines script.now }
    ensures shorter { IfSome result (λ cut. length cut.1.now < length script.now) }
    ensures law { LinesLaw script.now }
{
    if script.is_empty() {
        return None;
    }
    match first_end(script) {
        Some(end) => Some((&script[..end], &script[end + 1..])),
        None => Some((script, &[])),
    }
}

// Whether a line begins with a number sign.
fn is_comment(line: &[u8]) -> bool
    ensures { result ≡ is_comment line.now }
{
    matches!(line, [b'#', ..])
}

// What a line is. It wants memory for an opening's departures and for a file's bytes alone, and fails only for want of it. Its cost is
// linear in the length of the line.
#[tactic(auto, using(crate::proofs::WrittenCalls::line_law))]
pub fn read_line(heap: Global, line: &[u8]) -> Result<Line, AllocError>
    ensures reply { IfOk result (λ read. reading_of read ≡ line_of line.now) }
    ensures law { LineLaw line.now }
{
    if is_comment(line) {
        return Ok(Line::Silent);
    }
    let mut words = Words::new(line);
    let Some(keyword) = words.next() else {
        return Ok(Line::Silent);
    };
    if keyword == b"takeover".as_slice() {
        return match words.next() {
            None => Ok(Line::Takeover),
            Some(_) => Ok(Line::Unknown),
        };
    }
    let call = read_form(heap, keyword, &mut words)?;
    Ok(call.map_or(Line::Unknown, Line::Call))
}
