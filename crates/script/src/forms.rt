// The forms of a line: a keyword and its fields.
ghost use Rattle.std.specs.Prelude.{◌≡◌, IfOk, vec_items};
ghost use Rattle.std.specs.Option.{option_map};
ghost use Rattle.script.specs.Words.{only_word};
ghost use Rattle.script.specs.Numbers.{bind, numbers_in};
ghost use Rattle.script.specs.Forms.{form_of, opening, largest_32, letter_in, opening_in, file_in, addition_in, form_in};

use crate::numbers::hex_bytes;
use crate::words::Words;
use calls::Call;
use std::alloc::{AllocError, Global};
use timetable::Addition;

// The letter that the one word left is: any one ASCII character.
fn letter(words: &mut Words<'_>) -> Option<u8>
    ensures { result ≡ bind (only_word words.old) letter_in }
{
    match words.only()? {
        [byte] if byte.is_ascii() => Some(*byte),
        _ => None,
    }
}

// The addition whose fields are the words left.
fn addition(words: &mut Words<'_>) -> Option<Addition>
    ensures { result ≡ addition_in words.old }
{
    Some(Addition {
        from: words.number()?,
        to: words.number()?,
        time: words.number()?,
        tokens: words.number()?,
        days: words.number()?,
        letter: letter(words)?,
    })
}

// The mark, the number of events and the period that begin an opening; its departures are the words still left.
fn opening_head(words: &mut Words<'_>) -> Option<(u16, u8, u32)>
    ensures { bind result (λ head. option_map (λ departures. opening head.0 head.1 head.2 departures) (numbers_in largest_32 words.new)) ≡ opening_in words.old }
{
    Some((words.number()?, words.number()?, words.number()?))
}

// The opening whose fields are the words left.
fn opening(heap: Global, words: &mut Words<'_>) -> Result<Option<Call>, AllocError>
    ensures { IfOk result (λ call. option_map form_of call ≡ opening_in words.old) }
{
    let Some((mark, events, period)) = opening_head(words) else {
        return Ok(None);
    };
    let departures = words.all_numbers(heap)?;
    Ok(departures.map(|departures| Call::Open {
        mark,
        events,
        period,
        departures,
    }))
}

// The bytes of the file that the one word left spells in hexadecimal: an empty list where there is no word.
fn file(heap: Global, words: &mut Words<'_>) -> Result<Option<Vec<u8>>, AllocError>
    ensures { IfOk result (λ bytes. option_map vec_items bytes ≡ file_in words.old) }
{
    let Some(word) = words.next() else {
        return Ok(Some(Vec::new(heap)));
    };
    match words.next() {
        None => hex_bytes(heap, word),
        Some(_) => Ok(None),
    }
}

// The call of a keyword whose fields are the words left, if they are: one case for each form of a line.
pub fn read_form(
    heap: Global,
    keyword: &[u8],
    words: &mut Words<'_>,
) -> Result<Option<Call>, AllocError>
    ensures { IfOk result (λ call. option_map form_of call ≡ form_in keyword.now words.old) }
{
    match keyword {
        b"open" => opening(heap, words),
        b"load" => Ok(file(heap, words)?.map(|bytes| Call::Load { bytes })),
        b"add" => Ok(addition(words).map(Call::Add)),
        b"retime" => Ok(
            words
                .two_numbers()
                .map(|(number, time)| Call::Retime { number, time }),
        ),
        b"withdraw" => Ok(words.one_number().map(|number| Call::Withdraw { number })),
        b"suspend" => Ok(words.one_number().map(|number| Call::Suspend { number })),
        b"restore" => Ok(
            words
                .two_numbers()
                .map(|(mark, number)| Call::Restore { mark, number }),
        ),
        b"dismiss" => Ok(
            words
                .two_numbers()
                .map(|(mark, number)| Call::Dismiss { mark, number }),
        ),
        _ => Ok(None),
    }
}
