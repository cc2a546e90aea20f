// The numbers that words spell, in decimal and in hexadecimal.
ghost use Rattle.std.specs.Prelude.{◌≡◌, ◌<◌, ◌≤◌, ℕ, cond, nat_le, Some, None, IfSome, IfOk, vec_items};
ghost use Rattle.std.specs.Option.{option_map};
ghost use Rattle.std.proofs.Common.{rules};
ghost use Rattle.script.specs.Numbers.{number_in, first_number, number_cut, numbers_in, hex_digit, hex_byte, hex_bytes};
ghost use Rattle.script.specs.Forms.{largest_8, largest_16, largest_32, one_number, two_numbers};

use crate::words::Words;
use std::alloc::{AllocError, Global};

// A number of a size: of 8, 16 or 32 bits.
pub trait Number: Sized {
    // The largest number of this size.
    ghost largest: { ℕ };

    // The number that a value is.
    ghost value: { Self → ℕ };

    // The largest number of this size, as a number of 32 bits.
    fn limit() -> u32
        ensures { result ≡ largest };

    // A number of 32 bits as one of this size, unless it is too large. A bound `TryFrom<u32>` would say nothing of the result at a size that is
    // not known: this clause would stand beside it as a law, with a proof for each size.
    fn of_number(number: u32) -> Option<Self>
        ensures { option_map value result ≡ cond (nat_le number largest) (Some number) None };

    // No size has more than 32 bits.
    ghost fits: { largest ≤ largest_32 };
}

impl Number for u8 {
    ghost largest = { largest_8 };

    ghost value = { λ number. number };

    ghost fits = { Prim.search rules };

    fn limit() -> u32 {
        u32::from(u8::MAX)
    }

    fn of_number(number: u32) -> Option<u8> {
        u8::try_from(number).ok()
    }
}

impl Number for u16 {
    ghost largest = { largest_16 };

    ghost value = { λ number. number };

    ghost fits = { Prim.search rules };

    fn limit() -> u32 {
        u32::from(u16::MAX)
    }

    fn of_number(number: u32) -> Option<u16> {
        u16::try_from(number).ok()
    }
}

impl Number for u32 {
    ghost largest = { largest_32 };

    ghost value = { λ number. number };

    ghost fits = { Prim.search rules };

    fn limit() -> u32 {
        u32::MAX
    }

    fn of_number(number: u32) -> Option<u32> {
        Some(number)
    }
}

// The number that a word spells in decimal, if it is at most the limit. One pass over the word, which ends at the first byte that is no digit
// or passes the limit: `parse` takes a text, so that the whole word would be looked through for UTF-8 before.
fn decimal(word: &[u8], limit: u32) -> Option<u32>
    ensures { result ≡ number_in limit word.now }
{
    if word.is_empty() {
        return None;
    }
    let mut number: u64 = 0;
    for byte in word {
        if !byte.is_ascii_digit() {
            return None;
        }
        number = number * 10 + u64::from(*byte - b'0');
        if number > u64::from(limit) {
            return None;
        }
    }
    u32::try_from(number).ok()
}

// The number of a size that a word spells in decimal.
fn number_in<N: Number>(word: &[u8]) -> Option<N>
    ensures { option_map N.value result ≡ number_in N.largest word.now }
{
    N::of_number(decimal(word, N::limit())?)
}

impl<'a> Words<'a> {
    // The number of a size that the next word spells.
    pub fn number<N: Number>(&mut self) -> Option<N>
        ensures { number_cut N.value result self.new ≡ first_number N.largest self.old }
    {
        number_in(self.next()?)
    }

    // The number of 16 bits that the one word left spells.
    pub fn one_number(&mut self) -> Option<u16>
        ensures { result ≡ one_number self.old }
    {
        number_in(self.only()?)
    }

    // The two numbers of 16 bits that the two words left spell.
    pub fn two_numbers(&mut self) -> Option<(u16, u16)>
        ensures { result ≡ two_numbers self.old }
    {
        let first = self.number()?;
        let second = self.one_number()?;
        Some((first, second))
    }

    // The numbers of 32 bits that all words left spell.
    pub fn all_numbers(&mut self, heap: Global) -> Result<Option<Vec<u32>>, AllocError>
        ensures { IfOk result (λ numbers. option_map vec_items numbers ≡ numbers_in largest_32 self.old) }
    {
        let mut numbers = Vec::new(heap);
        for word in self.by_ref() {
            let Some(number) = decimal(word, u32::MAX) else {
                return Ok(None);
            };
            numbers.push(number)?;
        }
        Ok(Some(numbers))
    }
}

// The number that a hexadecimal digit stands for, in lower or upper case. `char::to_digit` answers 32 bits, which would have to be narrowed.
fn hex_digit(byte: u8) -> Option<u8>
    ensures reply { result ≡ hex_digit byte }
    ensures within { IfSome result (λ digit. digit < 16) }
{
    match byte {
        b'0'..=b'9' => Some(byte - b'0'),
        b'a'..=b'f' => Some(byte - b'a' + 10),
        b'A'..=b'F' => Some(byte - b'A' + 10),
        _ => None,
    }
}

// The byte that two hexadecimal digits stand for, the higher first.
fn hex_byte(high: u8, low: u8) -> Option<u8>
    ensures { result ≡ hex_byte high low }
{
    Some(hex_digit(high)? * 16 + hex_digit(low)?)
}

// The bytes that a word spells in hexadecimal, two digits to a byte. The crate `hex` reports a lack of memory as a fault of the word, so it
// does not serve here.
#[tactic(auto, using(crate::proofs::Gathering::pairs_of_word, crate::proofs::Gathering::odd_word))]
pub fn hex_bytes(heap: Global, word: &[u8]) -> Result<Option<Vec<u8>>, AllocError>
    ensures { IfOk result (λ bytes. option_map vec_items bytes ≡ hex_bytes word.now) }
{
    let (pairs, []) = word.as_chunks::<2>() else {
        return Ok(None);
    };
    let mut bytes = Vec::new(heap);
    for [high, low] in pairs {
        let Some(byte) = hex_byte(*high, *low) else {
            return Ok(None);
        };
        bytes.push(byte)?;
    }
    Ok(Some(bytes))
}
