// The words of a line, as parts of it.
ghost use Rattle.std.specs.Prelude.{◌≡◌};
ghost use Rattle.std.specs.Option.{option_map};
ghost use Rattle.std.specs.List.{position};
ghost use Rattle.std.specs.Iterator.{item_count};
ghost use Rattle.script.specs.Words.{is_blank, in_word, words, words_cut, only_word};

use std::marker::Model;

// Whether a byte separates words: a space, a tabulator or a carriage return.
fn is_blank(byte: u8) -> bool
    ensures { result ≡ is_blank byte }
{
    matches!(byte, b' ' | b'\t' | b'\r')
}

// Where the first word begins, if there is one. A loop, as the next one: the iterator's `position` takes half as long again for a byte, and
// one function of both that takes the test would need clauses for it.
fn first_in_word(text: &[u8]) -> Option<usize>
    ensures { result ≡ position in_word text.now }
{
    for (i, byte) in text.iter().enumerate() {
        if !is_blank(*byte) {
            return Some(i);
        }
    }
    None
}

// Where the first blank stands, if there is one.
fn first_blank(text: &[u8]) -> Option<usize>
    ensures { result ≡ position is_blank text.now }
{
    for (i, byte) in text.iter().enumerate() {
        if is_blank(*byte) {
            return Some(i);
        }
    }
    None
}

// The words of a line that are still to be read. A contract sees their list.
#[derive(Drop)]
pub struct Words<'a> {
    text: &'a [u8],
}

impl<'a> Model for Words<'a> {
    ghost use Rattle.std.specs.Prelude.{ℕ, List};
    ghost use Rattle.script.specs.Words.{words};

    ghost Value = { List (List ℕ) };

    ghost view = { λ it. words it.text.now };
}

impl<'a> Words<'a> {
    // The words of a text.
    pub fn new(text: &'a [u8]) -> Self
        ensures { result ≡ words text.now }
    {
        Words { text }
    }

    // The one word that is left, if there is just one.
    pub fn only(&mut self) -> Option<&'a [u8]>
        ensures { option_map (λ x. x.now) result ≡ only_word self.old }
    {
        let word = self.next()?;
        self.next().is_none().then_some(word)
    }
}

impl<'a> Iterator for Words<'a> {
    type Item = &'a [u8];

    ghost next_gives = { λ words word others. words_cut word others ≡ words };

    ghost remaining = { item_count (λ words. words) };

    fn next(&mut self) -> Option<&'a [u8]> {
        let text = &self.text[first_in_word(self.text)?..];
        let (word, rest) = text.split_at(first_blank(text).unwrap_or(text.len()));
        self.text = rest;
        Some(word)
    }
}
