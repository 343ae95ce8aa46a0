//! The words of a line, read from the left.

ghost use Rattle.std.specs.Prelude.{◌≡◌, ◌≤◌, ◌∷◌, IfOk};
ghost use Rattle.std.specs.Option.{option_copied};
ghost use Rattle.std.specs.List.{list_all};
ghost use Rattle.std.specs.Char.{is_ascii_digit};
ghost use Rattle.text_lines.specs.Split.{pieces_of, words_of, pieces_left};
ghost use Rattle.text_lines.specs.Reading.{Gives, Reads, Says, word_at, is_first, keyword_at, number_at, number_within, hex_at, end_at, is_led, is_decimal, number_of, hex_of, text_fault};

use crate::{TextFault, find_byte};
use hex::FromHexError;
use mrp_types::Octets;
use std::alloc::Global;
use std::marker::Model;

/// The words that are left of a line, and contracts see the list of them. After a fault nothing is said of what is
/// left.
#[derive(Drop)]
pub struct Words<'a> {
    separator: u8,
    rest: Option<&'a [u8]>,
}

impl<'a> Model for Words<'a> {
    ghost use Rattle.std.specs.Prelude.{List, ℕ};

    ghost Value = { List (List ℕ) };

    ghost use Rattle.std.specs.Option.{option_copied};
    ghost use Rattle.text_lines.specs.Split.{pieces_left};

    ghost view = { λ w. pieces_left w.separator (option_copied w.rest) };
}

impl<'a> Words<'a> {
    /// All words of a line without its line feed. Each stretch between spaces is a word, also an empty one.
    pub fn new(line: &'a [u8]) -> Self
        ensures { result ≡ words_of line.now }
    {
        Words {
            separator: b' ',
            rest: Some(line),
        }
    }

    /// All pieces of a text that this byte separates, to be read as words are. Each stretch between is one, also an
    /// empty one.
    pub fn split(text: &'a [u8], separator: u8) -> Self
        ensures { result ≡ pieces_of separator text.now }
    {
        Words {
            separator,
            rest: Some(text),
        }
    }

    /// The next word. `Word` where none is left.
    pub fn word(&mut self) -> Result<&'a [u8], TextFault>
        ensures { Gives (λ x. x.now) (word_at self.old) result self.new }
    {
        let Some(rest) = self.rest else {
            return Err(TextFault::Word);
        };
        let (word, left) = split_first(rest, self.separator);
        self.rest = left;
        Ok(word)
    }

    /// Whether the next word is this one. It stays the next one.
    pub fn is_next(&self, word: &[u8]) -> bool
        ensures { result ≡ is_first word.now self.now }
    {
        match self.rest {
            Some(rest) => split_first(rest, self.separator).0 == word,
            None => false,
        }
    }

    /// The next word, which has to be this one. `Word` where it is another, or none is left.
    pub fn keyword(&mut self, keyword: &[u8]) -> Result<(), TextFault>
        ensures { Gives (λ x. x) (keyword_at keyword.now self.old) result self.new }
    {
        if self.word()? != keyword {
            return Err(TextFault::Word);
        }
        Ok(())
    }

    /// The next word as a number: decimal without leading zeros, below 2^64. `Word` where none is left, `Number`
    /// where it is no such decimal, `Range` where it is one of 2^64 or more.
    pub fn number(&mut self) -> Result<u64, TextFault>
        ensures { Gives (λ n. n) (number_at self.old) result self.new }
    {
        number_of_word(self.word()?)
    }

    /// The next word as a number of this range, both ends included; a number out of it is `Range`, and the other
    /// faults are those of `number`.
    pub fn number_within(&mut self, least: u64, most: u64) -> Result<u64, TextFault>
        ensures exact { Gives (λ n. n) (number_within least most self.old) result self.new }
        ensures range { IfOk result (λ n. n ≤ most) }
    {
        let number = self.number()?;
        if number < least {
            return Err(TextFault::Range);
        }
        if number > most {
            return Err(TextFault::Range);
        }
        Ok(number)
    }

    /// The next word as bytes: lower-case hexadecimal, `-` for none. `Word` where none is left, `Hex` where it is
    /// anything else, the empty word too.
    pub fn hex(&mut self, alloc: Global) -> Result<Octets, TextFault>
        ensures { Reads (λ x. x) (hex_at self.old) result self.new }
    {
        bytes_of_word(alloc, self.word()?)
    }

    /// Asks that no word is left; else `Left`.
    pub fn end(&self) -> Result<(), TextFault>
        ensures { result ≡ end_at self.now }
    {
        match self.rest {
            Some(_) => Err(TextFault::Left),
            None => Ok(()),
        }
    }
}

// The first piece, and what is left after the separator behind it.
fn split_first(rest: &[u8], separator: u8) -> (&[u8], Option<&[u8]>)
    ensures { result.0.now ∷ pieces_left separator (option_copied result.1) ≡ pieces_of separator rest.now }
{
    let Some(end) = find_byte(rest, separator) else {
        return (rest, None);
    };
    (&rest[..end], Some(&rest[end + 1..]))
}

// One byte at least, and no zero before others.
fn leads_well(word: &[u8]) -> bool
    ensures { result ≡ is_led word.now }
{
    match word {
        [] => false,
        [_] => true,
        [first, ..] => *first != b'0',
    }
}

fn are_digits(word: &[u8]) -> bool
    ensures { result ≡ list_all is_ascii_digit word.now }
{
    for byte in word {
        if !byte.is_ascii_digit() {
            return false;
        }
    }
    true
}

fn has_decimal_form(word: &[u8]) -> bool
    ensures { result ≡ is_decimal word.now }
{
    leads_well(word) && are_digits(word)
}

/// The number that a word spells: `Number` where it is no decimal without leading zeros, `Range` where it is one of 2^64 or
/// more.
pub fn number_of_word(word: &[u8]) -> Result<u64, TextFault>
    ensures { result ≡ number_of word.now }
{
    let Ok(text) = str::from_utf8(word) else {
        return Err(TextFault::Number);
    };
    if !has_decimal_form(word) {
        return Err(TextFault::Number);
    }
    match text.parse::<u64>() {
        Ok(number) => Ok(number),
        Err(_) => Err(TextFault::Range),
    }
}

/// The bytes that a word spells in lower-case hexadecimal, `-` for none. `Hex` where it is anything else, the empty word
/// too.
pub fn bytes_of_word(alloc: Global, word: &[u8]) -> Result<Octets, TextFault>
    ensures { Says (λ x. x) (hex_of word.now) result }
{
    if word == b"-".as_slice() {
        return Ok(Octets::new(alloc));
    }
    if word.is_empty() {
        return Err(TextFault::Hex);
    }
    let bytes = match hex::decode(alloc, word) {
        Ok(bytes) => bytes,
        Err(fault) => return Err(fault_of(fault)),
    };
    if hex::encode(alloc, bytes.as_slice())?.as_bytes() != word {
        return Err(TextFault::Hex);
    }
    Ok(Octets::from_vec(bytes))
}

fn fault_of(fault: FromHexError) -> TextFault
    ensures { result ≡ text_fault fault }
{
    match fault {
        FromHexError::OutOfMemory => TextFault::Memory,
        _ => TextFault::Hex,
    }
}
