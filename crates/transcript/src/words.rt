//! What the next words of a line say.

ghost use Rattle.std.specs.Prelude.{◌≡◌};
ghost use Rattle.transcript.specs.Words.{Gives, Reads, word_at};
ghost use Rattle.transcript.specs.Reading.{id_at, count_at, tuple_at, hex_at, value_at, party_at};

use crate::fields::{count_of, hex_of_word, id_of, party_of_word, tuple_of_word, value_of_word};
use crate::{Instances, LineKind};
use mrp_types::{Octets, Party, Value};
use std::alloc::Global;
use text_lines::Words;

/// The next word. `Word` where none is left.
#[tactic(auto, using(crate::proofs::WordLaws::word_given, crate::proofs::WordLaws::word_missing))]
pub fn read_word<'a>(words: &mut Words<'a>) -> Result<&'a [u8], LineKind>
    ensures { Gives (λ x. x.now) (word_at words.old) result words.new }
{
    match words.word() {
        Ok(word) => Ok(word),
        Err(_) => Err(LineKind::Word),
    }
}

/// The next word as the number of a node, a ring or a client.
pub fn read_id(words: &mut Words<'_>) -> Result<u8, LineKind>
    ensures { Gives (λ n. n) (id_at words.old) result words.new }
{
    let word = read_word(words)?;
    id_of(word).ok_or(LineKind::Number)
}

/// The next word as any other number.
pub fn read_count(words: &mut Words<'_>) -> Result<u64, LineKind>
    ensures { Gives (λ n. n) (count_at words.old) result words.new }
{
    let word = read_word(words)?;
    count_of(word).ok_or(LineKind::Number)
}

/// The next word as a party.
pub fn read_party(words: &mut Words<'_>) -> Result<Party, LineKind>
    ensures { Gives (λ p. p) (party_at words.old) result words.new }
{
    let word = read_word(words)?;
    party_of_word(word).ok_or(LineKind::Number)
}

/// The next word as a tuple.
pub fn read_tuple(alloc: Global, words: &mut Words<'_>) -> Result<Instances, LineKind>
    ensures { Reads (λ t. t) (tuple_at words.old) result words.new }
{
    let word = read_word(words)?;
    let Ok(found) = tuple_of_word(alloc, word) else {
        return Err(LineKind::Memory);
    };
    found.ok_or(LineKind::Number)
}

/// The next word as bytes in hexadecimal.
pub fn read_hex(alloc: Global, words: &mut Words<'_>) -> Result<Octets, LineKind>
    ensures { Reads (λ b. b) (hex_at words.old) result words.new }
{
    let word = read_word(words)?;
    let Ok(found) = hex_of_word(alloc, word) else {
        return Err(LineKind::Memory);
    };
    found.ok_or(LineKind::Hex)
}

/// The next word as a value.
pub fn read_value(alloc: Global, words: &mut Words<'_>) -> Result<Value, LineKind>
    ensures { Reads (λ v. v) (value_at words.old) result words.new }
{
    let word = read_word(words)?;
    let Ok(found) = value_of_word(alloc, word) else {
        return Err(LineKind::Memory);
    };
    found.ok_or(LineKind::Hex)
}
