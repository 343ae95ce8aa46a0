//! What one word of a line says.

ghost use Rattle.std.specs.Prelude.{◌≡◌, ◌^◌, IfOk};
ghost use Rattle.transcript.specs.Fields.{number_of, tuple_of, party_of, bytes_of, value_of};

use crate::Instances;
use command_codec::is_batch;
use mrp_types::limits::{RINGS, VALUE};
use mrp_types::{ClientId, Memory, NodeId, Octets, Party, Payload, Value};
use std::alloc::Global;
use text_lines::{TextFault, Words, bytes_of_word, number_of_word};

/// The number of a node, a ring or a client that a word spells.
#[tactic(auto, unfolding(crate::specs::Fields::number_of))]
pub fn id_of(word: &[u8]) -> Option<u8>
    ensures { result ≡ number_of 256 word.now }
{
    let Ok(number) = number_of_word(word) else {
        return None;
    };
    if number < 256 {
        return Some(number as u8);
    }
    None
}

/// Any other number that a word spells, below 2^64.
#[tactic(auto, unfolding(crate::specs::Fields::number_of))]
pub fn count_of(word: &[u8]) -> Option<u64>
    ensures { result ≡ number_of (2 ^ 64) word.now }
{
    number_of_word(word).ok()
}

/// The party that a word names: `n` or `c`, and a number.
pub fn party_of_word(word: &[u8]) -> Option<Party>
    ensures { result ≡ party_of word.now }
{
    match word {
        [b'n', digits @ ..] => Some(Party::Node(NodeId(id_of(digits)?))),
        [b'c', digits @ ..] => Some(Party::Client(ClientId(id_of(digits)?))),
        _ => None,
    }
}

/// The bytes that a word spells in lower-case hexadecimal, one or more.
#[tactic(auto, unfolding(crate::specs::Fields::bytes_of))]
pub fn hex_of_word(alloc: Global, word: &[u8]) -> Result<Option<Octets>, Memory>
    ensures { IfOk result (λ found. found ≡ bytes_of word.now) }
{
    match bytes_of_word(alloc, word) {
        Ok(bytes) => {
            if bytes.is_empty() {
                return Ok(None);
            }
            Ok(Some(bytes))
        }
        Err(fault) => {
            if fault == TextFault::Memory {
                return Err(Memory);
            }
            Ok(None)
        }
    }
}

/// The value that a word spells: `skip`, or a batch of at most 8,192 bytes in hexadecimal.
pub fn value_of_word(alloc: Global, word: &[u8]) -> Result<Option<Value>, Memory>
    ensures { IfOk result (λ found. found ≡ value_of word.now) }
{
    if word == b"skip".as_slice() {
        return Ok(Some(Value::Skip));
    }
    let Some(bytes) = hex_of_word(alloc, word)? else {
        return Ok(None);
    };
    if bytes.len() > VALUE {
        return Ok(None);
    }
    if !is_batch(bytes.bytes()) {
        return Ok(None);
    }
    Ok(Some(Value::Batch(Payload::from_slice(alloc, bytes.bytes())?)))
}

/// The tuple that a word spells: 1 to 16 instances with commas between.
#[tactic(auto, unfolding(crate::specs::Fields::tuple_of))]
pub fn tuple_of_word(alloc: Global, word: &[u8]) -> Result<Option<Instances>, Memory>
    ensures { IfOk result (λ found. found ≡ tuple_of word.now) }
{
    let mut pieces = Words::split(word, b',');
    let mut tuple = Instances::new(alloc);
    for _turn in 0..RINGS {
        let Ok(piece) = pieces.word() else {
            return Ok(Some(tuple));
        };
        let Some(inst) = count_of(piece) else {
            return Ok(None);
        };
        tuple.push(inst)?;
    }
    if pieces.end().is_err() {
        return Ok(None);
    }
    Ok(Some(tuple))
}
