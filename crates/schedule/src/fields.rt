//! What one word of a schedule says.

ghost use Rattle.std.specs.Prelude.{◌≡◌, ◌≤◌, IfOk};
ghost use Rattle.text_lines.specs.Reading.{Says};
ghost use Rattle.schedule.specs.Fields.{number_in as number_lem, known, is_client, is_node, can_lead as can_lead_lem, bytes_in as bytes_lem, byte_of, logs_of};

use command_codec::Logs;
use mrp_config::Deployment;
use mrp_types::limits::{LAST_LOG, LOGS};
use mrp_types::{ClientId, LogId, NodeId, Octets, RingId};
use std::alloc::Global;
use text_lines::{TextFault, Words, bytes_of_word, number_of_word};

// The greatest number of a client, a node or a ring that a word can name.
const LAST: u64 = 255;

/// The number of this range that a word spells, both ends included.
#[tactic(auto, unfolding(crate::specs::Fields::number_in))]
pub fn number_in(word: &[u8], least: u64, most: u64) -> Result<u64, TextFault>
    ensures exact { result ≡ number_lem least most word.now }
    ensures enough { IfOk result (λ n. least ≤ n) }
    ensures few { IfOk result (λ n. n ≤ most) }
{
    let number = number_of_word(word)?;
    if number < least {
        return Err(TextFault::Range);
    }
    if number > most {
        return Err(TextFault::Range);
    }
    Ok(number)
}

/// The number of a client of the deployment that a word spells.
#[tactic(auto, unfolding(crate::specs::Fields::known))]
pub fn client_of(deployment: &Deployment, word: &[u8]) -> Result<u8, TextFault>
    ensures { result ≡ known (is_client deployment.now) word.now }
{
    let client = number_in(word, 0, LAST)? as u8;
    if deployment.client(ClientId(client)).is_none() {
        return Err(TextFault::Range);
    }
    Ok(client)
}

/// The number of a node of the deployment that a word spells.
#[tactic(auto, unfolding(crate::specs::Fields::known))]
pub fn node_of(deployment: &Deployment, word: &[u8]) -> Result<u8, TextFault>
    ensures { result ≡ known (is_node deployment.now) word.now }
{
    let node = number_in(word, 0, LAST)? as u8;
    if deployment.node(NodeId(node)).is_none() {
        return Err(TextFault::Range);
    }
    Ok(node)
}

/// Whether the node is an acceptor of the ring.
pub fn can_lead(deployment: &Deployment, node: u8, ring: u8) -> bool
    ensures { result ≡ can_lead_lem deployment.now (node, ring) }
{
    match deployment.ring(RingId(ring)) {
        Some(table) => table.acceptors.position(NodeId(node)).is_some(),
        None => false,
    }
}

/// The bytes that a word spells in hexadecimal, whose number is of this range; `-` for none.
#[tactic(auto, unfolding(crate::specs::Fields::bytes_in))]
pub fn bytes_in(alloc: Global, word: &[u8], least: usize, most: usize) -> Result<Octets, TextFault>
    ensures { Says (λ b. b) (bytes_lem least most word.now) result }
{
    let bytes = bytes_of_word(alloc, word)?;
    if bytes.len() < least {
        return Err(TextFault::Range);
    }
    if bytes.len() > most {
        return Err(TextFault::Range);
    }
    Ok(bytes)
}

/// The one byte that a word spells in hexadecimal.
#[tactic(auto, unfolding(crate::specs::Fields::byte_of))]
pub fn byte_of_word(alloc: Global, word: &[u8]) -> Result<u8, TextFault>
    ensures { Says (λ b. b) (byte_of word.now) result }
{
    let bytes = bytes_of_word(alloc, word)?;
    match bytes.bytes() {
        [byte] => Ok(*byte),
        _ => Err(TextFault::Range),
    }
}

/// The logs that a word spells: one or more below 64 in increasing order, with commas between.
#[tactic(auto, unfolding(crate::specs::Fields::logs_of))]
pub fn logs_of_word(alloc: Global, word: &[u8]) -> Result<Logs, TextFault>
    ensures { Says (λ l. l) (logs_of word.now) result }
{
    let mut pieces = Words::split(word, b',');
    let mut logs = Vec::new(alloc);
    let mut least = 0;
    for _turn in 0..LOGS {
        let Ok(piece) = pieces.word() else {
            return Ok(Logs::from_vec(logs));
        };
        let log = number_in(piece, least, u64::from(LAST_LOG))?;
        logs.push(LogId(log as u8))?;
        least = log + 1;
    }
    let Ok(piece) = pieces.word() else {
        return Ok(Logs::from_vec(logs));
    };
    number_in(piece, least, u64::from(LAST_LOG))?;
    Err(TextFault::Range)
}
