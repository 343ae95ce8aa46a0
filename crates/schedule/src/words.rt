//! What the next words of a line say.

ghost use Rattle.std.specs.Prelude.{◌≡◌, ◌≤◌, IfOk};
ghost use Rattle.text_lines.specs.Reading.{Gives, Reads};
ghost use Rattle.schedule.specs.Reading.{within, any_number, client_word, node_word, log_word, logs_word, bytes_word, byte_word};

use crate::fields::{byte_of_word, bytes_in, client_of, logs_of_word, node_of, number_in};
use command_codec::Logs;
use mrp_config::Deployment;
use mrp_types::limits::LAST_LOG;
use mrp_types::{LogId, Octets};
use std::alloc::Global;
use text_lines::{TextFault, Words, number_of_word};

/// The next word as a number of this range, both ends included.
pub fn read_within(words: &mut Words<'_>, least: u64, most: u64) -> Result<u64, TextFault>
    ensures exact { Gives (λ n. n) (within least most words.old) result words.new }
    ensures few { IfOk result (λ n. n ≤ most) }
{
    let word = words.word()?;
    number_in(word, least, most)
}

/// The next word as a number below 2^64.
pub fn read_number(words: &mut Words<'_>) -> Result<u64, TextFault>
    ensures { Gives (λ n. n) (any_number words.old) result words.new }
{
    let word = words.word()?;
    number_of_word(word)
}

/// The next word as the number of a client of the deployment.
pub fn read_client(deployment: &Deployment, words: &mut Words<'_>) -> Result<u8, TextFault>
    ensures { Gives (λ n. n) (client_word deployment.now words.old) result words.new }
{
    let word = words.word()?;
    client_of(deployment, word)
}

/// The next word as the number of a node of the deployment.
pub fn read_node(deployment: &Deployment, words: &mut Words<'_>) -> Result<u8, TextFault>
    ensures { Gives (λ n. n) (node_word deployment.now words.old) result words.new }
{
    let word = words.word()?;
    node_of(deployment, word)
}

/// The next word as a log below 64.
pub fn read_log(words: &mut Words<'_>) -> Result<LogId, TextFault>
    ensures { Gives (λ l. l.0) (log_word words.old) result words.new }
{
    let log = read_within(words, 0, u64::from(LAST_LOG))?;
    Ok(LogId(log as u8))
}

/// The next word as logs with commas between.
pub fn read_logs(alloc: Global, words: &mut Words<'_>) -> Result<Logs, TextFault>
    ensures { Reads (λ l. l) (logs_word words.old) result words.new }
{
    let word = words.word()?;
    logs_of_word(alloc, word)
}

/// The next word as bytes, whose number is of this range.
pub fn read_bytes(
    alloc: Global,
    words: &mut Words<'_>,
    least: usize,
    most: usize,
) -> Result<Octets, TextFault>
    ensures { Reads (λ b. b) (bytes_word least most words.old) result words.new }
{
    let word = words.word()?;
    bytes_in(alloc, word, least, most)
}

/// The next word as one byte.
pub fn read_byte(alloc: Global, words: &mut Words<'_>) -> Result<u8, TextFault>
    ensures { Reads (λ b. b) (byte_word words.old) result words.new }
{
    let word = words.word()?;
    byte_of_word(alloc, word)
}
