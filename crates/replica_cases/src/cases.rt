//! What lines say.

ghost use Rattle.std.specs.Prelude.{IfOk, IsSome};
ghost use Rattle.command_codec.specs.Valid.{IsCommand};
ghost use Rattle.mrp_config.specs.Config.{partition_at};
ghost use Rattle.mrp_types.specs.Entries.{IsEntry};

use command_codec::{CodecFault, Command, read_command};
use mrp_config::Deployment;
use mrp_types::{ClientId, Entry, Memory, Octets, PartitionId};
use std::alloc::Global;
use text_lines::{TextFault, Words};

/// The most words of bytes, and how often a word may stand for the same bytes.
const MOST: u64 = 100_000;

/// The line is no call, or memory is wanting.
#[derive(Drop)]
pub struct NoCase;

impl From<TextFault> for NoCase {
    fn from(_: TextFault) -> Self {
        NoCase
    }
}

impl From<Memory> for NoCase {
    fn from(_: Memory) -> Self {
        NoCase
    }
}

impl From<CodecFault> for NoCase {
    fn from(_: CodecFault) -> Self {
        NoCase
    }
}

/// A partition of the deployment.
pub fn read_partition(deployment: &Deployment, words: &mut Words<'_>) -> Result<PartitionId, NoCase>
    ensures { IfOk result (λ p. IsSome (partition_at deployment.now.partitions p.0)) }
{
    let p = PartitionId(words.number_within(0, 255)? as u8);
    let Some(_table) = deployment.partition(p) else {
        return Err(NoCase);
    };
    Ok(p)
}

/// An entry, to the end of the line.
pub fn read_entry(alloc: Global, words: &mut Words<'_>) -> Result<Entry, NoCase>
    ensures { IfOk result IsEntry }
{
    let client = ClientId(words.number_within(0, 255)? as u8);
    let seq = words.number()?;
    let command = words.hex(alloc)?;
    words.end()?;
    let entry = Entry {
        client,
        seq,
        command,
    };
    if !entry.is_valid() {
        return Err(NoCase);
    }
    Ok(entry)
}

/// A command, to the end of the line.
pub fn read_asked(alloc: Global, words: &mut Words<'_>) -> Result<Command, NoCase>
    ensures { IfOk result IsCommand }
{
    let bytes = words.hex(alloc)?;
    words.end()?;
    Ok(read_command(alloc, bytes.bytes())?)
}

/// Adds the bytes that a word stands for.
fn add_piece(alloc: Global, word: &[u8], out: &mut Octets) -> Result<(), NoCase> {
    let mut parts = Words::split(word, b'*');
    let piece = parts.hex(alloc)?;
    let mut count = 1;
    if parts.end().is_err() {
        count = parts.number_within(1, MOST)?;
        parts.end()?;
    }
    for _turn in 0..count {
        out.extend(piece.bytes())?;
    }
    Ok(())
}

/// The bytes of the words to the end of the line.
pub fn read_bytes(alloc: Global, words: &mut Words<'_>) -> Result<Octets, NoCase> {
    let mut out = Octets::new(alloc);
    for _piece in 0..MOST {
        if words.end().is_ok() {
            break;
        }
        add_piece(alloc, words.word()?, &mut out)?;
    }
    words.end()?;
    Ok(out)
}
