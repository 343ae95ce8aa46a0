//! Batches from bytes.

ghost use Rattle.std.specs.Prelude.{◌≡◌, List, IfOk, Ok};
ghost use Rattle.mrp_types.specs.declared.value.Entry.{Entry};
ghost use Rattle.mrp_types.specs.Reading.{each};
ghost use Rattle.command_codec.specs.Reader.{Reads, Says};
ghost use Rattle.command_codec.specs.Grammar.{batch_of, batch_at, entries_at, entry_at};
ghost use Rattle.command_codec.specs.Spelling.{batch_bytes, AreEntries};

use crate::reading::Cursor;
use crate::{CodecFault, Entries};
use mrp_types::{ClientId, Entry};
use std::alloc::Global;

/// The entries of the batch that the bytes spell, all of the bytes. How many bytes a batch may have is for the
/// caller to ask, and the commands aren't looked into.
pub fn read_batch(alloc: Global, bytes: &[u8]) -> Result<Entries, CodecFault>
    // What is read is spelled so, and has a spelling.
    ensures found { IfOk result (λ entries. (bytes.now ≡ batch_bytes entries) × AreEntries entries) }
    // What is spelled so is read, unless memory runs out.
    ensures only { (entries : List Entry) → AreEntries entries → bytes.now ≡ batch_bytes entries → Says (λ e. e) (Ok entries) result }
    ensures exact { Says (λ e. e) (batch_of bytes.now) result }
{
    read_all(alloc, bytes)
}

fn read_all(alloc: Global, bytes: &[u8]) -> Result<Entries, CodecFault>
    ensures { Says (λ e. e) (batch_of bytes.now) result }
{
    let mut fields = Cursor::new(bytes);
    let entries = read_one(alloc, &mut fields)?;
    fields.end()?;
    Ok(entries)
}

#[tactic(auto, unfolding(crate::specs::Grammar::batch_at))]
fn read_one(alloc: Global, fields: &mut Cursor<'_>) -> Result<Entries, CodecFault>
    ensures { Reads (λ e. e) (batch_at fields.old) result fields.new }
{
    let at = fields.at();
    let kind = fields.byte()?;
    if kind != 1 {
        return Err(CodecFault::BadKind(at));
    }
    read_entries(alloc, fields)
}

fn read_entries(alloc: Global, fields: &mut Cursor<'_>) -> Result<Entries, CodecFault>
    ensures { Reads (λ e. e) (entries_at fields.old) result fields.new }
{
    let count = fields.u16_within(1, 65_535)?;
    read_each(alloc, fields, count)
}

fn read_each(alloc: Global, fields: &mut Cursor<'_>, count: u16) -> Result<Entries, CodecFault>
    ensures { Reads (λ e. e) (each entry_at count fields.old) result fields.new }
{
    let mut entries = Vec::new(alloc);
    for _turn in 0..count {
        entries.push(read_entry(alloc, fields)?)?;
    }
    Ok(Entries::from_vec(entries))
}

#[tactic(auto, unfolding(crate::specs::Grammar::entry_at))]
fn read_entry(alloc: Global, fields: &mut Cursor<'_>) -> Result<Entry, CodecFault>
    ensures { Reads (λ e. e) (entry_at fields.old) result fields.new }
{
    let client = ClientId(fields.byte()?);
    let seq = fields.u64_within(1, Entry::LAST_SEQ)?;
    let command = fields.octets(alloc, 0, Entry::COMMAND)?;
    Ok(Entry {
        client,
        seq,
        command,
    })
}
