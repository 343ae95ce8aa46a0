//! Replies from bytes.

ghost use Rattle.std.specs.Prelude.{◌≡◌, ◌==◌, [], IfOk, Ok};
ghost use Rattle.command_codec.specs.declared.reply.Reply.{Reply};
ghost use Rattle.mrp_types.specs.Reading.{chain, each};
ghost use Rattle.command_codec.specs.Reader.{Reads, Says, string_that};
ghost use Rattle.command_codec.specs.Grammar.{reply_of, reply_at, reply_of_kind, positions_at, position_at, entries_reply_at, table_entry_at, key_of, comes_after};
ghost use Rattle.command_codec.specs.Replies.{reply_bytes, IsReply, HasNumbers};

use crate::reading::Cursor;
use crate::{CodecFault, LogPosition, LogPositions, Reply, TableEntries, TableEntry, order};
use mrp_types::limits::{KEY, LAST_LOG, STORED};
use mrp_types::{LogId, Octets};
use std::alloc::Global;

/// The reply that the bytes spell, all of the bytes.
pub fn read_reply(alloc: Global, bytes: &[u8]) -> Result<Reply, CodecFault>
    // What is read is spelled so, and has a spelling.
    ensures found { IfOk result (λ reply. (bytes.now ≡ reply_bytes reply) × IsReply reply) }
    // What is spelled so is read, unless memory runs out.
    ensures only { (reply : Reply) → IsReply reply → HasNumbers reply → bytes.now ≡ reply_bytes reply → Says (λ r. r) (Ok reply) result }
    ensures exact { Says (λ r. r) (reply_of bytes.now) result }
{
    read_all(alloc, bytes)
}

fn read_all(alloc: Global, bytes: &[u8]) -> Result<Reply, CodecFault>
    ensures { Says (λ r. r) (reply_of bytes.now) result }
{
    let mut fields = Cursor::new(bytes);
    let reply = read_one(alloc, &mut fields)?;
    fields.end()?;
    Ok(reply)
}

#[tactic(auto, unfolding(crate::specs::Grammar::reply_at))]
fn read_one(alloc: Global, fields: &mut Cursor<'_>) -> Result<Reply, CodecFault>
    ensures { Reads (λ r. r) (reply_at fields.old) result fields.new }
{
    let at = fields.at();
    let kind = fields.byte()?;
    read_of_kind(alloc, fields, at, kind)
}

#[tactic(auto, unfolding(crate::specs::Grammar::reply_of_kind))]
fn read_of_kind(
    alloc: Global,
    fields: &mut Cursor<'_>,
    at: usize,
    kind: u8,
) -> Result<Reply, CodecFault>
    ensures { Reads (λ r. r) (reply_of_kind at kind fields.old) result fields.new }
{
    match kind {
        1 => read_positions(alloc, fields),
        2 => Ok(Reply::Value(fields.octets(alloc, 0, STORED)?)),
        3 => Ok(Reply::Trimmed(fields.u64()?)),
        4 => Ok(Reply::Absent),
        5 => Ok(Reply::Beyond(fields.u64()?)),
        6 => Ok(Reply::Exists),
        7 => Ok(Reply::Done),
        8 => read_entries(alloc, fields),
        9 => Ok(Reply::Limit),
        10 => Ok(Reply::Differs(fields.octets(alloc, 0, STORED)?)),
        _ => Err(CodecFault::BadKind(at)),
    }
}

#[tactic(auto, unfolding(crate::specs::Grammar::positions_at))]
fn read_positions(alloc: Global, fields: &mut Cursor<'_>) -> Result<Reply, CodecFault>
    ensures { Reads (λ r. r) (positions_at fields.old) result fields.new }
{
    let count = fields.byte()?;
    Ok(Reply::Positions(read_each_position(alloc, fields, count)?))
}

fn read_each_position(
    alloc: Global,
    fields: &mut Cursor<'_>,
    count: u8,
) -> Result<LogPositions, CodecFault>
    ensures { Reads (λ p. p) (each position_at count fields.old) result fields.new }
{
    let mut positions = Vec::new(alloc);
    for _turn in 0..count {
        positions.push(read_position(fields)?)?;
    }
    Ok(LogPositions::from_vec(positions))
}

#[tactic(auto, unfolding(crate::specs::Grammar::position_at))]
fn read_position(fields: &mut Cursor<'_>) -> Result<LogPosition, CodecFault>
    ensures { Reads (λ p. p) (position_at fields.old) result fields.new }
{
    let log = LogId(fields.byte_within(0, LAST_LOG)?);
    let position = fields.u64()?;
    Ok(LogPosition { log, position })
}

#[tactic(auto, unfolding(crate::specs::Grammar::entries_reply_at))]
fn read_entries(alloc: Global, fields: &mut Cursor<'_>) -> Result<Reply, CodecFault>
    ensures { Reads (λ r. r) (entries_reply_at fields.old) result fields.new }
{
    let more = fields.byte_within(0, 1)? == 1;
    let count = fields.u16()?;
    let entries = read_each_entry(alloc, fields, count)?;
    Ok(Reply::Entries { more, entries })
}

fn read_each_entry(
    alloc: Global,
    fields: &mut Cursor<'_>,
    count: u16,
) -> Result<TableEntries, CodecFault>
    ensures { Reads (λ e. e) (chain table_entry_at key_of count [] fields.old) result fields.new }
{
    let mut entries = Vec::new(alloc);
    let mut before: &[u8] = &[];
    for _turn in 0..count {
        let (entry, key) = read_table_entry(alloc, fields, before)?;
        before = key;
        entries.push(entry)?;
    }
    Ok(TableEntries::from_vec(entries))
}

// An entry, and its key where it stands in what is read.
#[tactic(auto, unfolding(crate::specs::Grammar::table_entry_at))]
fn read_table_entry<'a>(
    alloc: Global,
    fields: &mut Cursor<'a>,
    before: &[u8],
) -> Result<(TableEntry, &'a [u8]), CodecFault>
    ensures exact { Reads (λ x. x.0) (table_entry_at before.now fields.old) result fields.new }
    ensures same { IfOk result (λ x. x.1.now ≡ key_of x.0) }
{
    let text = read_later_key(fields, before)?;
    let key = Octets::from_slice(alloc, text)?;
    let value = fields.octets(alloc, 0, STORED)?;
    Ok((TableEntry { key, value }, text))
}

#[tactic(auto, unfolding(crate::specs::Reader::string_that))]
fn read_later_key<'a>(fields: &mut Cursor<'a>, before: &[u8]) -> Result<&'a [u8], CodecFault>
    ensures { Reads (λ x. x.now) (string_that 1 256 (comes_after before.now) fields.old) result fields.new }
{
    let length = fields.length(1, KEY)?;
    let at = fields.at();
    let key = fields.bytes(length)?;
    if !order::comes_after(before, key) {
        return Err(CodecFault::BadField(at));
    }
    Ok(key)
}
