//! Records of changes, read.
ghost use Rattle.std.specs.Prelude.{◌≡◌, ◌+◌, List, length, Ok, IfOk};
ghost use Rattle.std.specs.List.{AllByRecursion};
ghost use Rattle.command_codec.specs.Reader.{Reads, Says};
ghost use Rattle.vote_state.specs.declared.change.Change.{Change};
ghost use Rattle.vote_journal.specs.declared.record.First.{First};
ghost use Rattle.vote_journal.specs.Spelling.{changes_bytes, named_bytes, IsRecord, IsFirst, is_epoch_first};
ghost use Rattle.vote_state.specs.Valid.{IsChange};
ghost use Rattle.vote_journal.specs.Grammar.{is_newer, is_count, in_format, changes_of, first_of, first_size, first_at, changes_at, change_at, change_of_kind, epoch_at, promise_at, vote_at, trim_at};

use crate::First;
use command_codec::CodecFault;
use command_codec::parts::{read_ballot, read_inst, read_range, read_ring, read_value};
use command_codec::reading::Cursor;
use mrp_types::{NodeId, Voted};
use std::alloc::Global;
use vote_state::{Change, Changes};

/// The changes of a record that isn't the first, of all of its bytes, in either format.
pub fn read_changes(alloc: Global, bytes: &[u8]) -> Result<Changes, CodecFault>
    // What is read is spelled so, and has a spelling.
    ensures found { IfOk result (λ changes. IsRecord (length changes) (changes_bytes changes) bytes.now × AllByRecursion IsChange changes) }
    // What is spelled so is read, unless memory runs out.
    ensures only { (changes : List Change) → AllByRecursion IsChange changes → IsRecord (length changes) (changes_bytes changes) bytes.now → Says (λ c. c) (Ok changes) result }
    ensures exact { Says (λ c. c) (changes_of bytes.now) result }
{
    read_all(alloc, bytes)
}

fn read_all(alloc: Global, bytes: &[u8]) -> Result<Changes, CodecFault>
    ensures { Says (λ c. c) (changes_of bytes.now) result }
{
    let mut fields = Cursor::new(bytes);
    let changes = read_record(alloc, &mut fields, bytes.len(), is_second(bytes))?;
    fields.end()?;
    Ok(changes)
}

/// Whether the bytes of a record begin as format 2 does.
pub fn is_second(bytes: &[u8]) -> bool
    ensures { result ≡ is_newer bytes.now }
{
    matches!(bytes, [6, ..])
}

#[tactic(auto, unfolding(crate::specs::Grammar::numbered_at))]
fn read_record(
    alloc: Global,
    fields: &mut Cursor<'_>,
    most: usize,
    newer: bool,
) -> Result<Changes, CodecFault>
    ensures { Reads (λ c. c) (in_format newer (λ (changes : List Change). length changes) (changes_at most) fields.old) result fields.new }
{
    if !newer {
        return read_each(alloc, fields, most);
    }
    fields.byte()?;
    let at = fields.at();
    let count = fields.u32()?;
    let changes = read_each(alloc, fields, most)?;
    if !counts(count, changes.items().len()) {
        return Err(CodecFault::BadField(at));
    }
    Ok(changes)
}

fn counts(count: u32, size: usize) -> bool
    ensures { result ≡ is_count count size }
{
    0 < count && size == count as usize
}

/// Changes until nothing is left, at most so many.
fn read_each(alloc: Global, fields: &mut Cursor<'_>, most: usize) -> Result<Changes, CodecFault>
    ensures { Reads (λ c. c) (changes_at most fields.old) result fields.new }
{
    let mut changes = Changes::new(alloc);
    for _turn in 0..most {
        if fields.is_at_end() {
            return Ok(changes);
        }
        changes.push(read_change(alloc, fields)?)?;
    }
    Ok(changes)
}

#[tactic(auto, unfolding(crate::specs::Grammar::change_at))]
fn read_change(alloc: Global, fields: &mut Cursor<'_>) -> Result<Change, CodecFault>
    ensures { Reads (λ c. c) (change_at fields.old) result fields.new }
{
    let at = fields.at();
    let kind = fields.byte()?;
    read_of_kind(alloc, fields, at, kind)
}

#[tactic(auto, unfolding(crate::specs::Grammar::change_of_kind))]
fn read_of_kind(
    alloc: Global,
    fields: &mut Cursor<'_>,
    at: usize,
    kind: u8,
) -> Result<Change, CodecFault>
    ensures { Reads (λ c. c) (change_of_kind at kind fields.old) result fields.new }
{
    match kind {
        1 => read_epoch(fields),
        2 => read_promise(fields),
        3 => read_vote(alloc, fields),
        4 => read_trim(fields),
        _ => Err(CodecFault::BadKind(at)),
    }
}

#[tactic(auto, unfolding(crate::specs::Grammar::epoch_at))]
fn read_epoch(fields: &mut Cursor<'_>) -> Result<Change, CodecFault>
    ensures { Reads (λ c. c) (epoch_at fields.old) result fields.new }
{
    Ok(Change::Epoch(fields.u32()?))
}

#[tactic(auto, unfolding(crate::specs::Grammar::promise_at))]
fn read_promise(fields: &mut Cursor<'_>) -> Result<Change, CodecFault>
    ensures { Reads (λ c. c) (promise_at fields.old) result fields.new }
{
    let ring = read_ring(fields)?;
    let ballot = read_ballot(fields)?;
    Ok(Change::Promise(ring, ballot))
}

#[tactic(auto, unfolding(crate::specs::Grammar::vote_at))]
fn read_vote(alloc: Global, fields: &mut Cursor<'_>) -> Result<Change, CodecFault>
    ensures { Reads (λ c. c) (vote_at fields.old) result fields.new }
{
    let ring = read_ring(fields)?;
    let ballot = read_ballot(fields)?;
    let (lo, hi) = read_range(fields, 0)?;
    let value = read_value(alloc, fields, true, hi == lo + 1)?;
    let vote = Voted {
        lo,
        hi,
        ballot,
        value,
    };
    Ok(Change::Vote(ring, vote))
}

#[tactic(auto, unfolding(crate::specs::Grammar::trim_at))]
fn read_trim(fields: &mut Cursor<'_>) -> Result<Change, CodecFault>
    ensures { Reads (λ c. c) (trim_at fields.old) result fields.new }
{
    let ring = read_ring(fields)?;
    let inst = read_inst(fields)?;
    Ok(Change::Trim(ring, inst))
}

/// A first record of all of the bytes, in either format: the node, and its changes, of which the first is an epoch.
pub fn read_first(alloc: Global, bytes: &[u8]) -> Result<First, CodecFault>
    // What is read is spelled so, and has a spelling.
    ensures found { IfOk result (λ first. IsRecord (first_size first) (named_bytes first.node first.changes) bytes.now × IsFirst first) }
    // What is spelled so is read, unless memory runs out.
    ensures only { (first : First) → IsFirst first → IsRecord (first_size first) (named_bytes first.node first.changes) bytes.now → Says (λ f. f) (Ok first) result }
    ensures exact { Says (λ f. f) (first_of bytes.now) result }
{
    read_all_of_first(alloc, bytes)
}

fn read_all_of_first(alloc: Global, bytes: &[u8]) -> Result<First, CodecFault>
    ensures { Says (λ f. f) (first_of bytes.now) result }
{
    let mut fields = Cursor::new(bytes);
    let first = read_first_record(alloc, &mut fields, bytes.len(), is_second(bytes))?;
    fields.end()?;
    Ok(first)
}

#[tactic(auto, unfolding(crate::specs::Grammar::numbered_at))]
fn read_first_record(
    alloc: Global,
    fields: &mut Cursor<'_>,
    most: usize,
    newer: bool,
) -> Result<First, CodecFault>
    ensures { Reads (λ f. f) (in_format newer first_size (first_at most) fields.old) result fields.new }
{
    if !newer {
        return read_one_first(alloc, fields, most);
    }
    fields.byte()?;
    let at = fields.at();
    let count = fields.u32()?;
    let first = read_one_first(alloc, fields, most)?;
    if !counts(count, first.changes.items().len() + 1) {
        return Err(CodecFault::BadField(at));
    }
    Ok(first)
}

#[tactic(auto, unfolding(crate::specs::Grammar::first_at))]
fn read_one_first(alloc: Global, fields: &mut Cursor<'_>, most: usize) -> Result<First, CodecFault>
    ensures { Reads (λ f. f) (first_at most fields.old) result fields.new }
{
    let at = fields.at();
    let kind = fields.byte()?;
    if kind != 5 {
        return Err(CodecFault::BadKind(at));
    }
    let node = NodeId(fields.byte()?);
    let at = fields.at();
    let changes = read_each(alloc, fields, most)?;
    if !begins_with_epoch(changes.items()) {
        return Err(CodecFault::BadField(at));
    }
    Ok(First { node, changes })
}

fn begins_with_epoch(changes: &[Change]) -> bool
    ensures { result ≡ is_epoch_first changes.now }
{
    matches!(changes, [Change::Epoch(_), ..])
}
