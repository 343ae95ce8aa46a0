//! Entries from bytes.

ghost use Rattle.std.specs.Prelude.{◌≡◌, ◌≤◌, IfOk, IsTrue};
ghost use Rattle.command_codec.specs.Reader.{Reads, string_that, string_at, length_at};
ghost use Rattle.command_codec.specs.Grammar.{comes_after as comes_after_lem, table_entry_at};
ghost use Rattle.command_codec.specs.Valid.{IsKey, IsStored};

use command_codec::CodecFault;
use command_codec::reading::Cursor;
use mrp_types::limits::{KEY, STORED};
use std::cmp::Ordering;

/// A key after the one before it, and its value, where they stand in what is read.
#[tactic(auto, unfolding(command_codec::specs::Grammar::table_entry_at))]
pub fn read_entry<'a>(
    fields: &mut Cursor<'a>,
    before: &[u8],
) -> Result<(&'a [u8], &'a [u8]), CodecFault>
    ensures exact { Reads (λ x. record { key = x.0.now; value = x.1.now }) (table_entry_at before.now fields.old) result fields.new }
    ensures key { IfOk result (λ x. IsKey x.0.now) }
    ensures value { IfOk result (λ x. IsStored x.1.now) }
    ensures after { IfOk result (λ x. IsTrue (comes_after_lem before.now x.0.now)) }
{
    let key = read_key(fields, before)?;
    let value = read_value(fields)?;
    Ok((key, value))
}

fn read_value<'a>(fields: &mut Cursor<'a>) -> Result<&'a [u8], CodecFault>
    ensures exact { Reads (λ x. x.now) (string_at 0 2048 fields.old) result fields.new }
    ensures short { IfOk result (λ x. IsStored x.now) }
{
    fields.string(0, STORED)
}

#[tactic(auto, unfolding(command_codec::specs::Reader::string_that))]
fn read_key<'a>(fields: &mut Cursor<'a>, before: &[u8]) -> Result<&'a [u8], CodecFault>
    ensures exact { Reads (λ x. x.now) (string_that 1 256 (comes_after_lem before.now) fields.old) result fields.new }
    ensures key { IfOk result (λ x. IsKey x.now) }
    ensures after { IfOk result (λ x. IsTrue (comes_after_lem before.now x.now)) }
{
    let length = read_length(fields)?;
    let at = fields.at();
    let key = fields.bytes(length)?;
    if !comes_after(before, key) {
        return Err(CodecFault::BadField(at));
    }
    Ok(key)
}

fn read_length(fields: &mut Cursor<'_>) -> Result<usize, CodecFault>
    ensures exact { Reads (λ n. n) (length_at 1 256 fields.old) result fields.new }
    ensures range { IfOk result (λ n. (1 ≤ n) × (n ≤ 256)) }
{
    fields.length(1, KEY)
}

fn comes_after(before: &[u8], key: &[u8]) -> bool
    ensures { result ≡ comes_after_lem before.now key.now }
{
    before.cmp(key) == Ordering::Less
}
