//! Tuples: read from bytes, and told apart.

ghost use Rattle.std.specs.Prelude.{◌≡◌, ◌≤◌, ◌<◌, ◌^◌, IfOk, length};
ghost use Rattle.mrp_types.specs.Reading.{chain};
ghost use Rattle.mrp_types.specs.Tuples.{AreNexts};
ghost use Rattle.command_codec.specs.Reader.{Reads};
ghost use Rattle.frames.specs.Grammar.{next_at, after_ring, tuple_at};
ghost use Rattle.checkpoint.specs.Checkpoints.{is_after as is_after_lem, is_same_tuple};

use command_codec::CodecFault;
use command_codec::reading::Cursor;
use mrp_types::limits::LAST_RING;
use mrp_types::{END, Inst, RingId, Tuple};
use std::alloc::Global;

/// 1 to 16 rings that increase, each with its next instance.
#[tactic(auto, unfolding(frames::specs::Grammar::tuple_at))]
pub fn read_tuple(alloc: Global, fields: &mut Cursor<'_>) -> Result<Tuple, CodecFault>
    ensures { Reads (λ t. t) (tuple_at fields.old) result fields.new }
{
    let count = fields.byte_within(1, LAST_RING + 1)?;
    let pairs = read_nexts(alloc, fields, count)?;
    Ok(Tuple::from_pairs(&pairs))
}

fn read_nexts(
    alloc: Global,
    fields: &mut Cursor<'_>,
    count: u8,
) -> Result<Vec<(RingId, Inst)>, CodecFault>
    ensures exact { Reads (λ v. v.items) (chain next_at after_ring count 0 fields.old) result fields.new }
    ensures count { IfOk result (λ v. length v.items ≡ count) }
    ensures nexts { IfOk result (λ v. AreNexts 0 v.items) }
{
    let mut pairs = Vec::new(alloc);
    let mut least = 0;
    for _turn in 0..count {
        let next = read_next(fields, least)?;
        least = next.0.0 + 1;
        pairs.push(next)?;
    }
    Ok(pairs)
}

fn read_next(fields: &mut Cursor<'_>, least: u8) -> Result<(RingId, Inst), CodecFault>
    ensures exact { Reads (λ x. x) (next_at least fields.old) result fields.new }
    ensures least { IfOk result (λ x. least ≤ x.0.0) }
    ensures ring { IfOk result (λ x. x.0.0 < 16) }
    ensures inst { IfOk result (λ x. x.1 ≤ 2 ^ 40) }
{
    let ring = RingId(fields.byte_within(least, LAST_RING)?);
    let inst = fields.u64_within(0, END)?;
    Ok((ring, inst))
}

/// Whether the second tuple is greater than the first one at a ring.
pub fn is_after(own: &[(RingId, Inst)], others: &[(RingId, Inst)]) -> bool
    ensures { result ≡ is_after_lem own.now others.now }
{
    for i in 0..own.len() {
        if i >= others.len() {
            return false;
        }
        if own[i].1 < others[i].1 {
            return true;
        }
    }
    false
}

/// Whether two tuples are one: the same rings, and the same instance of each.
pub fn is_same(own: &[(RingId, Inst)], others: &[(RingId, Inst)]) -> bool
    ensures { result ≡ is_same_tuple own.now others.now }
{
    if own.len() != others.len() {
        return false;
    }
    for i in 0..own.len() {
        if own[i].0.0 != others[i].0.0 {
            return false;
        }
        if own[i].1 != others[i].1 {
            return false;
        }
    }
    true
}
