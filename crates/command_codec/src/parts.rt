//! Parts that records, frames and checkpoints share: rings, ballots, instances, ranges and values.

ghost use Rattle.std.specs.Prelude.{◌≡◌, ◌<◌, ◌≤◌, ◌^◌, IfOk, if◌then◌else◌, Ok, Err};
ghost use Rattle.mrp_types.specs.declared.value.Value.TheVariants.{Skip};
ghost use Rattle.command_codec.specs.declared.fault.CodecFault.TheVariants.{BadField};
ghost use Rattle.command_codec.specs.Reader.{Reads, WantsNone};
ghost use Rattle.command_codec.specs.Parts.{ring_at, ballot_at, inst_at, range_from, value_at, spells_skip};

use crate::reading::Cursor;
use crate::{CodecFault, is_batch};
use mrp_types::limits::{LAST_BALLOT, LAST_RING, VALUE};
use mrp_types::{Ballot, END, Inst, Payload, RingId, Value};
use std::alloc::Global;

/// The next byte as a ring, which is below 16.
pub fn read_ring(fields: &mut Cursor<'_>) -> Result<RingId, CodecFault>
    ensures exact { Reads (λ r. r) (ring_at fields.old) result fields.new }
    ensures sure { WantsNone result }
{
    Ok(RingId(fields.byte_within(0, LAST_RING)?))
}

/// The next eight bytes as a ballot, which is below 2^48.
pub fn read_ballot(fields: &mut Cursor<'_>) -> Result<Ballot, CodecFault>
    ensures exact { Reads (λ n. n) (ballot_at fields.old) result fields.new }
    ensures sure { WantsNone result }
{
    fields.u64_within(0, LAST_BALLOT)
}

/// The next eight bytes as an instance, which is below the end of all.
pub fn read_inst(fields: &mut Cursor<'_>) -> Result<Inst, CodecFault>
    ensures exact { Reads (λ n. n) (inst_at fields.old) result fields.new }
    ensures sure { WantsNone result }
{
    fields.u64_within(0, END - 1)
}

/// The first instance of a range, which is at least `least`, and the first one past it.
pub fn read_range(fields: &mut Cursor<'_>, least: Inst) -> Result<(Inst, Inst), CodecFault>
    ensures exact { Reads (λ r. r) (range_from least fields.old) result fields.new }
    ensures sure { WantsNone result }
    ensures low { IfOk result (λ r. r.0 < 2 ^ 40) }
    ensures high { IfOk result (λ r. r.1 ≤ 2 ^ 40) }
{
    let lo = fields.u64_within(least, END - 1)?;
    let hi = fields.u64_within(lo + 1, END)?;
    Ok((lo, hi))
}

/// A value with its length: Skip where `skips` says that it may stand, a batch where `alone` says that the range has
/// one instance.
#[tactic(auto, unfolding(crate::specs::Parts::value_at, crate::specs::Reader::string_that))]
pub fn read_value(
    alloc: Global,
    fields: &mut Cursor<'_>,
    skips: bool,
    alone: bool,
) -> Result<Value, CodecFault>
    ensures { Reads (λ v. v) (value_at skips alone fields.old) result fields.new }
{
    let length = fields.length(0, VALUE)?;
    let at = fields.at();
    let bytes = fields.bytes(length)?;
    if is_skip(bytes) {
        return skip_if(skips, at);
    }
    if !alone {
        return Err(CodecFault::BadField(at));
    }
    if !is_batch(bytes) {
        return Err(CodecFault::BadField(at));
    }
    Ok(Value::Batch(Payload::from_slice(alloc, bytes)?))
}

fn skip_if(skips: bool, at: usize) -> Result<Value, CodecFault>
    ensures { result ≡ (if skips then Ok Skip else Err (BadField at)) }
{
    if skips {
        Ok(Value::Skip)
    } else {
        Err(CodecFault::BadField(at))
    }
}

fn is_skip(bytes: &[u8]) -> bool
    ensures { result ≡ spells_skip bytes.now }
{
    matches!(bytes, [0])
}
