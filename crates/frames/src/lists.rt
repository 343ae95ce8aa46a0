//! Lists of ranges, and tuples, from bytes.

ghost use Rattle.std.specs.Prelude.{◌≡◌, ◌≤◌, ◌<◌, ◌^◌, IfOk, length};
ghost use Rattle.mrp_types.specs.Reading.{chain};
ghost use Rattle.command_codec.specs.Reader.{Reads};
ghost use Rattle.mrp_types.specs.Tuples.{IsTuple, AreNexts};
ghost use Rattle.mrp_types.specs.Values.{is_skip as is_skip_lem};
ghost use Rattle.frames.specs.Ranges.{nothing_before, after_vote, after_decided, may_skip};
ghost use Rattle.frames.specs.Grammar.{vote_at, votes_at, decided_at, ranges_at, next_at, after_ring, tuple_at};

use crate::BoxedTuple;
use command_codec::CodecFault;
use command_codec::parts::{read_ballot, read_range, read_value};
use command_codec::reading::Cursor;
use mrp_types::limits::LAST_RING;
use mrp_types::{Ballot, Decided, END, Inst, Ranges, RingId, Tuple, Value, Voted, Votes};
use std::alloc::Global;

/// What the range before leaves to ask of the next one: where it may begin, and whether a Skip of this ballot there
/// would be one range with it.
#[derive(Clone, Copy)]
pub struct Before {
    pub end: Inst,
    pub ballot: Ballot,
    pub skip: bool,
}

impl Before {
    /// Nothing was before.
    pub fn none() -> Self
        ensures { result ≡ nothing_before }
    {
        Before {
            end: 0,
            ballot: 0,
            skip: false,
        }
    }

    /// Whether a range that begins here may be Skip.
    pub fn may_skip(&self, lo: Inst, ballot: Ballot) -> bool
        ensures { result ≡ may_skip self.now lo ballot }
    {
        !(self.skip && lo == self.end && ballot == self.ballot)
    }

    pub fn after_vote(vote: &Voted) -> Self
        ensures { result ≡ after_vote vote.now }
    {
        Before {
            end: vote.hi,
            ballot: vote.ballot,
            skip: is_skip(&vote.value),
        }
    }

    pub fn after_decided(decided: &Decided) -> Self
        ensures { result ≡ after_decided decided.now }
    {
        Before {
            end: decided.hi,
            ballot: 0,
            skip: is_skip(&decided.value),
        }
    }
}

/// Whether a value is Skip.
pub fn is_skip(value: &Value) -> bool
    ensures { result ≡ is_skip_lem value.now }
{
    matches!(value, Value::Skip)
}

/// Any number of votes, in order and maximal.
#[tactic(auto, unfolding(crate::specs::Grammar::votes_at))]
pub fn read_votes(alloc: Global, fields: &mut Cursor<'_>) -> Result<Votes, CodecFault>
    ensures { Reads (λ v. v) (votes_at fields.old) result fields.new }
{
    let count = fields.u16()?;
    read_each_vote(alloc, fields, count)
}

fn read_each_vote(alloc: Global, fields: &mut Cursor<'_>, count: u16) -> Result<Votes, CodecFault>
    ensures { Reads (λ v. v) (chain vote_at after_vote count nothing_before fields.old) result fields.new }
{
    let mut votes = Votes::new(alloc);
    let mut before = Before::none();
    for _turn in 0..count {
        let vote = read_vote(alloc, fields, before)?;
        before = Before::after_vote(&vote);
        votes.push(vote)?;
    }
    Ok(votes)
}

#[tactic(auto, unfolding(crate::specs::Grammar::vote_at))]
fn read_vote(alloc: Global, fields: &mut Cursor<'_>, before: Before) -> Result<Voted, CodecFault>
    ensures { Reads (λ v. v) (vote_at before fields.old) result fields.new }
{
    let (lo, hi) = read_range(fields, before.end)?;
    let ballot = read_ballot(fields)?;
    let value = read_value(alloc, fields, before.may_skip(lo, ballot), hi == lo + 1)?;
    Ok(Voted {
        lo,
        hi,
        ballot,
        value,
    })
}

/// One decided range at least, in order and maximal.
#[tactic(auto, unfolding(crate::specs::Grammar::ranges_at))]
pub fn read_ranges(alloc: Global, fields: &mut Cursor<'_>) -> Result<Ranges, CodecFault>
    ensures { Reads (λ r. r) (ranges_at fields.old) result fields.new }
{
    let count = fields.u16_within(1, u16::MAX)?;
    read_each_range(alloc, fields, count)
}

fn read_each_range(alloc: Global, fields: &mut Cursor<'_>, count: u16) -> Result<Ranges, CodecFault>
    ensures { Reads (λ r. r) (chain decided_at after_decided count nothing_before fields.old) result fields.new }
{
    let mut ranges = Ranges::new(alloc);
    let mut before = Before::none();
    for _turn in 0..count {
        let decided = read_decided(alloc, fields, before)?;
        before = Before::after_decided(&decided);
        ranges.push(decided)?;
    }
    Ok(ranges)
}

#[tactic(auto, unfolding(crate::specs::Grammar::decided_at))]
fn read_decided(
    alloc: Global,
    fields: &mut Cursor<'_>,
    before: Before,
) -> Result<Decided, CodecFault>
    ensures { Reads (λ d. d) (decided_at before fields.old) result fields.new }
{
    let (lo, hi) = read_range(fields, before.end)?;
    let value = read_value(alloc, fields, before.may_skip(lo, 0), hi == lo + 1)?;
    Ok(Decided { lo, hi, value })
}

/// 1 to 16 rings that increase, each with its next instance.
#[tactic(auto, unfolding(crate::specs::Grammar::tuple_at))]
pub fn read_tuple(alloc: Global, fields: &mut Cursor<'_>) -> Result<BoxedTuple, CodecFault>
    ensures { Reads (λ t. t) (tuple_at fields.old) result fields.new }
{
    let count = fields.byte_within(1, LAST_RING + 1)?;
    let pairs = read_nexts(alloc, fields, count)?;
    Ok(BoxedTuple::new(alloc, Tuple::from_pairs(&pairs))?)
}

fn read_nexts(
    alloc: Global,
    fields: &mut Cursor<'_>,
    count: u8,
) -> Result<Vec<(RingId, Inst)>, CodecFault>
    ensures exact { Reads (λ v. v.items) (chain next_at after_ring count 0 fields.old) result fields.new }
    ensures count { IfOk result (λ v. length v.items ≡ count) }
    ensures nexts { IfOk result (λ v. AreNexts 0 v.items) }
{
    let mut pairs = Vec::new(alloc);
    let mut least = 0;
    for _turn in 0..count {
        let next = read_next(fields, least)?;
        least = next.0.0 + 1;
        pairs.push(next)?;
    }
    Ok(pairs)
}

fn read_next(fields: &mut Cursor<'_>, least: u8) -> Result<(RingId, Inst), CodecFault>
    ensures exact { Reads (λ x. x) (next_at least fields.old) result fields.new }
    ensures least { IfOk result (λ x. least ≤ x.0.0) }
    ensures ring { IfOk result (λ x. x.0.0 < 16) }
    ensures inst { IfOk result (λ x. x.1 ≤ 2 ^ 40) }
{
    let ring = RingId(fields.byte_within(least, LAST_RING)?);
    let inst = fields.u64_within(0, END)?;
    Ok((ring, inst))
}
