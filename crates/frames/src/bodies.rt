//! The bodies of the 19 kinds from bytes.

ghost use Rattle.std.specs.Prelude.{◌≡◌, ◌≤◌, ◌<◌, ◌^◌, IfOk, IsTrue, min};
ghost use Rattle.command_codec.specs.Reader.{Reads};
ghost use Rattle.frames.specs.Grammar.{body_of_kind, submit_at, prepare_at, promise_at, refuse_at, accept_at, decide_at, fetch_at, chosen_at, trimmed_at, ask_safe_at, safe_at, trim_to_at, ask_checkpoint_at, have_checkpoint_at, ask_part_at, part_at, gone_at, reply_at, most_hops as most_hops_lem, part_bytes_at, part_of};

use crate::Body;
use crate::lists::{read_ranges, read_tuple, read_votes};
use command_codec::CodecFault;
use command_codec::parts::{read_ballot, read_inst, read_range, read_ring, read_value};
use command_codec::reading::Cursor;
use mrp_types::{ClientId, Entry, Octets, PartitionId};
use std::alloc::Global;

// The most bytes of a part.
const PART: usize = 16_384;

/// The most bytes of a reply.
pub const REPLY: usize = 16_384;

/// What follows a sender in a frame of a kind of 1 to 19.
#[tactic(auto, unfolding(crate::specs::Grammar::body_of_kind))]
pub fn read_body(
    alloc: Global,
    fields: &mut Cursor<'_>,
    kind: u8,
    client: bool,
) -> Result<Body, CodecFault>
    ensures { Reads (λ b. b) (body_of_kind kind client fields.old) result fields.new }
{
    match kind {
        1 => read_submit(alloc, fields, client),
        2 => read_prepare(fields),
        3 => read_promise(alloc, fields),
        4 => read_refuse(fields),
        5 => read_accept(alloc, fields),
        6 => read_decide(alloc, fields),
        7 => read_fetch(fields),
        8 => read_chosen(alloc, fields),
        9 => read_trimmed(fields),
        10 => read_ask_safe(fields),
        11 => read_safe(fields),
        12 => read_trim_to(fields),
        13 => read_ask_checkpoint(fields),
        14 => read_have_checkpoint(alloc, fields),
        15 => read_ask_part(alloc, fields),
        16 => read_part(alloc, fields),
        17 => read_gone(alloc, fields),
        18 => read_reply(alloc, fields),
        _ => Ok(Body::Hello),
    }
}

#[tactic(auto, unfolding(crate::specs::Grammar::submit_at))]
fn read_submit(alloc: Global, fields: &mut Cursor<'_>, client: bool) -> Result<Body, CodecFault>
    ensures { Reads (λ b. b) (submit_at client fields.old) result fields.new }
{
    let ring = read_ring(fields)?;
    let hops = fields.byte_within(0, most_hops(client))?;
    let client = ClientId(fields.byte()?);
    let seq = fields.u64_within(1, Entry::LAST_SEQ)?;
    let command = fields.octets(alloc, 0, Entry::COMMAND)?;
    Ok(Body::Submit {
        ring,
        hops,
        client,
        seq,
        command,
    })
}

/// A command that a client sends was never passed on.
fn most_hops(client: bool) -> u8
    ensures { result ≡ most_hops_lem client }
{
    if client { 0 } else { 1 }
}

#[tactic(auto, unfolding(crate::specs::Grammar::prepare_at))]
fn read_prepare(fields: &mut Cursor<'_>) -> Result<Body, CodecFault>
    ensures { Reads (λ b. b) (prepare_at fields.old) result fields.new }
{
    let ring = read_ring(fields)?;
    let ballot = read_ballot(fields)?;
    let lo = read_inst(fields)?;
    Ok(Body::Prepare { ring, ballot, lo })
}

#[tactic(auto, unfolding(crate::specs::Grammar::promise_at))]
fn read_promise(alloc: Global, fields: &mut Cursor<'_>) -> Result<Body, CodecFault>
    ensures { Reads (λ b. b) (promise_at fields.old) result fields.new }
{
    let ring = read_ring(fields)?;
    let ballot = read_ballot(fields)?;
    let (lo, hi) = read_range(fields, 0)?;
    let trim = read_inst(fields)?;
    let votes = read_votes(alloc, fields)?;
    Ok(Body::Promise {
        ring,
        ballot,
        lo,
        hi,
        trim,
        votes,
    })
}

#[tactic(auto, unfolding(crate::specs::Grammar::refuse_at))]
fn read_refuse(fields: &mut Cursor<'_>) -> Result<Body, CodecFault>
    ensures { Reads (λ b. b) (refuse_at fields.old) result fields.new }
{
    let ring = read_ring(fields)?;
    let ballot = read_ballot(fields)?;
    let promise = read_ballot(fields)?;
    Ok(Body::Refuse {
        ring,
        ballot,
        promise,
    })
}

#[tactic(auto, unfolding(crate::specs::Grammar::accept_at))]
fn read_accept(alloc: Global, fields: &mut Cursor<'_>) -> Result<Body, CodecFault>
    ensures { Reads (λ b. b) (accept_at fields.old) result fields.new }
{
    let ring = read_ring(fields)?;
    let ballot = read_ballot(fields)?;
    let (lo, hi) = read_range(fields, 0)?;
    let mask = fields.byte()?;
    let value = read_value(alloc, fields, true, hi == lo + 1)?;
    Ok(Body::Accept {
        ring,
        ballot,
        lo,
        hi,
        mask,
        value,
    })
}

#[tactic(auto, unfolding(crate::specs::Grammar::decide_at))]
fn read_decide(alloc: Global, fields: &mut Cursor<'_>) -> Result<Body, CodecFault>
    ensures { Reads (λ b. b) (decide_at fields.old) result fields.new }
{
    let ring = read_ring(fields)?;
    let (lo, hi) = read_range(fields, 0)?;
    let left = fields.byte()?;
    let value = read_value(alloc, fields, true, hi == lo + 1)?;
    Ok(Body::Decide {
        ring,
        lo,
        hi,
        left,
        value,
    })
}

#[tactic(auto, unfolding(crate::specs::Grammar::fetch_at))]
fn read_fetch(fields: &mut Cursor<'_>) -> Result<Body, CodecFault>
    ensures { Reads (λ b. b) (fetch_at fields.old) result fields.new }
{
    let ring = read_ring(fields)?;
    let lo = read_inst(fields)?;
    Ok(Body::Fetch { ring, lo })
}

#[tactic(auto, unfolding(crate::specs::Grammar::chosen_at))]
fn read_chosen(alloc: Global, fields: &mut Cursor<'_>) -> Result<Body, CodecFault>
    ensures { Reads (λ b. b) (chosen_at fields.old) result fields.new }
{
    let ring = read_ring(fields)?;
    let ranges = read_ranges(alloc, fields)?;
    Ok(Body::Chosen { ring, ranges })
}

#[tactic(auto, unfolding(crate::specs::Grammar::trimmed_at))]
fn read_trimmed(fields: &mut Cursor<'_>) -> Result<Body, CodecFault>
    ensures { Reads (λ b. b) (trimmed_at fields.old) result fields.new }
{
    let ring = read_ring(fields)?;
    let inst = read_inst(fields)?;
    Ok(Body::Trimmed { ring, inst })
}

#[tactic(auto, unfolding(crate::specs::Grammar::ask_safe_at))]
fn read_ask_safe(fields: &mut Cursor<'_>) -> Result<Body, CodecFault>
    ensures { Reads (λ b. b) (ask_safe_at fields.old) result fields.new }
{
    let ring = read_ring(fields)?;
    let round = fields.u64()?;
    Ok(Body::AskSafe { ring, round })
}

#[tactic(auto, unfolding(crate::specs::Grammar::safe_at))]
fn read_safe(fields: &mut Cursor<'_>) -> Result<Body, CodecFault>
    ensures { Reads (λ b. b) (safe_at fields.old) result fields.new }
{
    let ring = read_ring(fields)?;
    let round = fields.u64()?;
    let inst = read_inst(fields)?;
    Ok(Body::Safe { ring, round, inst })
}

#[tactic(auto, unfolding(crate::specs::Grammar::trim_to_at))]
fn read_trim_to(fields: &mut Cursor<'_>) -> Result<Body, CodecFault>
    ensures { Reads (λ b. b) (trim_to_at fields.old) result fields.new }
{
    let ring = read_ring(fields)?;
    let inst = read_inst(fields)?;
    Ok(Body::TrimTo { ring, inst })
}

#[tactic(auto, unfolding(crate::specs::Grammar::ask_checkpoint_at))]
fn read_ask_checkpoint(fields: &mut Cursor<'_>) -> Result<Body, CodecFault>
    ensures { Reads (λ b. b) (ask_checkpoint_at fields.old) result fields.new }
{
    let epoch = fields.u32()?;
    let attempt = fields.u32()?;
    Ok(Body::AskCheckpoint { epoch, attempt })
}

#[tactic(auto, unfolding(crate::specs::Grammar::have_checkpoint_at))]
fn read_have_checkpoint(alloc: Global, fields: &mut Cursor<'_>) -> Result<Body, CodecFault>
    ensures { Reads (λ b. b) (have_checkpoint_at fields.old) result fields.new }
{
    let epoch = fields.u32()?;
    let attempt = fields.u32()?;
    let tuple = read_tuple(alloc, fields)?;
    Ok(Body::HaveCheckpoint {
        epoch,
        attempt,
        tuple,
    })
}

#[tactic(auto, unfolding(crate::specs::Grammar::ask_part_at))]
fn read_ask_part(alloc: Global, fields: &mut Cursor<'_>) -> Result<Body, CodecFault>
    ensures { Reads (λ b. b) (ask_part_at fields.old) result fields.new }
{
    let epoch = fields.u32()?;
    let attempt = fields.u32()?;
    let tuple = read_tuple(alloc, fields)?;
    let offset = fields.u64()?;
    Ok(Body::AskPart {
        epoch,
        attempt,
        tuple,
        offset,
    })
}

#[tactic(auto, unfolding(crate::specs::Grammar::part_at))]
fn read_part(alloc: Global, fields: &mut Cursor<'_>) -> Result<Body, CodecFault>
    ensures { Reads (λ b. b) (part_at fields.old) result fields.new }
{
    let epoch = fields.u32()?;
    let attempt = fields.u32()?;
    let tuple = read_tuple(alloc, fields)?;
    let offset = fields.u64()?;
    let total = fields.u64()?;
    let bytes = read_part_bytes(alloc, fields, offset, total)?;
    Ok(Body::Part {
        epoch,
        attempt,
        tuple,
        offset,
        total,
        bytes,
    })
}

/// As many bytes of a checkpoint as are there from an offset on, one at least.
#[tactic(auto, unfolding(crate::specs::Grammar::part_bytes_at))]
fn read_part_bytes(
    alloc: Global,
    fields: &mut Cursor<'_>,
    offset: u64,
    total: u64,
) -> Result<Octets, CodecFault>
    ensures { Reads (λ o. o) (part_bytes_at (offset, total) fields.old) result fields.new }
{
    let length = length_of_part(offset, total);
    fields.octets(alloc, length.max(1), length)
}

/// How many bytes of a checkpoint stand in the part from an offset on.
pub fn length_of_part(offset: u64, total: u64) -> usize
    ensures { result ≡ part_of (offset, total) }
{
    total.saturating_sub(offset).min(PART as u64) as usize
}

#[tactic(auto, unfolding(crate::specs::Grammar::gone_at))]
fn read_gone(alloc: Global, fields: &mut Cursor<'_>) -> Result<Body, CodecFault>
    ensures { Reads (λ b. b) (gone_at fields.old) result fields.new }
{
    let epoch = fields.u32()?;
    let attempt = fields.u32()?;
    let asked = read_tuple(alloc, fields)?;
    let newer = read_tuple(alloc, fields)?;
    Ok(Body::Gone {
        epoch,
        attempt,
        asked,
        newer,
    })
}

#[tactic(auto, unfolding(crate::specs::Grammar::reply_at))]
fn read_reply(alloc: Global, fields: &mut Cursor<'_>) -> Result<Body, CodecFault>
    ensures { Reads (λ b. b) (reply_at fields.old) result fields.new }
{
    let client = ClientId(fields.byte()?);
    let seq = fields.u64()?;
    let partition = PartitionId(fields.byte()?);
    let reply = fields.octets(alloc, 0, REPLY)?;
    Ok(Body::Reply {
        client,
        seq,
        partition,
        reply,
    })
}
