//! Frames as bytes.

ghost use Rattle.std.specs.Prelude.{◌≡◌, ◌≤◌, ◌++◌, ◌∷◌, length, IfOk, OnOk};
ghost use Rattle.std.specs.List.{AllByRecursion};
ghost use Rattle.command_codec.specs.Fields.{u32_bytes, u64_bytes};
ghost use Rattle.command_codec.specs.Parts.{IsSpelled};
ghost use Rattle.frames.specs.Spelling.{frame_bytes, body_bytes, party_bytes, kind_of_body, vote_bytes, votes_bytes, decided_bytes, ranges_bytes, tuple_bytes};
ghost use Rattle.frames.specs.Valid.{IsFrame, IsBody};
ghost use Rattle.mrp_types.specs.declared.voted.Voted.{Voted as SomeVoted};
ghost use Rattle.mrp_types.specs.declared.voted.Decided.{Decided as SomeDecided};

use crate::reading::VERSION;
use crate::{Body, Frame};
use command_codec::writing::{put_string16, put_u8, put_u16, put_u32, put_u64, put_value};
use mrp_types::{Decided, Inst, Memory, Octets, Party, RingId, Tuple, Voted};
use std::alloc::Global;

/// The one spelling of a frame that has one.
pub fn write(alloc: Global, frame: &Frame) -> Result<Octets, Memory>
    requires { IsFrame frame.now }
    ensures { IfOk result (λ bytes. bytes ≡ frame_bytes frame.now) }
{
    let mut out = Octets::new(alloc);
    out.extend(&[0x4d, 0x52, VERSION, kind_number(&frame.body)])?;
    put_party(&mut out, frame.from)?;
    put_body(&mut out, &frame.body)?;
    Ok(out)
}

fn kind_number(body: &Body) -> u8
    ensures { result ≡ kind_of_body body.now }
{
    match body {
        Body::Submit { .. } => 1,
        Body::Prepare { .. } => 2,
        Body::Promise { .. } => 3,
        Body::Refuse { .. } => 4,
        Body::Accept { .. } => 5,
        Body::Decide { .. } => 6,
        Body::Fetch { .. } => 7,
        Body::Chosen { .. } => 8,
        Body::Trimmed { .. } => 9,
        Body::AskSafe { .. } => 10,
        Body::Safe { .. } => 11,
        Body::TrimTo { .. } => 12,
        Body::AskCheckpoint { .. } => 13,
        Body::HaveCheckpoint { .. } => 14,
        Body::AskPart { .. } => 15,
        Body::Part { .. } => 16,
        Body::Gone { .. } => 17,
        Body::Reply { .. } => 18,
        Body::Hello => 19,
    }
}

fn put_party(out: &mut Octets, party: Party) -> Result<(), Memory>
    ensures { OnOk result (out.new ≡ out.old ++ party_bytes party) }
{
    match party {
        Party::Node(node) => out.extend(&[0, node.0]),
        Party::Client(client) => out.extend(&[1, client.0]),
    }
}

/// The fields of a body in order.
#[tactic(auto, using(crate::proofs::Lengths::votes_spelled, crate::proofs::Lengths::ranges_spelled, command_codec::proofs::PartLaws::value_fits))]
fn put_body(out: &mut Octets, body: &Body) -> Result<(), Memory>
    requires { IsBody body.now }
    ensures { OnOk result (out.new ≡ out.old ++ body_bytes body.now) }
{
    match body {
        Body::Submit {
            ring,
            hops,
            client,
            seq,
            command,
        } => {
            out.extend(&[ring.0, *hops, client.0])?;
            put_u64(out, *seq)?;
            put_string16(out, command.bytes())
        }
        Body::Prepare { ring, ballot, lo } => put_two(out, *ring, *ballot, *lo),
        Body::Promise {
            ring,
            ballot,
            lo,
            hi,
            trim,
            votes,
        } => {
            put_two(out, *ring, *ballot, *lo)?;
            put_u64(out, *hi)?;
            put_u64(out, *trim)?;
            put_votes(out, votes.items())
        }
        Body::Refuse {
            ring,
            ballot,
            promise,
        } => put_two(out, *ring, *ballot, *promise),
        Body::Accept {
            ring,
            ballot,
            lo,
            hi,
            mask,
            value,
        } => {
            put_two(out, *ring, *ballot, *lo)?;
            put_u64(out, *hi)?;
            put_u8(out, *mask)?;
            put_value(out, value)
        }
        Body::Decide {
            ring,
            lo,
            hi,
            left,
            value,
        } => {
            put_two(out, *ring, *lo, *hi)?;
            put_u8(out, *left)?;
            put_value(out, value)
        }
        Body::Fetch { ring, lo } => put_one(out, *ring, *lo),
        Body::Chosen { ring, ranges } => {
            put_u8(out, ring.0)?;
            put_ranges(out, ranges.items())
        }
        Body::Trimmed { ring, inst } => put_one(out, *ring, *inst),
        Body::AskSafe { ring, round } => put_one(out, *ring, *round),
        Body::Safe { ring, round, inst } => put_two(out, *ring, *round, *inst),
        Body::TrimTo { ring, inst } => put_one(out, *ring, *inst),
        Body::AskCheckpoint { epoch, attempt } => put_attempt(out, *epoch, *attempt),
        Body::HaveCheckpoint {
            epoch,
            attempt,
            tuple,
        } => put_checkpoint(out, *epoch, *attempt, tuple.tuple()),
        Body::AskPart {
            epoch,
            attempt,
            tuple,
            offset,
        } => {
            put_checkpoint(out, *epoch, *attempt, tuple.tuple())?;
            put_u64(out, *offset)
        }
        Body::Part {
            epoch,
            attempt,
            tuple,
            offset,
            total,
            bytes,
        } => {
            put_checkpoint(out, *epoch, *attempt, tuple.tuple())?;
            put_u64(out, *offset)?;
            put_u64(out, *total)?;
            put_string16(out, bytes.bytes())
        }
        Body::Gone {
            epoch,
            attempt,
            asked,
            newer,
        } => {
            put_checkpoint(out, *epoch, *attempt, asked.tuple())?;
            put_tuple(out, newer.tuple().pairs())
        }
        Body::Reply {
            client,
            seq,
            partition,
            reply,
        } => {
            put_u8(out, client.0)?;
            put_u64(out, *seq)?;
            put_u8(out, partition.0)?;
            put_string16(out, reply.bytes())
        }
        Body::Hello => Ok(()),
    }
}

fn put_one(out: &mut Octets, ring: RingId, number: u64) -> Result<(), Memory>
    ensures { OnOk result (out.new ≡ out.old ++ ring.0 ∷ u64_bytes number) }
{
    put_u8(out, ring.0)?;
    put_u64(out, number)
}

fn put_two(out: &mut Octets, ring: RingId, first: u64, second: u64) -> Result<(), Memory>
    ensures { OnOk result (out.new ≡ out.old ++ ring.0 ∷ (u64_bytes first ++ u64_bytes second)) }
{
    put_u8(out, ring.0)?;
    put_u64(out, first)?;
    put_u64(out, second)
}

fn put_attempt(out: &mut Octets, epoch: u32, attempt: u32) -> Result<(), Memory>
    ensures { OnOk result (out.new ≡ out.old ++ (u32_bytes epoch ++ u32_bytes attempt)) }
{
    put_u32(out, epoch)?;
    put_u32(out, attempt)
}

fn put_checkpoint(out: &mut Octets, epoch: u32, attempt: u32, tuple: &Tuple) -> Result<(), Memory>
    ensures { OnOk result (out.new ≡ out.old ++ (u32_bytes epoch ++ (u32_bytes attempt ++ tuple_bytes tuple.now))) }
{
    put_attempt(out, epoch, attempt)?;
    put_tuple(out, tuple.pairs())
}

fn put_tuple(out: &mut Octets, pairs: &[(RingId, Inst)]) -> Result<(), Memory>
    requires { length pairs.now ≤ 16 }
    ensures { OnOk result (out.new ≡ out.old ++ tuple_bytes pairs.now) }
{
    put_u8(out, pairs.len() as u8)?;
    for next in pairs {
        put_one(out, next.0, next.1)?;
    }
    Ok(())
}

fn put_votes(out: &mut Octets, votes: &[Voted]) -> Result<(), Memory>
    requires few { length votes.now ≤ 65535 }
    requires spelled { AllByRecursion (λ (v : SomeVoted). IsSpelled v.value) votes.now }
    ensures { OnOk result (out.new ≡ out.old ++ votes_bytes votes.now) }
{
    put_u16(out, votes.len() as u16)?;
    for vote in votes {
        put_vote(out, vote)?;
    }
    Ok(())
}

#[tactic(auto, using(command_codec::proofs::PartLaws::value_fits))]
fn put_vote(out: &mut Octets, vote: &Voted) -> Result<(), Memory>
    requires { IsSpelled vote.now.value }
    ensures { OnOk result (out.new ≡ out.old ++ vote_bytes vote.now) }
{
    put_u64(out, vote.lo)?;
    put_u64(out, vote.hi)?;
    put_u64(out, vote.ballot)?;
    put_value(out, &vote.value)
}

fn put_ranges(out: &mut Octets, ranges: &[Decided]) -> Result<(), Memory>
    requires few { length ranges.now ≤ 65535 }
    requires spelled { AllByRecursion (λ (d : SomeDecided). IsSpelled d.value) ranges.now }
    ensures { OnOk result (out.new ≡ out.old ++ ranges_bytes ranges.now) }
{
    put_u16(out, ranges.len() as u16)?;
    for decided in ranges {
        put_decided(out, decided)?;
    }
    Ok(())
}

#[tactic(auto, using(command_codec::proofs::PartLaws::value_fits))]
fn put_decided(out: &mut Octets, decided: &Decided) -> Result<(), Memory>
    requires { IsSpelled decided.now.value }
    ensures { OnOk result (out.new ≡ out.old ++ decided_bytes decided.now) }
{
    put_u64(out, decided.lo)?;
    put_u64(out, decided.hi)?;
    put_value(out, &decided.value)
}
