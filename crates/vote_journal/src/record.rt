//! Records of changes, written.
ghost use Rattle.std.specs.Prelude.{◌≡◌, ◌+◌, ◌<◌, ◌^◌, ◌++◌, ◌∷◌, [], length, IfOk, OnOk};
ghost use Rattle.std.specs.List.{AllByRecursion};
ghost use Rattle.vote_journal.specs.Spelling.{vote_bytes, change_bytes, changes_bytes, record_bytes, first_bytes};
ghost use Rattle.vote_state.specs.Valid.{IsChange};
ghost use Rattle.command_codec.specs.Parts.{IsSpelled};

use command_codec::writing::{put_u8, put_u32, put_u64, put_value};
use mrp_types::{Memory, NodeId, Octets, RingId, Voted};
use std::alloc::Global;
use vote_state::{Change, Changes};

/// The first record of a journal: whose journal it is, and its first changes.
#[derive(Debug, Drop)]
pub struct First {
    pub node: NodeId,
    pub changes: Changes,
}

/// A record of these changes, in format 2. One of 2^32 - 1 changes or more, which no area has room for, is answered as a
/// want of memory.
pub fn write_changes(alloc: Global, changes: &Changes) -> Result<Octets, Memory>
    requires { AllByRecursion IsChange changes.now }
    ensures bytes { IfOk result (λ bytes. bytes ≡ record_bytes changes.now) }
    ensures count { OnOk result (length changes.now < 2 ^ 32) }
{
    let count = count(changes.items())?;
    let mut out = Octets::new(alloc);
    put_u8(&mut out, 6)?;
    put_u32(&mut out, count)?;
    put_changes(&mut out, changes.items())?;
    Ok(out)
}

/// A first record of a node's journal, in format 2, with the same limit.
pub fn write_first(alloc: Global, node: NodeId, changes: &Changes) -> Result<Octets, Memory>
    requires { AllByRecursion IsChange changes.now }
    ensures bytes { IfOk result (λ bytes. bytes ≡ first_bytes node changes.now) }
    ensures count { OnOk result (length changes.now + 1 < 2 ^ 32) }
{
    let count = count(changes.items())?;
    let mut out = Octets::new(alloc);
    put_u8(&mut out, 6)?;
    put_u32(&mut out, count + 1)?;
    put_u8(&mut out, 5)?;
    put_u8(&mut out, node.0)?;
    put_changes(&mut out, changes.items())?;
    Ok(out)
}

/// How many changes there are, where one more can still be counted.
fn count(changes: &[Change]) -> Result<u32, Memory>
    ensures { IfOk result (λ n. (n ≡ length changes.now) × (n + 1 < 2 ^ 32)) }
{
    match u32::try_from(changes.len()) {
        Ok(count) if count < u32::MAX => Ok(count),
        _ => Err(Memory),
    }
}

fn put_changes(out: &mut Octets, changes: &[Change]) -> Result<(), Memory>
    requires { AllByRecursion IsChange changes.now }
    ensures { OnOk result (out.new ≡ out.old ++ changes_bytes changes.now) }
{
    for change in changes {
        put_change(out, change)?;
    }
    Ok(())
}

fn put_change(out: &mut Octets, change: &Change) -> Result<(), Memory>
    requires { IsChange change.now }
    ensures { OnOk result (out.new ≡ out.old ++ change_bytes change.now) }
{
    match change {
        Change::Epoch(epoch) => {
            put_u8(out, 1)?;
            put_u32(out, *epoch)
        }
        Change::Promise(ring, ballot) => {
            put_ring(out, 2, *ring)?;
            put_u64(out, *ballot)
        }
        Change::Vote(ring, vote) => {
            put_ring(out, 3, *ring)?;
            put_vote(out, vote)
        }
        Change::Trim(ring, inst) => {
            put_ring(out, 4, *ring)?;
            put_u64(out, *inst)
        }
    }
}

fn put_ring(out: &mut Octets, kind: u8, ring: RingId) -> Result<(), Memory>
    ensures { OnOk result (out.new ≡ out.old ++ kind ∷ ring.0 ∷ []) }
{
    put_u8(out, kind)?;
    put_u8(out, ring.0)
}

#[tactic(auto, using(command_codec::proofs::PartLaws::value_fits))]
fn put_vote(out: &mut Octets, vote: &Voted) -> Result<(), Memory>
    requires { IsSpelled vote.now.value }
    ensures { OnOk result (out.new ≡ out.old ++ vote_bytes vote.now) }
{
    put_u64(out, vote.ballot)?;
    put_u64(out, vote.lo)?;
    put_u64(out, vote.hi)?;
    put_value(out, &vote.value)
}
