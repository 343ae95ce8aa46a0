//! A command without its answer.

ghost use Rattle.std.specs.Prelude.{◌≡◌, ◌≤◌, ◌<◌, ◌+◌, ◌%◌, ◌&&◌, not, ℕ, true, [], ◌∷◌, length, map, slice_get, None, Some, IfOk, OnOk, OnErr, MatchResult};
ghost use Rattle.mrp_types.specs.declared.id.ClientId.{ClientId};
ghost use Rattle.command_codec.specs.Grammar.{reply_of};
ghost use Rattle.command_codec.specs.Replies.{AreParts, joined, reply_bytes};
ghost use Rattle.command_codec.specs.Valid.{IsCommand};
ghost use Rattle.mrp_config.specs.Config.{ring_at, partition_at};
ghost use Rattle.mrp_config.specs.Routing.{is_concerned};
ghost use Rattle.mrp_config.specs.Valid.{IsValid};
ghost use Rattle.protocol.specs.Client.{Asked, ClientView, acceptors_of, submits, has_part, replied};
ghost use Rattle.client_core.specs.Calls.{Follows, TellsFault, sent_of};
ghost use Rattle.client_core.specs.Clients.{fault_in, fault_for};
ghost use Rattle.client_core.specs.Cores.{asked_of, core_of, left_by, line_of};
ghost use Rattle.client_core.specs.Counted.{ArePartsOf};

use crate::asking::{ReplyFault, Submit};
use crate::fitting::fits;
use crate::missing::{bits_missing, concerns};
use crate::parts::Parts;
use command_codec::{Command, join, read_reply, write_command, write_reply};
use frames::{Body, Frame};
use mrp_config::{Deployment, PartitionTable};
use mrp_types::{ClientId, Memory, NodeId, Octets, PartitionId, Party, RingId};
use std::alloc::Global;

/// A command that was asked and isn't answered yet.
#[derive(Drop)]
pub struct Waiting {
    pub seq: u64,
    pub command: Command,
    pub ring: RingId,
    /// How many ticks passed since it was last sent.
    pub ticks: u16,
    /// The position of the acceptor that it was last sent to.
    pub turn: u8,
    pub parts: Parts,
}

impl Waiting {
    /// The command for the acceptor of its ring at a position.
    pub fn submit(
        &self,
        alloc: Global,
        deployment: &Deployment,
        client: ClientId,
        turn: u8,
    ) -> Result<Submit, Memory>
        requires valid { IsCommand self.now.command }
        requires seat { turn < length (acceptors_of (ring_at deployment.now.rings self.now.ring.0)) }
        ensures { IfOk result (λ submit. (c : ClientView) (a : Asked) → c.id ≡ client → a.seq ≡ self.now.seq → a.command ≡ self.now.command → a.ring ≡ self.now.ring
            → a.tries % length (acceptors_of (ring_at deployment.now.rings a.ring.0)) ≡ turn → submits deployment.now c a ≡ sent_of submit ∷ []) }
    {
        let to = acceptor_of(deployment, self.ring, turn);
        let command = write_command(alloc, &self.command)?;
        let body = Body::Submit {
            ring: self.ring,
            hops: 0,
            client,
            seq: self.seq,
            command,
        };
        let from = Party::Client(client);
        Ok(Submit {
            to,
            frame: Frame { from, body },
        })
    }

    /// A reply of a partition to the command of a number. Answers the written join of all replies once none is missing.
    pub fn reply(
        &mut self,
        alloc: Global,
        deployment: &Deployment,
        seq: u64,
        partition: PartitionId,
        bytes: &[u8],
    ) -> Result<Option<Octets>, ReplyFault>
        requires config { IsValid deployment.now }
        requires valid { IsCommand self.old.command }
        requires parts { ArePartsOf self.old.command deployment.now.partitions self.old.parts }
        requires short { length bytes.now ≤ 16384 }
        ensures taken { IfOk result (λ answer. (id : ClientId) (next : ℕ) → Follows (core_of deployment.now id next (Some self.old)) (core_of deployment.now id next (left_by answer self.new))
            (λ config c. replied config c seq partition bytes.now) [] (line_of id seq answer)) }
        ensures same { OnOk result (self.new ≡ record self.old { parts = self.new.parts }) }
        ensures parts { OnOk result (ArePartsOf self.old.command deployment.now.partitions self.new.parts) }
        ensures kept { OnErr result (self.new ≡ self.old) }
        ensures fault { MatchResult result (λ _. fault_for deployment.now seq partition bytes.now (Some (asked_of self.old)) ≡ None)
            (λ fault. TellsFault fault (fault_for deployment.now seq partition bytes.now (Some (asked_of self.old)))) }
    {
        if self.seq != seq {
            return Ok(None);
        }
        let Some(p) = deployment.partition(partition) else {
            return Ok(None);
        };
        if !self.awaits(deployment, p) {
            return Ok(None);
        }
        self.take(alloc, deployment, p, bytes)
    }

    /// Whether the partition is concerned and hasn't replied.
    fn awaits(&self, deployment: &Deployment, p: &PartitionTable) -> bool
        requires config { IsValid deployment.now }
        requires there { partition_at deployment.now.partitions p.now.id.0 ≡ Some p.now }
        ensures { result ≡ (is_concerned self.now.command p.now && not (has_part self.now.parts p.now.id)) }
    {
        concerns(deployment, &self.command, p) && !self.parts.has(p.id)
    }

    /// Takes a reply of a concerned partition that hasn't replied, and answers the written join of all once none is missing.
    fn take(
        &mut self,
        alloc: Global,
        deployment: &Deployment,
        p: &PartitionTable,
        bytes: &[u8],
    ) -> Result<Option<Octets>, ReplyFault>
        requires config { IsValid deployment.now }
        requires valid { IsCommand self.old.command }
        requires parts { ArePartsOf self.old.command deployment.now.partitions self.old.parts }
        requires there { partition_at deployment.now.partitions p.now.id.0 ≡ Some p.now }
        requires awaited { (is_concerned self.old.command p.now && not (has_part self.old.parts p.now.id)) ≡ true }
        requires short { length bytes.now ≤ 16384 }
        ensures taken { IfOk result (λ answer. (id : ClientId) (next : ℕ) → Follows (core_of deployment.now id next (Some self.old)) (core_of deployment.now id next (left_by answer self.new))
            (λ config c. replied config c self.old.seq p.now.id bytes.now) [] (line_of id self.old.seq answer)) }
        ensures same { OnOk result (self.new ≡ record self.old { parts = self.new.parts }) }
        ensures parts { OnOk result (ArePartsOf self.old.command deployment.now.partitions self.new.parts) }
        ensures kept { OnErr result (self.new ≡ self.old) }
        ensures fault { MatchResult result (λ _. fault_in (reply_of bytes.now) ≡ None) (λ fault. TellsFault fault (fault_in (reply_of bytes.now))) }
    {
        let reply = read_reply(alloc, bytes)?;
        if !fits(p, &self.command, &reply) {
            return Ok(None);
        }
        let at = self.parts.insert(p.id, reply)?;
        if bits_missing(deployment, &self.command, &self.parts) != 0 {
            return Ok(None);
        }
        match join_parts(alloc, &self.parts) {
            Ok(joined) => Ok(Some(joined)),
            Err(memory) => {
                self.parts.remove(at);
                Err(memory.into())
            }
        }
    }
}

/// The written join of the replies.
fn join_parts(alloc: Global, parts: &Parts) -> Result<Octets, Memory>
    requires { AreParts (map (λ part. part.1) parts.now) }
    ensures { IfOk result (λ bytes. bytes ≡ reply_bytes (joined (map (λ part. part.1) parts.now))) }
{
    let reply = join(alloc, parts.replies())?;
    write_reply(alloc, &reply)
}

/// The position after this one, round and round.
pub fn next_turn(deployment: &Deployment, ring: RingId, turn: u8) -> u8
    requires { turn < length (acceptors_of (ring_at deployment.now.rings ring.0)) }
    ensures { result ≡ (turn + 1) % length (acceptors_of (ring_at deployment.now.rings ring.0)) }
{
    let Some(table) = deployment.ring(ring) else {
        unreachable!()
    };
    let count = table.acceptors.len();
    if turn + 1 < count { turn + 1 } else { 0 }
}

/// The acceptor of a ring at a position.
fn acceptor_of(deployment: &Deployment, ring: RingId, turn: u8) -> NodeId
    requires { turn < length (acceptors_of (ring_at deployment.now.rings ring.0)) }
    ensures { slice_get (acceptors_of (ring_at deployment.now.rings ring.0)) turn ≡ Some result }
{
    let Some(table) = deployment.ring(ring) else {
        unreachable!()
    };
    let Some(node) = table.acceptors.at(turn) else {
        unreachable!()
    };
    node
}
