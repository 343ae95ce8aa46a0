//! What the partitions replied to a command.

ghost use Rattle.std.specs.Prelude.{◌≡◌, ◌<◌, ◌==◌, [], length, map, IfOk, OnErr};
ghost use Rattle.std.specs.List.{remove, list_any};
ghost use Rattle.protocol.specs.Client.{has_part, with_part};
ghost use Rattle.client_core.specs.Places.{place_in};

use command_codec::Reply;
use mrp_types::{Memory, PartitionId};
use std::alloc::Global;
use std::marker::Model;

/// The replies of the partitions that replied, in order of the partitions.
#[derive(Drop)]
pub struct Parts {
    from: Vec<PartitionId>,
    replies: Vec<Reply>,
}

impl Model for Parts {
    ghost use Rattle.std.specs.Prelude.{◌≡◌, List, length};
    ghost use Rattle.std.specs.List.{zip};
    ghost use Rattle.mrp_types.specs.declared.id.PartitionId.{PartitionId};
    ghost use Rattle.command_codec.specs.declared.reply.Reply.{Reply};

    ghost Value = { List (PartitionId × Reply) };

    ghost view = { λ p. zip p.from.items p.replies.items };

    ghost invariant = { λ p. length p.from.items ≡ length p.replies.items };
}

impl Parts {
    /// No reply yet.
    pub fn new(alloc: Global) -> Self
        ensures { result ≡ [] }
    {
        Parts {
            from: Vec::new(alloc),
            replies: Vec::new(alloc),
        }
    }

    /// Whether the partition replied.
    pub fn has(&self, partition: PartitionId) -> bool
        ensures { result ≡ has_part self.now partition }
    {
        has_id(&self.from, partition)
    }

    /// Puts a reply at its place and answers where it stands.
    pub fn insert(&mut self, partition: PartitionId, reply: Reply) -> Result<usize, Memory>
        ensures put { IfOk result (λ _. self.new ≡ with_part partition reply self.old) }
        ensures undone { IfOk result (λ at. remove self.new at ≡ self.old) }
        ensures inside { IfOk result (λ at. at < length self.new) }
        ensures kept { OnErr result (self.new ≡ self.old) }
    {
        let at = place_of(&self.from, partition);
        self.from.insert(at, partition)?;
        if self.replies.insert(at, reply).is_err() {
            self.from.remove(at);
            return Err(Memory);
        }
        Ok(at)
    }

    /// Takes out the reply that stands there.
    pub fn remove(&mut self, at: usize)
        requires { at < length self.old }
        ensures { self.new ≡ remove self.old at }
    {
        self.from.remove(at);
        self.replies.remove(at);
    }

    /// The replies in order of the partitions.
    pub fn replies(&self) -> &[Reply]
        ensures { result.now ≡ map (λ part. part.1) self.now }
    {
        &self.replies
    }
}

/// Whether the partition is one of these.
fn has_id(from: &[PartitionId], partition: PartitionId) -> bool
    ensures { result ≡ list_any (λ id. id.0 == partition.0) from.now }
{
    from.iter().any(|id| id.0 == partition.0)
}

/// How many of these come before the first one that is greater.
fn place_of(from: &[PartitionId], partition: PartitionId) -> usize
    ensures { result ≡ place_in partition.0 from.now }
{
    for (at, id) in from.iter().enumerate() {
        if partition.0 < id.0 {
            return at;
        }
    }
    from.len()
}
