//! One attempt of recovery.

ghost use Rattle.std.specs.Prelude.{ℕ, ◌≡◌, ◌≤◌, ◌==◌, ◌&&◌, Some, IsSome, OnOk, length, true};
ghost use Rattle.std.specs.Option.{option_map};
ghost use Rattle.mrp_types.specs.declared.id.NodeId.{NodeId};
ghost use Rattle.mrp_types.specs.Members.{is_member};
ghost use Rattle.mrp_types.specs.Seats.{numbers_of_nodes};
ghost use Rattle.mrp_config.specs.declared.tables.PartitionTable.{PartitionTable};
ghost use Rattle.mrp_config.specs.Config.{partition_at, has_node};
ghost use Rattle.mrp_config.specs.Valid.{AreAtMost};
ghost use Rattle.checkpoint.specs.Checkpoints.{is_same_tuple};
ghost use Rattle.protocol.specs.Node.{Choice};
ghost use Rattle.recovery.specs.Attempts.{begun, choice_by, fresh, heard, is_heard, parted, is_parted, is_missing_at, gone, is_gone, is_lost, ticked, is_named, awaits};
ghost use Rattle.recovery.specs.Turns.{Says, turn_of, tick_turn, end_of};

use crate::answers::{Answers, best, have, is_after, is_same};
use crate::turns::{Missing, Turn};
use mrp_config::Deployment;
use mrp_types::{Members, Memory, NodeId, Octets, PartitionId, Seats, Tuple};
use std::alloc::Global;
use std::marker::Model;

/// The checkpoint that is chosen.
#[derive(Clone, Copy)]
pub struct Chosen {
    pub tuple: Tuple,
    pub from: NodeId,
}

/// An attempt of a replica to find the newest checkpoint of a quorum of its partition, and to gather its bytes.
#[derive(Drop)]
pub struct Recovery {
    own: NodeId,
    epoch: u32,
    replicas: Seats,
    needed: u8,
    limit: u16,
    number: u32,
    ticks: u16,
    answers: Answers,
    choice: Option<Chosen>,
    bytes: Octets,
    whole: bool,
    changed: bool,
}

impl Model for Recovery {
    ghost use Rattle.recovery.specs.Attempts.{Trying};
    ghost use Rattle.recovery.specs.Kept.{choice_with, IsTrying};

    ghost Value = { Trying };

    ghost view = { λ r. record {
      own = r.own;
      epoch = r.epoch;
      replicas = r.replicas;
      needed = r.needed;
      limit = r.limit;
      attempt = record { number = r.number; ticks = r.ticks; answers = r.answers; choice = choice_with r.bytes r.choice };
      whole = r.whole;
      changed = r.changed;
    } };

    ghost invariant = { λ r. IsTrying (record {
      own = r.own;
      epoch = r.epoch;
      replicas = r.replicas;
      needed = r.needed;
      limit = r.limit;
      attempt = record { number = r.number; ticks = r.ticks; answers = r.answers; choice = choice_with r.bytes r.choice };
      whole = r.whole;
      changed = r.changed;
    }) };
}

impl Recovery {
    /// An attempt of a number that has the own answer alone: the tuple of the newest own checkpoint.
    pub fn begin(
        alloc: Global,
        deployment: &Deployment,
        p: PartitionId,
        own: NodeId,
        epoch: u32,
        attempt: u32,
        tuple: Tuple,
    ) -> Recovery
        requires { IsSome (partition_at deployment.now.partitions p.0) }
        ensures { (partition : PartitionTable) → partition_at deployment.now.partitions p.0 ≡ Some partition → result ≡ begun deployment.now partition own epoch attempt tuple }
    {
        let size = size_of(deployment, p);
        let answers = Answers::first(own, tuple);
        let choice = choose(own, size.needed, &answers);
        Recovery {
            own,
            epoch,
            replicas: size.replicas,
            needed: size.needed,
            limit: size.limit,
            number: attempt,
            ticks: 0,
            answers,
            choice,
            bytes: Octets::new(alloc),
            whole: false,
            changed: choice.is_some(),
        }
    }

    /// An answer of a replica: the tuple of its newest checkpoint. The first one of each counts, until there is a choice.
    pub fn on_have(&mut self, from: NodeId, epoch: u32, attempt: u32, tuple: Tuple)
        ensures { self.new ≡ heard from epoch attempt tuple self.old }
    {
        self.changed = false;
        if !self.hears(from, epoch, attempt) {
            return;
        }
        self.answers.push(from, tuple);
        self.bytes.clear();
        self.choice = choose(self.own, self.needed, &self.answers);
        self.whole = false;
        self.changed = self.choice.is_some();
    }

    /// Whether an answer counts.
    fn hears(&self, from: NodeId, epoch: u32, attempt: u32) -> bool
        ensures { result ≡ is_heard from epoch attempt self.now }
    {
        self.is_named(epoch, attempt)
            && is_one_of(self.replicas.items(), from)
            && !have(self.answers.items(), from)
            && self.choice.is_none()
    }

    /// A part of the chosen state. It counts where it comes from the chosen node, at the missing offset. Without memory the
    /// attempt is spent.
    pub fn on_part(
        &mut self,
        from: NodeId,
        epoch: u32,
        attempt: u32,
        tuple: Tuple,
        offset: u64,
        total: u64,
        bytes: &[u8],
    ) -> Result<(), Memory>
        ensures { OnOk result (self.new ≡ parted from epoch attempt tuple offset total bytes.now self.old) }
    {
        self.changed = false;
        if !self.takes(from, epoch, attempt, &tuple, offset) {
            return Ok(());
        }
        self.bytes.extend(bytes)?;
        self.whole = self.bytes.len() as u64 == total;
        Ok(())
    }

    /// Whether a part counts.
    fn takes(&self, from: NodeId, epoch: u32, attempt: u32, tuple: &Tuple, offset: u64) -> bool
        ensures { result ≡ is_parted from epoch attempt tuple.now offset self.now }
    {
        self.is_named(epoch, attempt) && self.is_missing_at(from, tuple, offset) && !self.whole
    }

    /// Whether a tuple is the chosen one, a node the one of which it is, and an offset that of the missing bytes.
    fn is_missing_at(&self, from: NodeId, tuple: &Tuple, offset: u64) -> bool
        ensures { result ≡ is_missing_at self.now.attempt.choice from tuple.now offset }
    {
        let Some(choice) = &self.choice else {
            return false;
        };
        is_from(choice, from, tuple) && offset == self.bytes.len() as u64
    }

    /// The chosen checkpoint is gone. A newer one of the same node takes its place, from its first byte on.
    pub fn on_gone(&mut self, from: NodeId, epoch: u32, attempt: u32, asked: Tuple, newer: Tuple)
        ensures { self.new ≡ gone from epoch attempt asked newer self.old }
    {
        self.changed = false;
        if !self.loses(from, epoch, attempt, &asked, &newer) {
            return;
        }
        self.choice = Some(Chosen { tuple: newer, from });
        self.bytes.clear();
        self.whole = false;
        self.changed = true;
    }

    /// Whether it counts that the checkpoint is gone.
    fn loses(&self, from: NodeId, epoch: u32, attempt: u32, asked: &Tuple, newer: &Tuple) -> bool
        ensures { result ≡ is_gone from epoch attempt asked.now newer.now self.now }
    {
        self.is_named(epoch, attempt) && self.is_lost(from, asked, newer)
    }

    /// Whether a tuple is the chosen one, a node the one of which it is, and another tuple a newer one.
    fn is_lost(&self, from: NodeId, asked: &Tuple, newer: &Tuple) -> bool
        ensures { result ≡ is_lost self.now.attempt.choice from asked.now newer.now }
    {
        let Some(choice) = &self.choice else {
            return false;
        };
        is_from(choice, from, asked) && is_after(&choice.tuple, newer)
    }

    /// Whether a frame names this epoch and this attempt.
    fn is_named(&self, epoch: u32, attempt: u32) -> bool
        ensures { result ≡ is_named epoch attempt self.now }
    {
        epoch == self.epoch && attempt == self.number
    }

    /// A tick. The last one of the attempt ends it, unless all bytes are there; where `again` is true what is missing is to be
    /// asked for again.
    pub fn on_tick(&mut self, again: bool) -> Turn
        ensures ticked { self.new ≡ ticked self.old }
        ensures turn { Says (tick_turn again (ticked self.old)) (ticked self.old) result }
    {
        self.changed = false;
        if self.ticks <= self.limit {
            self.ticks += 1;
        }
        self.after_tick(again)
    }

    /// What is to be done after a tick.
    fn after_tick(&self, again: bool) -> Turn
        ensures { Says (tick_turn again self.now) self.now result }
    {
        if !self.whole && self.ticks == self.limit {
            return self.ending();
        }
        if !self.whole && again {
            return Turn::Ask;
        }
        self.turn()
    }

    /// How the attempt ends.
    fn ending(&self) -> Turn
        ensures { Says (end_of self.now) self.now result }
    {
        let answered = self.answers.len();
        if answered < self.needed {
            Turn::NoQuorum {
                answered,
                needed: self.needed,
            }
        } else {
            Turn::Again
        }
    }

    /// What is to be done now: about a new choice, else about what is missing, or that nothing is.
    pub fn turn(&self) -> Turn
        ensures { Says (turn_of self.now) self.now result }
    {
        let Some(choice) = &self.choice else {
            return Turn::Wait(Missing::Answers(self.awaited()));
        };
        if self.changed {
            return Turn::Choose(choice.tuple, choice.from);
        }
        if self.whole {
            return Turn::Install(choice.tuple);
        }
        Turn::Wait(Missing::Part(self.bytes.len() as u64))
    }

    /// The replicas that haven't answered.
    fn awaited(&self) -> Members
        ensures { (node : NodeId) → is_member result node.0 ≡ awaits node self.now.attempt.answers self.now.replicas }
    {
        missing(self.replicas.items(), &self.answers)
    }

    /// Whether all bytes of the choice are there.
    pub fn is_whole(&self) -> bool
        ensures { result ≡ self.now.whole }
    {
        self.whole
    }

    /// The gathered bytes, once all are there.
    pub fn bytes(self) -> Octets
        requires { self.whole ≡ true }
        ensures { (choice : Choice) → self.attempt.choice ≡ Some choice → result ≡ choice.bytes }
    {
        self.bytes
    }
}

/// What a deployment says of the attempts of a partition.
#[derive(Clone, Copy)]
struct Size {
    replicas: Seats,
    needed: u8,
    limit: u16,
}

fn size_of(deployment: &Deployment, p: PartitionId) -> Size
    requires { IsSome (partition_at deployment.now.partitions p.0) }
    ensures size { (partition : PartitionTable) → partition_at deployment.now.partitions p.0 ≡ Some partition →
        result ≡ record { replicas = partition.replicas; needed = partition.recovery_quorum; limit = deployment.now.attempt } }
    ensures few { result.needed ≤ 7 }
    ensures short { result.limit ≤ 10000 }
    ensures low { AreAtMost 31 (numbers_of_nodes result.replicas) }
{
    deployment.partitions();
    let Some(partition) = deployment.partition(p) else {
        unreachable!()
    };
    Size {
        replicas: partition.replicas,
        needed: partition.recovery_quorum,
        limit: deployment.attempt(),
    }
}

/// The choice that these answers make: none before they are as many as needed.
fn choose(own: NodeId, needed: u8, answers: &Answers) -> Option<Chosen>
    requires { 1 ≤ length answers.now }
    ensures { option_map (λ c. fresh (c.from, c.tuple)) result ≡ choice_by own needed answers.now }
{
    if answers.len() < needed {
        return None;
    }
    let (from, tuple) = best(own, answers.items());
    Some(Chosen { tuple, from })
}

/// Whether a tuple is the chosen one, and a node the one of which it is.
fn is_from(choice: &Chosen, from: NodeId, tuple: &Tuple) -> bool
    ensures { result ≡ ((from.0 == choice.now.from.0) && is_same_tuple tuple.now choice.now.tuple) }
{
    from.0 == choice.from.0 && is_same(tuple, &choice.tuple)
}

fn is_one_of(nodes: &[NodeId], node: NodeId) -> bool
    ensures { result ≡ has_node nodes.now node.0 }
{
    for other in nodes {
        if other.0 == node.0 {
            return true;
        }
    }
    false
}

/// Those of these nodes that haven't answered.
fn missing(nodes: &[NodeId], answers: &Answers) -> Members
    requires { AreAtMost 31 (numbers_of_nodes nodes.now) }
    ensures { (node : NodeId) → is_member result node.0 ≡ awaits node answers.now nodes.now }
{
    let mut missing = Members::none();
    for node in nodes {
        if !have(answers.items(), *node) {
            missing.add(*node);
        }
    }
    missing
}
