//! A round of trimming.

ghost use Rattle.std.specs.Prelude.{◌≡◌, ◌≤◌, ◌<◌, ◌&&◌, not, true, [], length, map};
ghost use Rattle.std.specs.List.{AllByRecursion};
ghost use Rattle.mrp_types.specs.Members.{is_member};
ghost use Rattle.mrp_types.specs.Seats.{numbers_of_nodes};
ghost use Rattle.mrp_config.specs.declared.tables.PartitionTable.{PartitionTable};
ghost use Rattle.mrp_config.specs.Valid.{AreAtMost};
ghost use Rattle.trim.specs.Quorums.{IsOfNodes, is_of_one, subscriber_of};
ghost use Rattle.mrp_config.specs.Config.{subscribers_of};
ghost use Rattle.protocol.specs.Parts.{Ring, Round};
ghost use Rattle.protocol.specs.Trimming.{with_answer, least as least_lem};
ghost use Rattle.trim.specs.Rounds.{StandsFor, lower as lower_lem};

use crate::subscribers::{Subscriber, Subscribers};
use mrp_config::{Deployment, PartitionTable, has_ring};
use mrp_types::{Inst, Members, NodeId, RingId};
use std::marker::Model;

/// A round of a ring: who has answered, and the least instance that was answered.
#[derive(Drop)]
pub struct TrimRound {
    number: u64,
    last: Inst,
    answered: Members,
    lowest: Option<Inst>,
    subscribers: Subscribers,
}

impl Model for TrimRound {
    ghost use Rattle.std.specs.List.{AllByRecursion};
    ghost use Rattle.trim.specs.Quorums.{IsOfNodes};
    ghost use Rattle.trim.specs.Rounds.{Trimming};

    ghost Value = { Trimming };

    ghost view = { λ r. record { number = r.number; last = r.last; answered = r.answered; lowest = r.lowest; subscribers = r.subscribers } };

    ghost invariant = { λ r. AllByRecursion IsOfNodes r.subscribers };
}

impl TrimRound {
    /// A round of a number that nobody has answered yet. `last` is the own trim when it is asked.
    pub fn ask(round: u64, deployment: &Deployment, ring: RingId, last: Inst) -> TrimRound
        ensures { (asker : Ring) → asker.subscribers ≡ subscribers_of deployment.now.partitions ring
            → StandsFor result asker (record { number = round; last = last; answers = [] }) }
    {
        TrimRound {
            number: round,
            last,
            answered: Members::none(),
            lowest: None,
            subscribers: subscribers(deployment.partitions(), ring),
        }
    }

    /// The number of the round.
    pub fn number(&self) -> u64
        ensures { result ≡ self.now.number }
    {
        self.number
    }

    /// An answer: the least instance that a replica may need. The first one of each replica of a subscribed partition
    /// counts.
    pub fn on_safe(&mut self, node: NodeId, inst: Inst)
        ensures { (asker : Ring) (round : Round) → StandsFor self.old asker round → StandsFor self.new asker (with_answer asker node inst round) }
    {
        if !self.awaits(node) {
            return;
        }
        self.answered.add(node);
        self.lowest = Some(lower(self.lowest, inst));
    }

    /// Whether a node is a replica of a subscribed partition and hasn't answered.
    fn awaits(&self, node: NodeId) -> bool
        ensures awaits { result ≡ (is_of_one node self.now.subscribers && not (is_member self.now.answered node.0)) }
        ensures low { result ≡ true → node.0 < 32 }
    {
        self.subscribers.have(node) && !self.answered.has(node)
    }

    /// The least of the answers, once each subscribed partition has its trim quorum of them; none where no partition
    /// subscribes, or the least isn't above the trim when the round was asked.
    pub fn least(&self) -> Option<Inst>
        ensures { (asker : Ring) (round : Round) → StandsFor self.now asker round → result ≡ least_lem asker round }
    {
        if !self.subscribers.have_quorums(&self.answered) {
            return None;
        }
        let Some(lowest) = self.lowest else {
            return None;
        };
        if self.last < lowest {
            Some(lowest)
        } else {
            None
        }
    }
}

/// The least with one more.
fn lower(lowest: Option<Inst>, inst: Inst) -> Inst
    ensures { result ≡ lower_lem lowest inst }
{
    match lowest {
        None => inst,
        Some(lowest) => lowest.min(inst),
    }
}

/// The partitions of these that subscribe to a ring.
fn subscribers(partitions: &[PartitionTable], ring: RingId) -> Subscribers
    requires few { length partitions.now ≤ 16 }
    requires nodes { AllByRecursion (λ (p : PartitionTable). AreAtMost 31 (numbers_of_nodes p.replicas)) partitions.now }
    ensures all { result ≡ map subscriber_of (subscribers_of partitions.now ring) }
    ensures nodes { AllByRecursion IsOfNodes result }
{
    let mut found = Subscribers::new();
    for p in partitions {
        if has_ring(p.rings.items(), ring) {
            found.push(Subscriber {
                replicas: p.replicas,
                quorum: p.trim_quorum,
            });
        }
    }
    found
}
