//! The partitions that subscribe to a ring.

ghost use Rattle.std.specs.Prelude.{◌≡◌, ◌≤◌, ◌<◌, ◌++◌, ◌∷◌, [], count_by, length};
ghost use Rattle.std.specs.List.{list_all};
ghost use Rattle.mrp_types.specs.Members.{is_member};
ghost use Rattle.mrp_config.specs.Config.{has_node};
ghost use Rattle.trim.specs.Quorums.{is_of_one, has_quorum_of, have_quorums_of};

use mrp_types::{Members, NodeId, Seats};
use std::marker::Model;

/// The most partitions that subscribe to a ring.
const MOST: usize = 16;

/// A partition that subscribes: its replicas, and how many of them have to answer.
#[derive(Clone, Copy)]
pub struct Subscriber {
    pub replicas: Seats,
    pub quorum: u8,
}

/// At most sixteen subscribers in order. Contracts see the list of them.
#[derive(Drop)]
pub struct Subscribers {
    count: usize,
    list: [Subscriber; MOST],
}

impl Model for Subscribers {
    ghost use Rattle.std.specs.Prelude.{List, ◌≤◌, ◌≡◌, take, length};
    ghost use Rattle.trim.specs.declared.subscribers.Subscriber.{Subscriber};

    ghost Value = { List Subscriber };

    ghost view = { λ s. take s.count s.list };

    ghost invariant = { λ s. (s.count ≤ 16) × (length s.list ≡ 16) };
}

impl Subscribers {
    /// None yet.
    pub fn new() -> Self
        ensures { result ≡ [] }
    {
        let none = Subscriber {
            replicas: Seats::from_slice(&[]),
            quorum: 0,
        };
        Subscribers {
            count: 0,
            list: [none; MOST],
        }
    }

    /// Adds one at the end.
    pub fn push(&mut self, subscriber: Subscriber)
        requires { length self.old < 16 }
        ensures { self.new ≡ self.old ++ subscriber ∷ [] }
    {
        self.list[self.count] = subscriber;
        self.count += 1;
    }

    /// The subscribers in order.
    fn items(&self) -> &[Subscriber]
        ensures { result.now ≡ self.now }
    {
        &self.list[..self.count]
    }

    /// Whether a node is a replica of one of them.
    pub fn have(&self, node: NodeId) -> bool
        ensures { result ≡ is_of_one node self.now }
    {
        self.items().iter().any(|s| has(s, node))
    }

    /// Whether there is one, and each has as many answers as its quorum.
    pub fn have_quorums(&self, answered: &Members) -> bool
        ensures { result ≡ have_quorums_of answered.now self.now }
    {
        let subscribers = self.items();
        !subscribers.is_empty() && have_all(subscribers, answered)
    }
}

/// Whether each of these has as many answers as its quorum.
fn have_all(subscribers: &[Subscriber], answered: &Members) -> bool
    ensures { result ≡ list_all (has_quorum_of answered.now) subscribers.now }
{
    subscribers.iter().all(|s| has_quorum(s, answered))
}

/// Whether a node is one of the replicas.
fn has(subscriber: &Subscriber, node: NodeId) -> bool
    ensures { result ≡ has_node subscriber.now.replicas node.0 }
{
    is_one_of(subscriber.replicas.items(), node)
}

fn is_one_of(nodes: &[NodeId], node: NodeId) -> bool
    ensures { result ≡ has_node nodes.now node.0 }
{
    nodes.contains(&node)
}

/// Whether as many of the replicas have answered as the quorum asks.
fn has_quorum(subscriber: &Subscriber, answered: &Members) -> bool
    ensures { result ≡ has_quorum_of answered.now subscriber.now }
{
    subscriber.quorum <= count_of(subscriber.replicas.items(), answered)
}

/// How many of these nodes have answered.
fn count_of(nodes: &[NodeId], answered: &Members) -> u8
    requires { length nodes.now ≤ 7 }
    ensures { result ≡ count_by (λ node. is_member answered.now node.0) nodes.now }
{
    let mut count = 0;
    for node in nodes {
        if answered.has(*node) {
            count += 1;
        }
    }
    count
}
