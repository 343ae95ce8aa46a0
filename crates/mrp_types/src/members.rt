//! Sets of nodes, and what a node sees of a ring.

ghost use Rattle.std.specs.Prelude.{◌≡◌, ◌≢◌, ◌<◌, ℕ, true, false, count_by};
ghost use Rattle.mrp_types.specs.Members.{is_member};

use crate::limits::NODES;
use crate::{NodeId, RingId, Seats};
use std::marker::Model;

/// A set of node numbers below 32. Contracts see the list that says of each number whether it is in the set.
#[derive(Clone, Copy, Debug)]
pub struct Members {
    nodes: [bool; NODES],
}

impl Model for Members {
    ghost use Rattle.std.specs.Prelude.{List, Bool, ◌≡◌, length};

    ghost Value = { List Bool };

    ghost view = { λ m. m.nodes };

    ghost invariant = { λ m. length m.nodes ≡ 32 };

    ghost inverse = { λ nodes. record { nodes = nodes } };

    ghost inverse_ok = { λ m h i. record { nodes = m.nodes } };
}

impl Members {
    /// No nodes.
    pub fn none() -> Self
        ensures { (node : ℕ) → is_member result node ≡ false }
    {
        Members {
            nodes: [false; NODES],
        }
    }

    /// Adds a node.
    pub fn add(&mut self, node: NodeId)
        requires { node.0 < 32 }
        ensures own { is_member self.new node.0 ≡ true }
        ensures others { (other : ℕ) → other ≢ node.0 → is_member self.new other ≡ is_member self.old other }
    {
        self.nodes[usize::from(node.0)] = true;
    }

    /// Whether a node is in the set.
    pub fn has(&self, node: NodeId) -> bool
        ensures { result ≡ is_member self.now node.0 }
    {
        usize::from(node.0) < NODES && self.nodes[usize::from(node.0)]
    }

    /// How many nodes there are.
    pub fn count(&self) -> u8
        ensures { result ≡ count_by (λ m. m) self.now }
    {
        self.nodes.iter().filter(|m| **m).count() as u8
    }
}

/// A ring as one of its members sees it.
#[derive(Clone, Copy, Debug)]
pub struct RingView {
    pub ring: RingId,
    pub own: NodeId,
    pub acceptors: Seats,
    /// How many members the ring has: its acceptors, and the replicas that subscribe to it.
    pub members: u8,
    /// The acceptor that is next after the own node and isn't suspected, if there is another.
    pub next_acceptor: Option<NodeId>,
    /// The member that is next after the own node and isn't suspected, if there is another.
    pub next_member: Option<NodeId>,
}
