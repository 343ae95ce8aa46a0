//! Seats: up to seven nodes in the order of their positions.

ghost use Rattle.std.specs.Prelude.{◌≡◌, ◌≤◌, ◌<◌, length, slice_get, IfSome};
ghost use Rattle.mrp_types.specs.Seats.{seat_of, numbers_of_nodes, AreDifferent};

use crate::NodeId;
use std::marker::Model;

/// The most seats that a ring or a partition has.
const MOST: usize = 7;

/// Different nodes in the order of their positions, at most seven. Contracts see the list of them.
#[derive(Clone, Copy, Debug, PartialEq, Eq)]
pub struct Seats {
    count: u8,
    nodes: [NodeId; MOST],
}

impl Model for Seats {
    ghost use Rattle.std.specs.Prelude.{List, ◌≤◌, ◌≡◌, take, length};
    ghost use Rattle.std.proofs.Common.{arith, length-take-le};
    ghost use Rattle.mrp_types.specs.Seats.{padded, numbers_of_nodes, AreDifferent};
    ghost use Rattle.mrp_types.specs.declared.id.NodeId.{NodeId};

    ghost Value = { List NodeId };

    ghost view = { λ s. take s.count s.nodes };

    ghost invariant = { λ s. (s.count ≤ 7) × (length s.nodes ≡ 7) × (padded (take s.count s.nodes) ≡ s.nodes) × AreDifferent (numbers_of_nodes (take s.count s.nodes)) };

    ghost inverse = { λ nodes. record { count = length nodes; nodes = padded nodes } };

    ghost inverse_ok = { λ s h i. record {
      count = length-take-le s.count s.nodes (omega (arith, h.0, h.1)) i;
      nodes = h.2 i;
    } };
}

impl Seats {
    /// These nodes in order, at most seven and no two the same.
    pub fn from_slice(nodes: &[NodeId]) -> Self
        requires few { length nodes.now ≤ 7 }
        requires different { AreDifferent (numbers_of_nodes nodes.now) }
        ensures { result ≡ nodes.now }
    {
        let mut seats = [NodeId(0); MOST];
        for (index, node) in nodes.iter().enumerate() {
            seats[index] = *node;
        }
        Seats {
            count: nodes.len() as u8,
            nodes: seats,
        }
    }

    /// The nodes in order.
    pub fn items(&self) -> &[NodeId]
        ensures nodes { result.now ≡ self.now }
        ensures most { length result.now ≤ 7 }
        ensures different { AreDifferent (numbers_of_nodes self.now) }
    {
        &self.nodes[..usize::from(self.count)]
    }

    /// How many there are.
    pub fn len(&self) -> u8
        ensures { result ≡ length self.now }
    {
        self.count
    }

    /// The node at a position, none from the length on.
    pub fn at(&self, position: u8) -> Option<NodeId>
        ensures { result ≡ slice_get self.now position }
    {
        if self.count <= position {
            return None;
        }
        Some(self.nodes[usize::from(position)])
    }

    /// The position of a node, none where it isn't listed.
    pub fn position(&self, node: NodeId) -> Option<u8>
        ensures { result ≡ seat_of node self.now }
    {
        let Some(position) = seat_in(self.items(), node) else {
            return None;
        };
        Some(position as u8)
    }
}

fn seat_in(nodes: &[NodeId], node: NodeId) -> Option<usize>
    ensures first { result ≡ seat_of node nodes.now }
    ensures inside { IfSome result (λ position. position < length nodes.now) }
{
    nodes.iter().position(|other| *other == node)
}
