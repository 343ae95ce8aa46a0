//! Where an acceptor sits.

use mrp_types::NodeId;

/// An acceptor, and its position in the ring.
#[derive(Clone, Copy, Debug, PartialEq, Eq)]
pub struct Seat {
    pub node: NodeId,
    pub position: u8,
}
