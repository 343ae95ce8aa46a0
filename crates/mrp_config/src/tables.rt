//! The tables of a deployment.

ghost use Rattle.std.specs.Prelude.{◌≡◌, IfOk};

use crate::{LogIds, RingIds};
use mrp_types::{ClientId, Memory, NodeId, Octets, PartitionId, RingId, Seats};
use std::alloc::Global;

/// A node, and where its socket is.
#[derive(Drop)]
pub struct NodeTable {
    pub id: NodeId,
    /// A dotted IPv4 address, a colon and a port.
    pub address: Octets,
}

/// A client, and where its socket is.
#[derive(Drop)]
pub struct ClientTable {
    pub id: ClientId,
    /// A dotted IPv4 address, a colon and a port.
    pub address: Octets,
}

/// A ring, and its acceptors in order of their positions.
#[derive(Clone, Copy)]
pub struct RingTable {
    pub id: RingId,
    pub acceptors: Seats,
    /// The size of its round: how many of its instances a learner of several rings takes in turn, 1 to 1,024.
    pub m: u16,
}

/// A partition: who replicates it, to which rings these subscribe, and which logs and keys it holds.
#[derive(Drop)]
pub struct PartitionTable {
    pub id: PartitionId,
    pub replicas: Seats,
    /// The rings to which its replicas subscribe, in increasing order.
    pub rings: RingIds,
    /// The ring of the commands that concern this partition alone.
    pub home: RingId,
    /// Its first key.
    pub from: Octets,
    /// The first key past it; the last partition has none here.
    pub to: Octets,
    /// Its logs in increasing order.
    pub logs: LogIds,
    /// How many replicas have to have saved before a trim.
    pub trim_quorum: u8,
    /// How many replicas a recovery asks.
    pub recovery_quorum: u8,
}

/// What can be copied where there is memory.
pub trait CopyTable: Sized {
    /// An equal table.
    fn copy(&self, alloc: Global) -> Result<Self, Memory>
        ensures { IfOk result (λ table. table ≡ self.now) };
}

impl CopyTable for NodeTable {
    fn copy(&self, alloc: Global) -> Result<Self, Memory> {
        let address = Octets::from_slice(alloc, self.address.bytes())?;
        Ok(NodeTable {
            id: self.id,
            address,
        })
    }
}

impl CopyTable for ClientTable {
    fn copy(&self, alloc: Global) -> Result<Self, Memory> {
        let address = Octets::from_slice(alloc, self.address.bytes())?;
        Ok(ClientTable {
            id: self.id,
            address,
        })
    }
}

impl CopyTable for PartitionTable {
    fn copy(&self, alloc: Global) -> Result<Self, Memory> {
        let rings = RingIds::from_slice(alloc, self.rings.items())?;
        let from = Octets::from_slice(alloc, self.from.bytes())?;
        let to = Octets::from_slice(alloc, self.to.bytes())?;
        let logs = LogIds::from_slice(alloc, self.logs.items())?;
        Ok(PartitionTable {
            id: self.id,
            replicas: self.replicas,
            rings,
            home: self.home,
            from,
            to,
            logs,
            trim_quorum: self.trim_quorum,
            recovery_quorum: self.recovery_quorum,
        })
    }
}

/// Equal tables.
pub fn copy_tables<T: CopyTable + Drop>(alloc: Global, tables: &[T]) -> Result<Vec<T>, Memory>
    ensures { IfOk result (λ v. v.items ≡ tables.now) }
{
    let mut copies = Vec::new(alloc);
    for table in tables {
        copies.push(table.copy(alloc)?)?;
    }
    Ok(copies)
}
