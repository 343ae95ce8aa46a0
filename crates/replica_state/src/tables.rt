//! Partitions of a deployment.

ghost use Rattle.std.specs.Prelude.{◌≡◌, IfOk, IsSome, IsTrue, Some};
ghost use Rattle.command_codec.specs.Valid.{rises_from};
ghost use Rattle.mrp_config.specs.Config.{partition_at};
ghost use Rattle.state_laws.specs.States.{HasFewLogs};

use mrp_config::{Deployment, LogIds, PartitionTable, RingIds};
use mrp_types::{Memory, Octets, PartitionId};
use std::alloc::Global;

/// The table of a partition, with its logs in order.
pub fn table_of(deployment: &Deployment, p: PartitionId) -> &PartitionTable
    requires { IsSome (partition_at deployment.now.partitions p.0) }
    ensures found { partition_at deployment.now.partitions p.0 ≡ Some result.now }
    ensures few { HasFewLogs result.now }
    ensures rising { IsTrue (rises_from 0 result.now.logs) }
{
    let _all = deployment.partitions();
    let Some(table) = deployment.partition(p) else {
        unreachable!();
    };
    table
}

/// An equal table.
pub fn copied(alloc: Global, table: &PartitionTable) -> Result<PartitionTable, Memory>
    ensures { IfOk result (λ copy. copy ≡ table.now) }
{
    let rings = RingIds::from_slice(alloc, table.rings.items())?;
    let from = Octets::from_slice(alloc, table.from.bytes())?;
    let to = Octets::from_slice(alloc, table.to.bytes())?;
    let logs = LogIds::from_slice(alloc, table.logs.items())?;
    Ok(PartitionTable {
        id: table.id,
        replicas: table.replicas,
        rings,
        home: table.home,
        from,
        to,
        logs,
        trim_quorum: table.trim_quorum,
        recovery_quorum: table.recovery_quorum,
    })
}
