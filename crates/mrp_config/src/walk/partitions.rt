//! The tables of partitions.

ghost use Rattle.std.specs.Prelude.{◌≡◌, ◌++◌, ◌≤◌, ◌<◌, map, IfOk, IfErr, OnOk, codes, []};
ghost use Rattle.toml.specs.Data.{get_member};
ghost use Rattle.toml.specs.View.{table_view};
ghost use Rattle.mrp_types.specs.Seats.{numbers_of_nodes};
ghost use Rattle.config_walk.specs.declared.fault.ConfigFault.TheVariants.{Memory};
ghost use Rattle.config_walk.specs.Values.{Says, all_known};
ghost use Rattle.mrp_config.specs.Walk.{home_of, partition_of, partitions_of, partition_names, top_partitions};

use crate::lists::has_ring;
use crate::{PartitionTable, RingIds};
use config_walk::{
    ConfigFault, judge_names, read_hex, read_id, read_logs, read_number, read_quorum, read_rings,
    read_seats, read_tables, unknown_id,
};
use mrp_types::{PartitionId, RingId, Seats};
use std::alloc::Global;
use toml::Table;

#[tactic(auto, unfolding(crate::specs::Walk::home_of))]
fn read_home(alloc: Global, rings: &RingIds, table: &Table) -> Result<RingId, ConfigFault>
    ensures { Says (λ r. r) (home_of rings.now (get_member (codes "home") (table_view table.now))) result }
{
    let name = "partition.home";
    let ring = RingId(read_number(alloc, table, "home", name, 0, 15)? as u8);
    if !has_ring(rings.items(), ring) {
        return Err(unknown_id(alloc, name, ring.0));
    }
    Ok(ring)
}

fn judge_partition_names(alloc: Global, table: &Table) -> Result<(), ConfigFault>
    ensures { Says (λ u. u) (all_known (codes "partition.") partition_names (table_view table.now)) result }
{
    let names = [
        "id",
        "replicas",
        "rings",
        "home",
        "from",
        "to",
        "logs",
        "trim_quorum",
        "recovery_quorum",
    ];
    judge_names(alloc, "partition.", &names, table)
}

#[tactic(auto, unfolding(crate::specs::Walk::partition_of))]
fn read_partition(
    alloc: Global,
    nodes: &[u8],
    rings: &[u8],
    taken: &[u8],
    least: u64,
    table: &Table,
) -> Result<PartitionTable, ConfigFault>
    ensures walk { Says (λ p. p) (partition_of nodes.now rings.now taken.now least (table_view table.now)) result }
    ensures bounds { IfOk result (λ p. (least ≤ p.id.0) × (p.id.0 < 16)) }
{
    let id = read_id(alloc, table, "id", "partition.id", 15, least)?;
    let replicas = read_seats(alloc, table, "replicas", "partition.replicas", taken, nodes)?;
    let own = read_rings(alloc, table, "rings", "partition.rings", rings)?;
    let home = read_home(alloc, &own, table)?;
    let from = read_hex(alloc, table, "from", "partition.from")?;
    let to = read_hex(alloc, table, "to", "partition.to")?;
    let logs = read_logs(alloc, table, "logs", "partition.logs")?;
    let trim_quorum = read_quorum(alloc, table, "trim_quorum", "partition.trim_quorum")?;
    let recovery_quorum = read_quorum(
        alloc,
        table,
        "recovery_quorum",
        "partition.recovery_quorum",
    )?;
    judge_partition_names(alloc, table)?;
    Ok(PartitionTable {
        id: PartitionId(id),
        replicas,
        rings: own,
        home,
        from,
        to,
        logs,
        trim_quorum,
        recovery_quorum,
    })
}

fn take_replicas(taken: &mut Vec<u8>, replicas: &Seats) -> Result<(), ConfigFault>
    ensures ok { OnOk result (taken.new.items ≡ taken.old.items ++ numbers_of_nodes replicas.now) }
    ensures err { IfErr result (λ e. e ≡ Memory) }
{
    for node in replicas.items() {
        taken.push(node.0)?;
    }
    Ok(())
}

fn each_partition(
    alloc: Global,
    nodes: &[u8],
    rings: &[u8],
    tables: &[&Table],
) -> Result<Vec<PartitionTable>, ConfigFault>
    ensures { Says (λ v. v.items) (partitions_of nodes.now rings.now [] 0 (map (λ t. table_view t.now) tables.now)) result }
{
    let mut partitions = Vec::new(alloc);
    let mut taken = Vec::new(alloc);
    let mut least = 0;
    for table in tables {
        let partition = read_partition(alloc, nodes, rings, &taken, least, table)?;
        take_replicas(&mut taken, &partition.replicas)?;
        least = u64::from(partition.id.0) + 1;
        partitions.push(partition)?;
    }
    Ok(partitions)
}

/// The partitions of the top table; `nodes` and `rings` are the ids of the nodes and rings.
pub fn read_partitions(
    alloc: Global,
    nodes: &[u8],
    rings: &[u8],
    table: &Table,
) -> Result<Vec<PartitionTable>, ConfigFault>
    ensures { Says (λ v. v.items) (top_partitions nodes.now rings.now (table_view table.now)) result }
{
    let tables = read_tables(alloc, table, "partition", "partition", 1, 16)?;
    each_partition(alloc, nodes, rings, &tables)
}
