//! The tables of nodes, clients and rings.

ghost use Rattle.std.specs.Prelude.{codes, map};
ghost use Rattle.toml.specs.Data.{get_member};
ghost use Rattle.toml.specs.View.{table_view};
ghost use Rattle.config_walk.specs.Values.{Says};
ghost use Rattle.mrp_config.specs.Walk.{node_of, nodes_of, top_nodes, client_of, clients_of, top_clients, size_of, ring_of, rings_of, top_rings};

use crate::{ClientTable, NodeTable, RingTable};
use config_walk::{
    ConfigFault, judge_names, read_address, read_id, read_number, read_seats, read_tables, value_at,
};
use mrp_types::{ClientId, NodeId, RingId};
use std::alloc::Global;
use toml::Table;

#[tactic(auto, unfolding(crate::specs::Walk::node_of))]
fn read_node(alloc: Global, least: u64, table: &Table) -> Result<NodeTable, ConfigFault>
    ensures { Says (λ n. n) (node_of least (table_view table.now)) result }
{
    let id = read_id(alloc, table, "id", "node.id", 31, least)?;
    let address = read_address(alloc, table, "address", "node.address")?;
    judge_names(alloc, "node.", &["id", "address"], table)?;
    Ok(NodeTable {
        id: NodeId(id),
        address,
    })
}

fn each_node(alloc: Global, tables: &[&Table]) -> Result<Vec<NodeTable>, ConfigFault>
    ensures { Says (λ v. v.items) (nodes_of 0 (map (λ t. table_view t.now) tables.now)) result }
{
    let mut nodes = Vec::new(alloc);
    let mut least = 0;
    for table in tables {
        let node = read_node(alloc, least, table)?;
        least = u64::from(node.id.0) + 1;
        nodes.push(node)?;
    }
    Ok(nodes)
}

/// The nodes of the top table.
pub fn read_nodes(alloc: Global, table: &Table) -> Result<Vec<NodeTable>, ConfigFault>
    ensures { Says (λ v. v.items) (top_nodes (table_view table.now)) result }
{
    let tables = read_tables(alloc, table, "node", "node", 1, 32)?;
    each_node(alloc, &tables)
}

#[tactic(auto, unfolding(crate::specs::Walk::client_of))]
fn read_client(alloc: Global, least: u64, table: &Table) -> Result<ClientTable, ConfigFault>
    ensures { Says (λ c. c) (client_of least (table_view table.now)) result }
{
    let id = read_id(alloc, table, "id", "client.id", 255, least)?;
    let address = read_address(alloc, table, "address", "client.address")?;
    judge_names(alloc, "client.", &["id", "address"], table)?;
    Ok(ClientTable {
        id: ClientId(id),
        address,
    })
}

fn each_client(alloc: Global, tables: &[&Table]) -> Result<Vec<ClientTable>, ConfigFault>
    ensures { Says (λ v. v.items) (clients_of 0 (map (λ t. table_view t.now) tables.now)) result }
{
    let mut clients = Vec::new(alloc);
    let mut least = 0;
    for table in tables {
        let client = read_client(alloc, least, table)?;
        least = u64::from(client.id.0) + 1;
        clients.push(client)?;
    }
    Ok(clients)
}

/// The clients of the top table, where there may be none.
pub fn read_clients(alloc: Global, table: &Table) -> Result<Vec<ClientTable>, ConfigFault>
    ensures { Says (λ v. v.items) (top_clients (table_view table.now)) result }
{
    let tables = read_tables(alloc, table, "client", "client", 0, 256)?;
    each_client(alloc, &tables)
}

// The size of a ring's round, the usual one where the key is missing.
fn read_size(alloc: Global, usual: u16, table: &Table) -> Result<u16, ConfigFault>
    ensures { Says (λ n. n) (size_of usual (get_member (codes "m") (table_view table.now))) result }
{
    let Some(_) = value_at(table, "m") else {
        return Ok(usual);
    };
    Ok(read_number(alloc, table, "m", "ring.m", 1, 1_024)? as u16)
}

#[tactic(auto, unfolding(crate::specs::Walk::ring_of))]
fn read_ring(
    alloc: Global,
    usual: u16,
    nodes: &[u8],
    least: u64,
    table: &Table,
) -> Result<RingTable, ConfigFault>
    ensures { Says (λ r. r) (ring_of usual nodes.now least (table_view table.now)) result }
{
    let id = read_id(alloc, table, "id", "ring.id", 15, least)?;
    let acceptors = read_seats(alloc, table, "acceptors", "ring.acceptors", &[], nodes)?;
    let m = read_size(alloc, usual, table)?;
    judge_names(alloc, "ring.", &["id", "acceptors", "m"], table)?;
    Ok(RingTable {
        id: RingId(id),
        acceptors,
        m,
    })
}

fn each_ring(
    alloc: Global,
    usual: u16,
    nodes: &[u8],
    tables: &[&Table],
) -> Result<Vec<RingTable>, ConfigFault>
    ensures { Says (λ v. v.items) (rings_of usual nodes.now 0 (map (λ t. table_view t.now) tables.now)) result }
{
    let mut rings = Vec::new(alloc);
    let mut least = 0;
    for table in tables {
        let ring = read_ring(alloc, usual, nodes, least, table)?;
        least = u64::from(ring.id.0) + 1;
        rings.push(ring)?;
    }
    Ok(rings)
}

/// The rings of the top table; `usual` is the size of a round where a ring has none, and `nodes` are the ids of the
/// nodes.
pub fn read_rings(
    alloc: Global,
    usual: u16,
    nodes: &[u8],
    table: &Table,
) -> Result<Vec<RingTable>, ConfigFault>
    ensures { Says (λ v. v.items) (top_rings usual nodes.now (table_view table.now)) result }
{
    let tables = read_tables(alloc, table, "ring", "ring", 1, 16)?;
    each_ring(alloc, usual, nodes, &tables)
}
