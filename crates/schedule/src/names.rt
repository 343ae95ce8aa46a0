//! Whom the events of a generated schedule name.

ghost use Rattle.std.specs.Prelude.{◌≡◌, IfOk};
ghost use Rattle.schedule.specs.Generating.{names_of, named_below, client_named, node_named, log_named, xth as xth_lem};
ghost use Rattle.schedule.specs.Fields.{is_client, is_node, is_held};

use crate::routing::has_holder;
use mrp_config::{Deployment, PartitionTable};
use mrp_types::limits::LOGS;
use mrp_types::{ClientId, Items, LogId, Memory, NodeId};
use std::alloc::Global;

// Ids of clients and nodes are below this.
const IDS: u16 = 256;

/// The clients, the nodes and the logs of a deployment, each in order of id.
#[derive(Drop)]
pub struct Names {
    clients: Items<ClientId>,
    nodes: Items<NodeId>,
    logs: Items<LogId>,
}

impl Names {
    /// Those of this deployment.
    pub fn of(alloc: Global, deployment: &Deployment) -> Result<Self, Memory>
        ensures { IfOk result (λ names. names ≡ names_of deployment.now) }
    {
        Ok(Names {
            clients: clients_of(alloc, deployment)?,
            nodes: nodes_of(alloc, deployment)?,
            logs: logs_of(alloc, deployment.partitions())?,
        })
    }

    /// The x-th client, counted from 0 and round and round; none of none.
    pub fn client(&self, x: u32) -> Option<ClientId>
        ensures { result ≡ xth_lem self.now.clients x }
    {
        xth(self.clients.items(), x)
    }

    /// The x-th node.
    pub fn node(&self, x: u32) -> Option<NodeId>
        ensures { result ≡ xth_lem self.now.nodes x }
    {
        xth(self.nodes.items(), x)
    }

    /// The x-th log.
    pub fn log(&self, x: u32) -> Option<LogId>
        ensures { result ≡ xth_lem self.now.logs x }
    {
        xth(self.logs.items(), x)
    }
}

fn clients_of(alloc: Global, deployment: &Deployment) -> Result<Items<ClientId>, Memory>
    ensures { IfOk result (λ names. names ≡ named_below client_named (is_client deployment.now) 256) }
{
    let mut clients = Items::new(alloc);
    for id in 0..IDS {
        let client = ClientId(id as u8);
        if has_client(deployment, client) {
            clients.push(client)?;
        }
    }
    Ok(clients)
}

fn has_client(deployment: &Deployment, client: ClientId) -> bool
    ensures { result ≡ is_client deployment.now client.0 }
{
    deployment.client(client).is_some()
}

fn nodes_of(alloc: Global, deployment: &Deployment) -> Result<Items<NodeId>, Memory>
    ensures { IfOk result (λ names. names ≡ named_below node_named (is_node deployment.now) 256) }
{
    let mut nodes = Items::new(alloc);
    for id in 0..IDS {
        let node = NodeId(id as u8);
        if has_node(deployment, node) {
            nodes.push(node)?;
        }
    }
    Ok(nodes)
}

fn has_node(deployment: &Deployment, node: NodeId) -> bool
    ensures { result ≡ is_node deployment.now node.0 }
{
    deployment.node(node).is_some()
}

fn logs_of(alloc: Global, partitions: &[PartitionTable]) -> Result<Items<LogId>, Memory>
    ensures { IfOk result (λ names. names ≡ named_below log_named (is_held partitions.now) 64) }
{
    let mut logs = Items::new(alloc);
    for id in 0..LOGS {
        let log = LogId(id);
        if has_holder(partitions, log) {
            logs.push(log)?;
        }
    }
    Ok(logs)
}

// The x-th, counted from 0 and round and round; none of none.
fn xth<T: Copy>(items: &[T], x: u32) -> Option<T>
    ensures { result ≡ xth_lem items.now x }
{
    if items.is_empty() {
        return None;
    }
    Some(items[x as usize % items.len()])
}
