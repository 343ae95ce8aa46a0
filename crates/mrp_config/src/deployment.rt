//! A deployment as one value.

ghost use Rattle.std.specs.Prelude.{◌≡◌, ◌<◌, ℕ, IfOk};
ghost use Rattle.std.specs.List.{AllByRecursion};
ghost use Rattle.std.specs.Option.{option_map};
ghost use Rattle.toml.specs.View.{table_view};
ghost use Rattle.config_walk.specs.Values.{Says};
ghost use Rattle.mrp_config.specs.Walk.{table_of, config_of, read_of};
ghost use Rattle.mrp_types.specs.Rounds.{size_of};
ghost use Rattle.mrp_config.specs.Config.{node_at, client_at, ring_at, partition_at, size_or, round_of};
ghost use Rattle.mrp_config.specs.Valid.{IsBetween, IsValid};
ghost use Rattle.mrp_config.specs.Routing.{mask_of, route_of, concerned_of};

use crate::routing::{NoGroup, mask_concerned, ring_of};
use crate::tables::copy_tables;
use crate::walk::{
    judge, judge_top_names, node_ids, read_clients, read_nodes, read_numbers, read_partitions,
    read_rings, ring_ids,
};
use crate::{ClientTable, NodeTable, PartitionTable, RingTable};
use command_codec::Command;
use config_walk::ConfigFault;
use mrp_types::limits::CONFIGURATION;
use mrp_types::{ClientId, Memory, NodeId, PartitionId, RingId, RoundSizes};
use std::alloc::Global;
use std::marker::Model;
use toml::Table;

/// The numbers of a deployment.
#[derive(Clone, Copy, Debug, PartialEq, Eq)]
pub struct Numbers {
    pub m: u16,
    pub lambda: u16,
    pub delta: u16,
    pub resend: u16,
    pub suspect: u16,
    pub attempt: u16,
    pub checkpoint: u32,
    pub trim: u32,
    pub window: u8,
    pub journal: u64,
}

/// The nodes, clients, rings and partitions of a system, each list by increasing id, and its numbers. Each deployment is
/// valid.
#[derive(Drop)]
pub struct Deployment {
    numbers: Numbers,
    nodes: Vec<NodeTable>,
    clients: Vec<ClientTable>,
    rings: Vec<RingTable>,
    partitions: Vec<PartitionTable>,
}

impl Model for Deployment {
    ghost use Rattle.mrp_config.specs.Config.{Config, config_with};
    ghost use Rattle.mrp_config.specs.Valid.{IsValid};

    ghost Value = { Config };

    ghost view = { λ d. config_with d.numbers d.nodes.items d.clients.items d.rings.items d.partitions.items };

    ghost invariant = { λ d. IsValid (config_with d.numbers d.nodes.items d.clients.items d.rings.items d.partitions.items) };
}

// The table that the bytes are.
fn read_table(alloc: Global, bytes: &[u8]) -> Result<Table, ConfigFault>
    ensures { Says table_view (table_of bytes.now) result }
{
    if bytes.len() > CONFIGURATION {
        return Err(ConfigFault::TooLong);
    }
    match toml::table_from_slice(alloc, bytes) {
        Ok(table) => Ok(table),
        Err(fault) => {
            if fault.is_memory() {
                return Err(ConfigFault::Memory);
            }
            Err(ConfigFault::NotToml)
        }
    }
}

#[tactic(auto, unfolding(crate::specs::Walk::config_of))]
fn read_config(alloc: Global, table: &Table) -> Result<Deployment, ConfigFault>
    ensures { Says (λ d. d) (config_of (table_view table.now)) result }
{
    let numbers = read_numbers(alloc, table)?;
    let nodes = read_nodes(alloc, table)?;
    let clients = read_clients(alloc, table)?;
    let nodes_there = node_ids(alloc, &nodes)?;
    let rings = read_rings(alloc, numbers.m, &nodes_there, table)?;
    let rings_there = ring_ids(alloc, &rings)?;
    let partitions = read_partitions(alloc, &nodes_there, &rings_there, table)?;
    judge_top_names(alloc, table)?;
    judge(alloc, &partitions)?;
    Ok(Deployment {
        numbers,
        nodes,
        clients,
        rings,
        partitions,
    })
}

impl Deployment {
    /// The deployment that the bytes spell, a TOML text of at most 1,048,576 bytes, or the first fault of the walk:
    /// the length; the text; the ten numbers in order; the nodes, clients, rings and partitions, table by table, each
    /// key in order and then unknown names; unknown names of the top; quorums, ranges of keys and logs over the
    /// partitions. The faults of a key are judged in the order missing, wrong kind, out of range, repeated, unknown.
    pub fn from_bytes(alloc: Global, bytes: &[u8]) -> Result<Self, ConfigFault>
        ensures { Says (λ d. d) (read_of bytes.now) result }
    {
        let table = read_table(alloc, bytes)?;
        read_config(alloc, &table)
    }

    /// How many instances of each ring a round of the merge holds: of a ring that isn't there as many as the top says.
    pub fn rounds(&self) -> RoundSizes
        ensures { (ring : ℕ) → ring < 256 → size_of result ring ≡ round_of self.now (record { 0 = ring }) }
    {
        rounds_of(self.numbers.m, &self.rings)
    }

    /// How many instances a ring is to start per tick.
    pub fn lambda(&self) -> u16
        ensures { result ≡ self.now.lambda }
    {
        self.numbers.lambda
    }

    /// Every how many ticks a ring is levelled.
    pub fn delta(&self) -> u16
        ensures { result ≡ self.now.delta }
    {
        self.numbers.delta
    }

    /// Every how many ticks frames are sent again.
    pub fn resend(&self) -> u16
        ensures { result ≡ self.now.resend }
    {
        self.numbers.resend
    }

    /// After how many quiet ticks a node is suspected.
    pub fn suspect(&self) -> u16
        ensures { result ≡ self.now.suspect }
    {
        self.numbers.suspect
    }

    /// How many ticks an attempt of a recovery has.
    pub fn attempt(&self) -> u16
        ensures { result ≡ self.now.attempt }
    {
        self.numbers.attempt
    }

    /// After how many deliveries a replica saves.
    pub fn checkpoint(&self) -> u32
        ensures { result ≡ self.now.checkpoint }
    {
        self.numbers.checkpoint
    }

    /// Every how many ticks a trim is asked for.
    pub fn trim(&self) -> u32
        ensures { result ≡ self.now.trim }
    {
        self.numbers.trim
    }

    /// How many proposals may be outstanding.
    pub fn window(&self) -> u8
        ensures { result ≡ self.now.window }
    {
        self.numbers.window
    }

    /// The greatest length of a journal in bytes.
    pub fn journal(&self) -> u64
        ensures { result ≡ self.now.journal }
    {
        self.numbers.journal
    }

    /// The node with this id.
    pub fn node(&self, id: NodeId) -> Option<&NodeTable>
        ensures { option_map (λ t. t.now) result ≡ node_at self.now.nodes id.0 }
    {
        self.nodes.iter().find(|table| table.id == id)
    }

    /// The client with this id.
    pub fn client(&self, id: ClientId) -> Option<&ClientTable>
        ensures { option_map (λ t. t.now) result ≡ client_at self.now.clients id.0 }
    {
        self.clients.iter().find(|table| table.id == id)
    }

    /// The ring with this id.
    pub fn ring(&self, id: RingId) -> Option<&RingTable>
        ensures { option_map (λ t. t.now) result ≡ ring_at self.now.rings id.0 }
    {
        self.rings.iter().find(|table| table.id == id)
    }

    /// The partition with this id.
    pub fn partition(&self, id: PartitionId) -> Option<&PartitionTable>
        ensures { option_map (λ t. t.now) result ≡ partition_at self.now.partitions id.0 }
    {
        self.partitions.iter().find(|table| table.id == id)
    }

    /// All nodes by increasing id.
    pub fn nodes(&self) -> &[NodeTable]
        ensures tables { result.now ≡ self.now.nodes }
        ensures valid { IsValid self.now }
    {
        &self.nodes
    }

    /// All clients by increasing id.
    pub fn clients(&self) -> &[ClientTable]
        ensures tables { result.now ≡ self.now.clients }
        ensures valid { IsValid self.now }
    {
        &self.clients
    }

    /// All rings by increasing id.
    pub fn rings(&self) -> &[RingTable]
        ensures tables { result.now ≡ self.now.rings }
        ensures valid { IsValid self.now }
    {
        &self.rings
    }

    /// All partitions by increasing id.
    pub fn partitions(&self) -> &[PartitionTable]
        ensures tables { result.now ≡ self.now.partitions }
        ensures valid { IsValid self.now }
    {
        &self.partitions
    }

    /// One bit for each partition that the command concerns, by its id.
    pub fn concerned(&self, command: &Command) -> u16
        ensures { result ≡ mask_of command.now self.now.partitions }
    {
        mask_concerned(command, &self.partitions)
    }

    /// The ring that orders the command: the home ring of the one partition that it concerns, or the least ring to
    /// which all concerned partitions subscribe.
    pub fn route(&self, command: &Command) -> Result<RingId, NoGroup>
        ensures { result ≡ route_of (concerned_of command.now self.now.partitions) }
    {
        ring_of(command, &self.partitions)
    }

    /// An equal deployment.
    pub fn copy(&self, alloc: Global) -> Result<Deployment, Memory>
        ensures { IfOk result (λ deployment. deployment ≡ self.now) }
    {
        let nodes = copy_tables(alloc, &self.nodes)?;
        let clients = copy_tables(alloc, &self.clients)?;
        let rings = Vec::from_slice(alloc, &self.rings)?;
        let partitions = copy_tables(alloc, &self.partitions)?;
        Ok(Deployment {
            numbers: self.numbers,
            nodes,
            clients,
            rings,
            partitions,
        })
    }
}

fn rounds_of(usual: u16, tables: &[RingTable]) -> RoundSizes
    requires usual { IsBetween 1 1024 usual }
    requires rounds { AllByRecursion (λ (r : RingTable). IsBetween 1 1024 r.m) tables.now }
    ensures { (ring : ℕ) → ring < 256 → size_of result ring ≡ size_or usual (ring_at tables.now ring) }
{
    let mut sizes = RoundSizes::same(usual);
    for i in (0..tables.len()).rev() {
        sizes.set(tables[i].id, tables[i].m);
    }
    sizes
}
