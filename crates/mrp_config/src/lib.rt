//! Deployments: the nodes, clients, rings and partitions of a system, and which of them a command concerns.
#![tactic(auto)]

mod deployment;
mod laws;
mod lists;
mod routing;
mod tables;
mod walk;

pub use config_walk::ConfigFault;
pub use deployment::{Deployment, Numbers};
pub use laws::{
    first_tuples_are_tuples, keys_have_one_partition, rounds_are_in_range,
    what_is_accepted_is_valid,
};
pub use lists::{LogIds, RingIds, has_log, has_ring};
pub use routing::NoGroup;
pub use tables::{ClientTable, NodeTable, PartitionTable, RingTable};
