//! The walk over the table that a deployment's text is. Each reader answers what its definition gives: the value,
//! or the first fault.

mod judging;
mod nodes;
mod partitions;
mod top;

pub use judging::judge;
pub use nodes::{read_clients, read_nodes, read_rings};
pub use partitions::read_partitions;
pub use top::{judge_top_names, node_ids, read_numbers, ring_ids};
