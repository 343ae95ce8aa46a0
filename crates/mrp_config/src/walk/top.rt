//! The whole of a deployment.

ghost use Rattle.std.specs.Prelude.{◌≡◌, [], IfOk};
ghost use Rattle.toml.specs.View.{table_view};
ghost use Rattle.config_walk.specs.Values.{Says, all_known};
ghost use Rattle.mrp_config.specs.Walk.{top_names, top_numbers, node_ids as node_ids_lem, ring_ids as ring_ids_lem};

use crate::{NodeTable, Numbers, RingTable};
use config_walk::{ConfigFault, judge_names, read_number};
use mrp_types::Memory;
use std::alloc::Global;
use toml::Table;

/// The ten numbers of the top table.
#[tactic(auto, unfolding(crate::specs::Walk::top_numbers))]
pub fn read_numbers(alloc: Global, table: &Table) -> Result<Numbers, ConfigFault>
    ensures { Says (λ n. n) (top_numbers (table_view table.now)) result }
{
    let m = read_number(alloc, table, "m", "m", 1, 1_024)? as u16;
    let lambda = read_number(alloc, table, "lambda", "lambda", 0, 256)? as u16;
    let delta = read_number(alloc, table, "delta", "delta", 1, 256)? as u16;
    let resend = read_number(alloc, table, "resend", "resend", 1, 1_000)? as u16;
    let suspect = read_number(alloc, table, "suspect", "suspect", 1, 10_000)? as u16;
    let attempt = read_number(alloc, table, "attempt", "attempt", 1, 10_000)? as u16;
    let checkpoint = read_number(alloc, table, "checkpoint", "checkpoint", 1, 1_000_000)? as u32;
    let trim = read_number(alloc, table, "trim", "trim", 1, 1_000_000)? as u32;
    let window = read_number(alloc, table, "window", "window", 1, 64)? as u8;
    let journal = read_number(alloc, table, "journal", "journal", 1_048_576, 4_294_967_295)?;
    Ok(Numbers {
        m,
        lambda,
        delta,
        resend,
        suspect,
        attempt,
        checkpoint,
        trim,
        window,
        journal,
    })
}

/// Asks that each name of the top table is known.
pub fn judge_top_names(alloc: Global, table: &Table) -> Result<(), ConfigFault>
    ensures { Says (λ u. u) (all_known [] top_names (table_view table.now)) result }
{
    let names = [
        "m",
        "lambda",
        "delta",
        "resend",
        "suspect",
        "attempt",
        "checkpoint",
        "trim",
        "window",
        "journal",
        "node",
        "client",
        "ring",
        "partition",
    ];
    judge_names(alloc, "", &names, table)
}

/// The ids of these nodes.
pub fn node_ids(alloc: Global, nodes: &[NodeTable]) -> Result<Vec<u8>, Memory>
    ensures { IfOk result (λ ids. ids.items ≡ node_ids_lem nodes.now) }
{
    Ok(nodes.iter().map(|node| node.id.0).collect(alloc)?)
}

/// The ids of these rings.
pub fn ring_ids(alloc: Global, rings: &[RingTable]) -> Result<Vec<u8>, Memory>
    ensures { IfOk result (λ ids. ids.items ≡ ring_ids_lem rings.now) }
{
    Ok(rings.iter().map(|ring| ring.id.0).collect(alloc)?)
}
