//! Which partitions a command concerns, and the ring that orders it.

ghost use Rattle.std.specs.Prelude.{◌≡◌, ◌<◌, ◌∷◌, ◌&&◌, not};
ghost use Rattle.std.specs.Option.{option_map};
ghost use Rattle.mrp_config.specs.Config.{has_ring as has_ring_lem};
ghost use Rattle.mrp_config.specs.Valid.{IncreasesFrom, AreAtMost, partition_ids};
ghost use Rattle.mrp_config.specs.Routing.{is_before, is_below, is_within, do_meet, has_some, is_concerned, concerned_of, first_concerned, mask_of, bit_of as bit_of_lem, all_have, common, route_of};

use crate::PartitionTable;
use crate::lists::{has_log, has_ring};
use command_codec::Command;
use mrp_types::{LogId, RingId};
use std::cmp::Ordering;

/// No ring orders the command: no partition is concerned, or the concerned ones have no ring in common.
#[derive(Clone, Copy, Debug, PartialEq, Eq)]
pub struct NoGroup;

fn comes_before(a: &[u8], b: &[u8]) -> bool
    ensures { result ≡ is_before a.now b.now }
{
    a.cmp(b) == Ordering::Less
}

fn ends_after(key: &[u8], to: &[u8]) -> bool
    ensures { result ≡ is_below key.now to.now }
{
    to.is_empty() || comes_before(key, to)
}

fn holds(from: &[u8], to: &[u8], key: &[u8]) -> bool
    ensures { result ≡ is_within from.now to.now key.now }
{
    !comes_before(key, from) && ends_after(key, to)
}

fn meets(from: &[u8], to: &[u8], begin: &[u8], end: &[u8]) -> bool
    ensures { result ≡ do_meet from.now to.now begin.now end.now }
{
    ends_after(from, end) && ends_after(begin, to)
}

fn has_one_of(p: &PartitionTable, logs: &[LogId]) -> bool
    ensures { result ≡ has_some p.now.logs logs.now }
{
    logs.iter().any(|log| has_log(p.logs.items(), *log))
}

/// Whether the command concerns the partition.
#[tactic(auto, unfolding(crate::specs::Routing::is_concerned))]
pub fn concerns(command: &Command, p: &PartitionTable) -> bool
    ensures { result ≡ is_concerned command.now p.now }
{
    let (from, to) = (p.from.bytes(), p.to.bytes());
    match command {
        Command::Append { log, value: _ } => has_log(p.logs.items(), *log),
        Command::Multi { logs, value: _ } => has_one_of(p, logs.items()),
        Command::ReadLog { log, position: _ } => has_log(p.logs.items(), *log),
        Command::TrimLog { log, position: _ } => has_log(p.logs.items(), *log),
        Command::Get { key } => holds(from, to, key.bytes()),
        Command::Scan {
            from: begin,
            to: end,
        } => meets(begin.bytes(), end.bytes(), from, to),
        Command::Update { key, value: _ } => holds(from, to, key.bytes()),
        Command::Insert { key, value: _ } => holds(from, to, key.bytes()),
        Command::Delete { key } => holds(from, to, key.bytes()),
        Command::Swap {
            key,
            old: _,
            new: _,
        } => holds(from, to, key.bytes()),
    }
}

/// A bit for each partition that the command concerns, by its id.
pub fn mask_concerned(command: &Command, partitions: &[PartitionTable]) -> u16
    requires rise { IncreasesFrom 0 (partition_ids partitions.now) }
    requires low { AreAtMost 15 (partition_ids partitions.now) }
    ensures { result ≡ mask_of command.now partitions.now }
{
    let mut mask = 0;
    for p in partitions {
        mask += bit_of(command, p);
    }
    mask
}

fn bit_of(command: &Command, p: &PartitionTable) -> u16
    requires { p.now.id.0 < 16 }
    ensures { result ≡ bit_of_lem command.now p.now }
{
    if concerns(command, p) { 1 << p.id.0 } else { 0 }
}

/// The home ring of the one partition that is concerned; of several the least ring to which all subscribe.
pub fn ring_of(command: &Command, partitions: &[PartitionTable]) -> Result<RingId, NoGroup>
    ensures { result ≡ route_of (concerned_of command.now partitions.now) }
{
    match split_concerned(command, partitions) {
        None => Err(NoGroup),
        Some((first, others)) => ring_after(command, first, others),
    }
}

// The ring of a command that concerns `first`, and those of the others that it concerns.
fn ring_after(
    command: &Command,
    first: &PartitionTable,
    others: &[PartitionTable],
) -> Result<RingId, NoGroup>
    ensures { result ≡ route_of (first.now ∷ concerned_of command.now others.now) }
{
    match split_concerned(command, others) {
        None => Ok(first.home),
        Some(_) => common_ring(command, others, first.rings.items()),
    }
}

// The first concerned partition, and those after it.
fn split_concerned<'a>(
    command: &Command,
    partitions: &'a [PartitionTable],
) -> Option<(&'a PartitionTable, &'a [PartitionTable])>
    ensures { option_map (λ x. (x.0.now, x.1.now)) result ≡ first_concerned command.now partitions.now }
{
    for (index, p) in partitions.iter().enumerate() {
        if concerns(command, p) {
            return Some((p, &partitions[index + 1..]));
        }
    }
    None
}

fn common_ring(
    command: &Command,
    others: &[PartitionTable],
    rings: &[RingId],
) -> Result<RingId, NoGroup>
    ensures { result ≡ common (concerned_of command.now others.now) rings.now }
{
    for ring in rings {
        if all_subscribe(command, others, *ring) {
            return Ok(*ring);
        }
    }
    Err(NoGroup)
}

fn all_subscribe(command: &Command, others: &[PartitionTable], ring: RingId) -> bool
    ensures { result ≡ all_have (concerned_of command.now others.now) ring.0 }
{
    for p in others {
        if misses(command, p, ring) {
            return false;
        }
    }
    true
}

fn misses(command: &Command, p: &PartitionTable, ring: RingId) -> bool
    ensures { result ≡ (is_concerned command.now p.now && not (has_ring_lem p.now.rings ring.0)) }
{
    concerns(command, p) && !has_ring(p.rings.items(), ring)
}
