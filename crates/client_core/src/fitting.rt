//! Which replies fit a command.

ghost use Rattle.std.specs.Prelude.{◌≡◌, ◌&&◌};
ghost use Rattle.mrp_config.specs.Routing.{is_within as is_within_lem};
ghost use Rattle.protocol.specs.Client.{fits as fits_lem, fit_positions, fit_entries, are_positions_of, own_of, are_keys_of};

use command_codec::{Command, LogPosition, Reply, TableEntry};
use mrp_config::{PartitionTable, has_log};
use mrp_types::LogId;
use std::cmp::Ordering;

/// Whether a reply of the partition fits the command: positions an append or a multi-append where they are of the
/// command's logs in the partition, entries a scan where their keys are in its range and in the partition's. Every other
/// reply fits.
pub fn fits(p: &PartitionTable, command: &Command, reply: &Reply) -> bool
    ensures { result ≡ fits_lem p.now command.now reply.now }
{
    match reply {
        Reply::Positions(positions) => fits_positions(p, command, positions.items()),
        Reply::Entries { more: _, entries } => fits_entries(p, command, entries.items()),
        _ => true,
    }
}

fn fits_positions(p: &PartitionTable, command: &Command, positions: &[LogPosition]) -> bool
    ensures { result ≡ fit_positions p.now command.now positions.now }
{
    match command {
        Command::Append { log, value: _ } => are_of(p, &[*log], positions),
        Command::Multi { logs, value: _ } => are_of(p, logs.items(), positions),
        _ => false,
    }
}

/// Whether these are positions of exactly the partition's own of these logs, in order.
fn are_of(p: &PartitionTable, logs: &[LogId], positions: &[LogPosition]) -> bool
    ensures { result ≡ are_positions_of (own_of p.now logs.now) positions.now }
{
    let mut rest = positions;
    for log in logs {
        if has_log(p.logs.items(), *log) {
            let [first, others @ ..] = rest else {
                return false;
            };
            if first.log != *log {
                return false;
            }
            rest = others;
        }
    }
    rest.is_empty()
}

fn fits_entries(p: &PartitionTable, command: &Command, entries: &[TableEntry]) -> bool
    ensures { result ≡ fit_entries p.now command.now entries.now }
{
    match command {
        Command::Scan { from, to } => are_keys(p, from.bytes(), to.bytes(), entries),
        _ => false,
    }
}

/// Whether all keys are in both ranges.
fn are_keys(p: &PartitionTable, from: &[u8], to: &[u8], entries: &[TableEntry]) -> bool
    ensures { result ≡ are_keys_of p.now from.now to.now entries.now }
{
    for entry in entries {
        if !is_in_both(p, from, to, entry.key.bytes()) {
            return false;
        }
    }
    true
}

fn is_in_both(p: &PartitionTable, from: &[u8], to: &[u8], key: &[u8]) -> bool
    ensures { result ≡ (is_within_lem from.now to.now key.now && is_within_lem p.now.from p.now.to key.now) }
{
    is_within(from, to, key) && is_within(p.from.bytes(), p.to.bytes(), key)
}

fn is_within(from: &[u8], to: &[u8], key: &[u8]) -> bool
    ensures { result ≡ is_within_lem from.now to.now key.now }
{
    key.cmp(from) != Ordering::Less && (to.is_empty() || key.cmp(to) == Ordering::Less)
}
