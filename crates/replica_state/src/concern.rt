//! Which commands concern a partition.

ghost use Rattle.std.specs.Prelude.{◌≡◌, not, ◌&&◌};
ghost use Rattle.mrp_config.specs.Routing.{is_before, is_below, is_within, do_meet, has_some, is_concerned};
ghost use Rattle.replica_state.specs.Held.{is_look};

use command_codec::Command;
use mrp_config::{PartitionTable, has_log};
use mrp_types::LogId;
use std::cmp::Ordering;

/// Whether the command only looks: a ReadLog, a Get or a Scan.
pub fn looks(command: &Command) -> bool
    ensures { result ≡ is_look command.now }
{
    match command {
        Command::ReadLog {
            log: _,
            position: _,
        } => true,
        Command::Get { key: _ } => true,
        Command::Scan { from: _, to: _ } => true,
        _ => false,
    }
}

/// Whether the command concerns the partition.
#[tactic(auto, unfolding(mrp_config::specs::Routing::is_concerned))]
pub fn concerns(command: &Command, p: &PartitionTable) -> bool
    ensures { result ≡ is_concerned command.now p.now }
{
    let (from, to) = (p.from.bytes(), p.to.bytes());
    match command {
        Command::Append { log, value: _ } => has_log(p.logs.items(), *log),
        Command::Multi { logs, value: _ } => has_one_of(p, logs.items()),
        Command::ReadLog { log, position: _ } => has_log(p.logs.items(), *log),
        Command::TrimLog { log, position: _ } => has_log(p.logs.items(), *log),
        Command::Get { key } => holds(from, to, key.bytes()),
        Command::Scan {
            from: begin,
            to: end,
        } => meets(begin.bytes(), end.bytes(), from, to),
        Command::Update { key, value: _ } => holds(from, to, key.bytes()),
        Command::Insert { key, value: _ } => holds(from, to, key.bytes()),
        Command::Delete { key } => holds(from, to, key.bytes()),
        Command::Swap {
            key,
            old: _,
            new: _,
        } => holds(from, to, key.bytes()),
    }
}

fn comes_before(a: &[u8], b: &[u8]) -> bool
    ensures { result ≡ is_before a.now b.now }
{
    a.cmp(b) == Ordering::Less
}

fn ends_after(key: &[u8], to: &[u8]) -> bool
    ensures { result ≡ is_below key.now to.now }
{
    to.is_empty() || comes_before(key, to)
}

fn holds(from: &[u8], to: &[u8], key: &[u8]) -> bool
    ensures { result ≡ is_within from.now to.now key.now }
{
    !comes_before(key, from) && ends_after(key, to)
}

fn meets(from: &[u8], to: &[u8], begin: &[u8], end: &[u8]) -> bool
    ensures { result ≡ do_meet from.now to.now begin.now end.now }
{
    ends_after(from, end) && ends_after(begin, to)
}

fn has_one_of(p: &PartitionTable, logs: &[LogId]) -> bool
    ensures { result ≡ has_some p.now.logs logs.now }
{
    logs.iter().any(|log| has_log(p.logs.items(), *log))
}
