//! What is judged last, each over the partitions in order.

ghost use Rattle.std.specs.Prelude.{◌≡◌, ◌&&◌, []};
ghost use Rattle.std.specs.Str.{bytes_eq};
ghost use Rattle.config_walk.specs.Values.{Says};
ghost use Rattle.mrp_config.specs.Walk.{has_quorums as has_quorums_lem, quorums_meet, ends_well as ends_well_lem, ranges_follow, first_taken, logs_once, judged};

use crate::PartitionTable;
use crate::lists::has_log;
use config_walk::ConfigFault;
use mrp_types::LogId;
use std::alloc::Global;
use std::cmp::Ordering;

// Whether both quorums are from 1 to `count`, and add up to more than it.
fn has_quorums(count: u8, trim: u8, recovery: u8) -> bool
    ensures { result ≡ has_quorums_lem count trim recovery }
{
    (1 <= trim && trim <= count)
        && ((1 <= recovery && recovery <= count)
            && u16::from(count) < u16::from(trim) + u16::from(recovery))
}

fn judge_quorums(partitions: &[PartitionTable]) -> Result<(), ConfigFault>
    ensures { Says (λ u. u) (quorums_meet partitions.now) result }
{
    for p in partitions {
        if !has_quorums(p.replicas.len(), p.trim_quorum, p.recovery_quorum) {
            return Err(ConfigFault::BadQuorums(p.id));
        }
    }
    Ok(())
}

fn ends_well(last: bool, from: &[u8], to: &[u8]) -> bool
    ensures { result ≡ ends_well_lem last from.now to.now }
{
    if last {
        return to.is_empty();
    }
    from.cmp(to) == Ordering::Less
}

fn follows(start: &[u8], last: bool, from: &[u8], to: &[u8]) -> bool
    ensures { result ≡ (bytes_eq from.now start.now && ends_well_lem last from.now to.now) }
{
    from == start && ends_well(last, from, to)
}

fn judge_ranges(partitions: &[PartitionTable]) -> Result<(), ConfigFault>
    ensures { Says (λ u. u) (ranges_follow [] partitions.now) result }
{
    let mut start: &[u8] = &[];
    for (index, p) in partitions.iter().enumerate() {
        let last = partitions[index + 1..].is_empty();
        if !follows(start, last, p.from.bytes(), p.to.bytes()) {
            return Err(ConfigFault::BadRanges(p.id));
        }
        start = p.to.bytes();
    }
    Ok(())
}

fn judge_taken(taken: &[LogId], logs: &[LogId]) -> Result<(), ConfigFault>
    ensures { Says (λ u. u) (first_taken taken.now logs.now) result }
{
    for log in logs {
        if has_log(taken, *log) {
            return Err(ConfigFault::LogTwice(*log));
        }
    }
    Ok(())
}

fn judge_logs(alloc: Global, partitions: &[PartitionTable]) -> Result<(), ConfigFault>
    ensures { Says (λ u. u) (logs_once [] partitions.now) result }
{
    let mut taken: Vec<LogId> = Vec::new(alloc);
    for p in partitions {
        judge_taken(&taken, p.logs.items())?;
        taken.extend_from_slice(p.logs.items())?;
    }
    Ok(())
}

/// Judges the quorums, then the ranges of keys, then the logs.
pub fn judge(alloc: Global, partitions: &[PartitionTable]) -> Result<(), ConfigFault>
    ensures { Says (λ u. u) (judged partitions.now) result }
{
    judge_quorums(partitions)?;
    judge_ranges(partitions)?;
    judge_logs(alloc, partitions)
}
