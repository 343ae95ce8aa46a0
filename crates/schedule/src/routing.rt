//! Whether a command has a route.

ghost use Rattle.std.specs.Prelude.{◌≡◌};
ghost use Rattle.schedule.specs.Fields.{is_held};
ghost use Rattle.schedule.specs.Spelling.{are_held as are_held_lem, has_logs as has_logs_lem, has_route as has_route_lem};

use command_codec::Command;
use mrp_config::{Deployment, PartitionTable, has_log};
use mrp_types::LogId;

/// Whether a ring orders the command, and some partition has each of its logs.
pub fn has_route(deployment: &Deployment, command: &Command) -> bool
    ensures { result ≡ has_route_lem deployment.now command.now }
{
    has_logs(deployment, command) && deployment.route(command).is_ok()
}

// Whether some partition has each log of a `multi`. What no partition has of other commands, their route tells.
fn has_logs(deployment: &Deployment, command: &Command) -> bool
    ensures { result ≡ has_logs_lem deployment.now command.now }
{
    match command {
        Command::Multi { logs, value: _ } => are_held(deployment.partitions(), logs.items()),
        _ => true,
    }
}

fn are_held(partitions: &[PartitionTable], logs: &[LogId]) -> bool
    ensures { result ≡ are_held_lem partitions.now logs.now }
{
    for log in logs {
        if !has_holder(partitions, *log) {
            return false;
        }
    }
    true
}

/// Whether one of the partitions has the log.
pub fn has_holder(partitions: &[PartitionTable], log: LogId) -> bool
    ensures { result ≡ is_held partitions.now log.0 }
{
    for p in partitions {
        if has_log(p.logs.items(), log) {
            return true;
        }
    }
    false
}
