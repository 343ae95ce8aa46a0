//! All logs of a partition.

ghost use Rattle.std.specs.Prelude.{◌≡◌, ◌<◌, ◌≤◌, ◌^◌, ◌++◌, ◌∷◌, [], false, nat_le, ◌&&◌, IfOk, OnOk, IsTrue, length, slice_get, map, count_by, Some};
ghost use Rattle.std.specs.List.{list_any, flat_map};
ghost use Rattle.command_codec.specs.Valid.{IsStored};
ghost use Rattle.mrp_config.specs.Config.{has_log as has_log_lem};
ghost use Rattle.plain_model.specs.Replicas.{LogState, empty_log, log_at, log_length, ends_of, with_value, is_one_too_long};
ghost use Rattle.plain_model.specs.StateBytes.{log_bytes};
ghost use Rattle.services.specs.Parts.{ids_of};
ghost use Rattle.dlog_service.specs.Logs.{is_named, appended, logs_size};

use crate::log::{Log, plus};
use command_codec::{LogPosition, LogPositions};
use mrp_config::has_log;
use mrp_types::{LogId, Memory, Octets};
use std::alloc::Global;

/// Logs of these numbers without values.
pub fn new_logs(alloc: Global, ids: &[LogId]) -> Result<Vec<Log>, Memory>
    ensures { IfOk result (λ logs. logs.items ≡ map empty_log ids.now) }
{
    let mut logs = Vec::new(alloc);
    for id in ids {
        logs.push(Log::new(alloc, *id))?;
    }
    Ok(logs)
}

/// The place of the log of this number.
pub fn place_of(logs: &[Log], id: LogId) -> usize
    requires { IsTrue (has_log_lem (ids_of logs.now) id.0) }
    ensures place { slice_get logs.now result ≡ Some (log_at id logs.now) }
    ensures within { result < length logs.now }
{
    for (place, log) in logs.iter().enumerate() {
        if log.id() == id {
            return place;
        }
    }
    unreachable!()
}

/// How many of the logs are named.
pub fn count_named(logs: &[Log], named: &[LogId]) -> usize
    ensures { result ≡ count_by (is_named named.now) logs.now }
{
    logs.iter().filter(|log| has_log(named, log.id())).count()
}

/// Whether one of the named logs can take no further value.
pub fn is_one_full(logs: &[Log], named: &[LogId]) -> bool
    ensures { result ≡ list_any (λ (log : LogState). is_named named.now log && nat_le (2 ^ 63) (log_length log)) logs.now }
{
    logs.iter().any(|log| has_log(named, log.id()) && Log::LENGTH <= log.length())
}

/// Adds the value to each of the named logs, and says where. After `Memory` some of them may have it.
pub fn append_each(
    alloc: Global,
    logs: &mut Vec<Log>,
    named: &[LogId],
    value: &[u8],
) -> Result<LogPositions, Memory>
    requires short { IsStored value.now }
    requires room { is_one_too_long (with_value value.now named.now logs.old.items) ≡ false }
    ensures logs { OnOk result (logs.new.items ≡ with_value value.now named.now logs.old.items) }
    ensures positions { IfOk result (λ positions. positions ≡ ends_of named.now logs.old.items) }
{
    let mut positions = LogPositions::new(alloc);
    for log in logs.iter_mut() {
        append_one(alloc, log, named, value, &mut positions)?;
    }
    Ok(positions)
}

/// Adds the value to the log, and its position to the others, where the log is named.
fn append_one(
    alloc: Global,
    log: &mut Log,
    named: &[LogId],
    value: &[u8],
    positions: &mut LogPositions,
) -> Result<(), Memory>
    requires short { IsStored value.now }
    requires room { IsTrue (is_named named.now log.old) → log_length log.old < 2 ^ 63 }
    ensures log { OnOk result (log.new ≡ appended value.now named.now log.old) }
    ensures positions { OnOk result (positions.new ≡ positions.old ++ ends_of named.now (log.old ∷ [])) }
{
    let id = log.id();
    if !has_log(named, id) {
        return Ok(());
    }
    let position = log.length();
    positions.push(LogPosition { log: id, position })?;
    log.push(Octets::from_slice(alloc, value)?)
}

/// Writes the logs in order.
pub fn write_logs(logs: &[Log], to: &mut Octets) -> Result<(), Memory>
    ensures { OnOk result (to.new ≡ to.old ++ flat_map log_bytes logs.now) }
{
    for log in logs {
        log.write(to)?;
    }
    Ok(())
}

/// How many bytes the logs have in the written state, their count included. It walks over their values.
pub fn size_of(logs: &[Log]) -> Result<u64, Memory>
    ensures { IfOk result (λ n. n ≡ logs_size logs.now) }
{
    let mut sum = 1;
    for log in logs {
        sum = plus(sum, log.size()?)?;
    }
    Ok(sum)
}
