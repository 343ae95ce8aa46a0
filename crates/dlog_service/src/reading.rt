//! Logs from bytes.

ghost use Rattle.std.specs.Prelude.{◌≡◌, ◌+◌, ◌≤◌, ◌^◌, length, IfOk, IsTrue};
ghost use Rattle.std.specs.List.{AllByRecursion};
ghost use Rattle.mrp_types.specs.Reading.{each};
ghost use Rattle.command_codec.specs.Reader.{Reads, string_at};
ghost use Rattle.plain_model.specs.StateBytes.{this_log_at, these_logs_at, values_after};
ghost use Rattle.state_laws.specs.States.{IsLog, IsShort, AreLogsOf};

use crate::log::Log;
use command_codec::CodecFault;
use command_codec::reading::Cursor;
use mrp_types::limits::STORED;
use mrp_types::{LogId, Octets};
use std::alloc::Global;
use std::collections::VecDeque;

/// These very logs, one after another.
pub fn read_logs(
    alloc: Global,
    fields: &mut Cursor<'_>,
    ids: &[LogId],
) -> Result<Vec<Log>, CodecFault>
    ensures exact { Reads (λ v. v.items) (these_logs_at ids.now fields.old) result fields.new }
    ensures logs { IfOk result (λ v. AreLogsOf ids.now v.items) }
{
    let mut logs = Vec::new(alloc);
    for id in ids {
        logs.push(read_log(alloc, fields, *id)?)?;
    }
    Ok(logs)
}

/// This very log.
#[tactic(auto, unfolding(plain_model::specs::StateBytes::this_log_at))]
fn read_log(alloc: Global, fields: &mut Cursor<'_>, id: LogId) -> Result<Log, CodecFault>
    ensures exact { Reads (λ l. l) (this_log_at id fields.old) result fields.new }
    ensures number { IfOk result (λ l. l.id.0 ≡ id.0) }
    ensures log { IfOk result IsLog }
{
    let id = LogId(fields.byte_within(id.0, id.0)?);
    let trim = fields.u64_within(0, Log::LENGTH)?;
    let values = read_values(alloc, fields, trim)?;
    Ok(Log::with(id, trim, values))
}

/// The kept values of a log of this trim, behind their number.
fn read_values(
    alloc: Global,
    fields: &mut Cursor<'_>,
    trim: u64,
) -> Result<VecDeque<Octets>, CodecFault>
    requires { trim ≤ 2 ^ 63 }
    ensures exact { Reads (λ v. v.items) (values_after trim fields.old) result fields.new }
    ensures few { IfOk result (λ v. trim + length v.items ≤ 2 ^ 63) }
    ensures short { IfOk result (λ v. AllByRecursion IsShort v.items) }
{
    let count = fields.u64_within(0, Log::LENGTH - trim)?;
    read_each(alloc, fields, count)
}

/// So many values.
fn read_each(
    alloc: Global,
    fields: &mut Cursor<'_>,
    count: u64,
) -> Result<VecDeque<Octets>, CodecFault>
    ensures exact { Reads (λ v. v.items) (each (string_at 0 2048) count fields.old) result fields.new }
    ensures count { IfOk result (λ v. length v.items ≡ count) }
    ensures short { IfOk result (λ v. AllByRecursion IsShort v.items) }
{
    let mut values = VecDeque::new(alloc);
    for _turn in 0..count {
        values.push_back(read_value(alloc, fields)?)?;
    }
    Ok(values)
}

/// A stored value behind its length.
fn read_value(alloc: Global, fields: &mut Cursor<'_>) -> Result<Octets, CodecFault>
    ensures exact { Reads (λ v. v) (string_at 0 2048 fields.old) result fields.new }
    ensures short { IfOk result (λ v. length v ≤ 2048) }
{
    fields.octets(alloc, 0, STORED)
}
