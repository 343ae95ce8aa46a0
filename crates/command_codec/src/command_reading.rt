//! Commands from bytes.

ghost use Rattle.std.specs.Prelude.{◌≡◌, ◌<◌, IfOk, Ok};
ghost use Rattle.command_codec.specs.declared.command.Command.{Command};
ghost use Rattle.mrp_types.specs.Reading.{chain};
ghost use Rattle.command_codec.specs.Reader.{Reads, Says, string_that};
ghost use Rattle.command_codec.specs.Grammar.{command_of, command_at, command_of_kind, append_at, multi_at, read_log_at, trim_log_at, get_at, scan_at, update_at, insert_at, delete_at, swap_at, log_from, after_log, logs_at, ends};
ghost use Rattle.command_codec.specs.Spelling.{command_bytes};
ghost use Rattle.command_codec.specs.Valid.{IsCommand, HasNumbers};

use crate::reading::Cursor;
use crate::{CodecFault, Command, Logs, order};
use mrp_types::limits::{KEY, LAST_LOG, LOGS, STORED};
use mrp_types::{LogId, Octets};
use std::alloc::Global;

/// The command that the bytes spell, all of the bytes.
pub fn read_command(alloc: Global, bytes: &[u8]) -> Result<Command, CodecFault>
    // What is read is spelled so, and has a spelling.
    ensures found { IfOk result (λ command. (bytes.now ≡ command_bytes command) × IsCommand command) }
    // What is spelled so is read, unless memory runs out.
    ensures only { (command : Command) → IsCommand command → HasNumbers command → bytes.now ≡ command_bytes command → Says (λ c. c) (Ok command) result }
    ensures exact { Says (λ c. c) (command_of bytes.now) result }
{
    read_all(alloc, bytes)
}

fn read_all(alloc: Global, bytes: &[u8]) -> Result<Command, CodecFault>
    ensures { Says (λ c. c) (command_of bytes.now) result }
{
    let mut fields = Cursor::new(bytes);
    let command = read_one(alloc, &mut fields)?;
    fields.end()?;
    Ok(command)
}

#[tactic(auto, unfolding(crate::specs::Grammar::command_at))]
fn read_one(alloc: Global, fields: &mut Cursor<'_>) -> Result<Command, CodecFault>
    ensures { Reads (λ c. c) (command_at fields.old) result fields.new }
{
    let at = fields.at();
    let kind = fields.byte()?;
    read_of_kind(alloc, fields, at, kind)
}

#[tactic(auto, unfolding(crate::specs::Grammar::command_of_kind))]
fn read_of_kind(
    alloc: Global,
    fields: &mut Cursor<'_>,
    at: usize,
    kind: u8,
) -> Result<Command, CodecFault>
    ensures { Reads (λ c. c) (command_of_kind at kind fields.old) result fields.new }
{
    match kind {
        1 => read_append(alloc, fields),
        2 => read_multi(alloc, fields),
        3 => read_read_log(fields),
        4 => read_trim_log(fields),
        5 => read_get(alloc, fields),
        6 => read_scan(alloc, fields),
        7 => read_update(alloc, fields),
        8 => read_insert(alloc, fields),
        9 => read_delete(alloc, fields),
        10 => read_swap(alloc, fields),
        _ => Err(CodecFault::BadKind(at)),
    }
}

#[tactic(auto, unfolding(crate::specs::Grammar::append_at))]
fn read_append(alloc: Global, fields: &mut Cursor<'_>) -> Result<Command, CodecFault>
    ensures { Reads (λ c. c) (append_at fields.old) result fields.new }
{
    let log = LogId(fields.byte_within(0, LAST_LOG)?);
    let value = fields.octets(alloc, 0, STORED)?;
    Ok(Command::Append { log, value })
}

#[tactic(auto, unfolding(crate::specs::Grammar::multi_at))]
fn read_multi(alloc: Global, fields: &mut Cursor<'_>) -> Result<Command, CodecFault>
    ensures { Reads (λ c. c) (multi_at fields.old) result fields.new }
{
    let logs = read_logs(alloc, fields)?;
    let value = fields.octets(alloc, 0, STORED)?;
    Ok(Command::Multi { logs, value })
}

fn read_logs(alloc: Global, fields: &mut Cursor<'_>) -> Result<Logs, CodecFault>
    ensures { Reads (λ l. l) (logs_at fields.old) result fields.new }
{
    let count = fields.byte_within(1, LOGS)?;
    read_rising_logs(alloc, fields, count)
}

fn read_rising_logs(alloc: Global, fields: &mut Cursor<'_>, count: u8) -> Result<Logs, CodecFault>
    ensures { Reads (λ l. l) (chain log_from after_log count 0 fields.old) result fields.new }
{
    let mut logs = Vec::new(alloc);
    let mut least = 0;
    for _turn in 0..count {
        let log = read_log(fields, least)?;
        least = log.0 + 1;
        logs.push(log)?;
    }
    Ok(Logs::from_vec(logs))
}

fn read_log(fields: &mut Cursor<'_>, least: u8) -> Result<LogId, CodecFault>
    ensures exact { Reads (λ l. l) (log_from least fields.old) result fields.new }
    ensures low { IfOk result (λ log. log.0 < 64) }
{
    Ok(LogId(fields.byte_within(least, LAST_LOG)?))
}

#[tactic(auto, unfolding(crate::specs::Grammar::read_log_at))]
fn read_read_log(fields: &mut Cursor<'_>) -> Result<Command, CodecFault>
    ensures { Reads (λ c. c) (read_log_at fields.old) result fields.new }
{
    let log = LogId(fields.byte_within(0, LAST_LOG)?);
    let position = fields.u64()?;
    Ok(Command::ReadLog { log, position })
}

#[tactic(auto, unfolding(crate::specs::Grammar::trim_log_at))]
fn read_trim_log(fields: &mut Cursor<'_>) -> Result<Command, CodecFault>
    ensures { Reads (λ c. c) (trim_log_at fields.old) result fields.new }
{
    let log = LogId(fields.byte_within(0, LAST_LOG)?);
    let position = fields.u64()?;
    Ok(Command::TrimLog { log, position })
}

#[tactic(auto, unfolding(crate::specs::Grammar::get_at))]
fn read_get(alloc: Global, fields: &mut Cursor<'_>) -> Result<Command, CodecFault>
    ensures { Reads (λ c. c) (get_at fields.old) result fields.new }
{
    let key = fields.octets(alloc, 1, KEY)?;
    Ok(Command::Get { key })
}

#[tactic(auto, unfolding(crate::specs::Grammar::scan_at))]
fn read_scan(alloc: Global, fields: &mut Cursor<'_>) -> Result<Command, CodecFault>
    ensures { Reads (λ c. c) (scan_at fields.old) result fields.new }
{
    let from = fields.octets(alloc, 0, KEY)?;
    let to = end_of_scan(fields, from.bytes())?;
    let to = Octets::from_slice(alloc, to)?;
    Ok(Command::Scan { from, to })
}

#[tactic(auto, unfolding(crate::specs::Reader::string_that))]
fn end_of_scan<'a>(fields: &mut Cursor<'a>, from: &[u8]) -> Result<&'a [u8], CodecFault>
    ensures { Reads (λ x. x.now) (string_that 0 256 (ends from.now) fields.old) result fields.new }
{
    let length = fields.length(0, KEY)?;
    let at = fields.at();
    let to = fields.bytes(length)?;
    if !order::ends(from, to) {
        return Err(CodecFault::BadField(at));
    }
    Ok(to)
}

#[tactic(auto, unfolding(crate::specs::Grammar::update_at))]
fn read_update(alloc: Global, fields: &mut Cursor<'_>) -> Result<Command, CodecFault>
    ensures { Reads (λ c. c) (update_at fields.old) result fields.new }
{
    let key = fields.octets(alloc, 1, KEY)?;
    let value = fields.octets(alloc, 0, STORED)?;
    Ok(Command::Update { key, value })
}

#[tactic(auto, unfolding(crate::specs::Grammar::insert_at))]
fn read_insert(alloc: Global, fields: &mut Cursor<'_>) -> Result<Command, CodecFault>
    ensures { Reads (λ c. c) (insert_at fields.old) result fields.new }
{
    let key = fields.octets(alloc, 1, KEY)?;
    let value = fields.octets(alloc, 0, STORED)?;
    Ok(Command::Insert { key, value })
}

#[tactic(auto, unfolding(crate::specs::Grammar::delete_at))]
fn read_delete(alloc: Global, fields: &mut Cursor<'_>) -> Result<Command, CodecFault>
    ensures { Reads (λ c. c) (delete_at fields.old) result fields.new }
{
    let key = fields.octets(alloc, 1, KEY)?;
    Ok(Command::Delete { key })
}

#[tactic(auto, unfolding(crate::specs::Grammar::swap_at))]
fn read_swap(alloc: Global, fields: &mut Cursor<'_>) -> Result<Command, CodecFault>
    ensures { Reads (λ c. c) (swap_at fields.old) result fields.new }
{
    let key = fields.octets(alloc, 1, KEY)?;
    let old = fields.octets(alloc, 0, STORED)?;
    let new = fields.octets(alloc, 0, STORED)?;
    Ok(Command::Swap { key, old, new })
}
