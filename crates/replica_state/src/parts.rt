//! What becomes of an entry's command.

ghost use Rattle.std.specs.Prelude.{◌≡◌, [], true, false, Some, IfOk, OnOk, IsTrue, if◌then◌else◌};
ghost use Rattle.command_codec.specs.Valid.{IsCommand};
ghost use Rattle.command_codec.specs.Grammar.{reply_of};
ghost use Rattle.command_codec.specs.Replies.{reply_bytes, IsReply};
ghost use Rattle.plain_model.specs.Replicas.{has_no_room, taken, where_room, effect_of};
ghost use Rattle.plain_model.specs.StateBytes.{was_reply};
ghost use Rattle.services.specs.Parts.{Logs, Table, is_for};
ghost use Rattle.replica_state.specs.Held.{sessions_in, is_on_logs as is_on_logs_lem, part_of, replica_with};

use crate::room::take;
use crate::sessions::{Kept, Sessions, keep};
use command_codec::{Command, Reply, read_reply, write_reply};
use dlog_service::DLog;
use mrp_config::{LogIds, PartitionTable, RingIds};
use mrp_types::{Entry, Memory, Octets, PartitionId, RingId, Seats};
use range_store::RangeStore;
use services::Service;
use std::alloc::Global;

/// What becomes of a command, by what is kept of its client.
#[derive(Debug, Drop)]
pub enum Turn {
    /// It is taken.
    Take,
    /// The kept reply is given again.
    Again(Reply),
    /// It gets nothing.
    Pass,
}

/// The reply that kept bytes spell.
pub fn reply_again(alloc: Global, bytes: &[u8]) -> Result<Reply, Memory>
    requires { was_reply (reply_of bytes.now) ≡ true }
    ensures kept { IfOk result (λ reply. bytes.now ≡ reply_bytes reply) }
    ensures spelled { IfOk result IsReply }
{
    match read_reply(alloc, bytes) {
        Ok(reply) => Ok(reply),
        Err(_) => Err(Memory),
    }
}

/// Whether the command is one on logs.
fn is_on_logs(command: &Command) -> bool
    ensures { result ≡ is_on_logs_lem command.now }
{
    match command {
        Command::Append { log: _, value: _ } => true,
        Command::Multi { logs: _, value: _ } => true,
        Command::ReadLog {
            log: _,
            position: _,
        } => true,
        Command::TrimLog {
            log: _,
            position: _,
        } => true,
        _ => false,
    }
}

/// Has logs or table take the command, where there is room.
pub fn take_command(
    logs: &mut DLog,
    table: &mut RangeStore,
    command: &Command,
) -> Result<Reply, Memory>
    requires valid { IsCommand command.now }
    requires concerned { IsTrue (is_for command.now (part_of command.now logs.old table.old)) }
    requires room { has_no_room logs.old table.old ≡ false }
    ensures logs { OnOk result (logs.new ≡ (where_room logs.old table.old (effect_of command.now logs.old table.old)).logs) }
    ensures table { OnOk result (table.new ≡ (where_room logs.old table.old (effect_of command.now logs.old table.old)).table) }
    ensures reply { IfOk result (λ reply. reply ≡ (where_room logs.old table.old (effect_of command.now logs.old table.old)).reply) }
    ensures spelled { IfOk result IsReply }
{
    let used = logs.size() + table.size();
    if is_on_logs(command) {
        return take(logs, used, command);
    }
    take(table, used, command)
}

/// Has logs or table take the command of an entry, where there is room, and keeps the reply with the client's number.
pub fn take_parts(
    alloc: Global,
    sessions: &mut Sessions,
    logs: &mut DLog,
    table: &mut RangeStore,
    entry: &Entry,
    command: &Command,
) -> Result<Reply, Memory>
    requires valid { IsCommand command.now }
    requires concerned { IsTrue (is_for command.now (part_of command.now logs.old table.old)) }
    requires room { has_no_room logs.old table.old ≡ false }
    ensures state { OnOk result (replica_with sessions.new.entries logs.new table.new ≡ (taken (replica_with sessions.old.entries logs.old table.old) entry.now command.now).replica) }
    ensures reply { IfOk result (λ reply. Some (reply_bytes reply) ≡ (taken (replica_with sessions.old.entries logs.old table.old) entry.now command.now).reply) }
    ensures spelled { IfOk result IsReply }
{
    let reply = take_command(logs, table, command)?;
    let bytes = write_reply(alloc, &reply)?;
    let kept = Kept {
        seq: entry.seq,
        reply: bytes,
    };
    keep(sessions, entry.client, kept)?;
    Ok(reply)
}

/// A partition without rings, logs and replicas.
pub fn no_partition(alloc: Global) -> PartitionTable
    ensures { result.logs ≡ [] }
{
    PartitionTable {
        id: PartitionId(0),
        replicas: Seats::from_slice(&[]),
        rings: RingIds::new(alloc),
        home: RingId(0),
        from: Octets::new(alloc),
        to: Octets::new(alloc),
        logs: LogIds::new(alloc),
        trim_quorum: 0,
        recovery_quorum: 0,
    }
}
