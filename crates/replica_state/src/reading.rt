//! States from bytes.

ghost use Rattle.std.specs.Prelude.{◌≡◌, ◌≤◌, ◌<◌, ◌+◌, ◌-◌, ◌^◌, true, false, IfOk, IfErr, IsTrue, length};
ghost use Rattle.std.specs.Int.{w32, w64};
ghost use Rattle.mrp_types.specs.Reading.{chain};
ghost use Rattle.command_codec.specs.Reader.{Reads, Says, byte_at, number_at, within};
ghost use Rattle.command_codec.specs.Grammar.{reply_of};
ghost use Rattle.command_codec.specs.declared.fault.CodecFault.TheVariants.{Memory as Wanted};
ghost use Rattle.plain_model.specs.StateBytes.{whole_state, sessions_at, session_at_least, after_client, kept_reply_at, was_reply};
ghost use Rattle.command_codec.specs.Valid.{rises_from};
ghost use Rattle.replica_state.specs.Held.{session_of, sessions_in, replica_with};

use crate::sessions::{Kept, Sessions, keep};
use command_codec::reading::Cursor;
use command_codec::{CodecFault, read_reply};
use dlog_service::DLog;
use mrp_config::PartitionTable;
use mrp_types::{ClientId, Entry, Octets};
use range_store::RangeStore;
use services::ROOM;
use std::alloc::Global;

/// Sessions, logs and table of the state that all of the bytes are.
#[tactic(auto, unfolding(plain_model::specs::StateBytes::whole_state))]
pub fn read_parts(
    alloc: Global,
    table: &PartitionTable,
    bytes: &[u8],
) -> Result<(Sessions, DLog, RangeStore), CodecFault>
    requires { IsTrue (rises_from 0 table.now.logs) }
    ensures { Says (λ x. replica_with x.0.entries x.1 x.2) (whole_state table.now bytes.now) result }
{
    let mut fields = Cursor::new(bytes);
    let sessions = read_sessions(alloc, &mut fields)?;
    let begin = fields.at();
    let logs = DLog::read_from(alloc, &mut fields, table.logs.items())?;
    let place = fields.at();
    let entries = RangeStore::read_from(alloc, &mut fields)?;
    fields.end()?;
    if ROOM < fields.at().saturating_sub(begin) as u64 {
        return Err(CodecFault::BadField(place));
    }
    Ok((sessions, logs, entries))
}

fn read_sessions(alloc: Global, fields: &mut Cursor<'_>) -> Result<Sessions, CodecFault>
    ensures { Reads (λ m. sessions_in m.entries) (sessions_at fields.old) result fields.new }
{
    let count = fields.u16()?;
    read_each(alloc, fields, count)
}

fn read_each(alloc: Global, fields: &mut Cursor<'_>, count: u16) -> Result<Sessions, CodecFault>
    ensures { Reads (λ m. sessions_in m.entries) (chain session_at_least after_client count 0 fields.old) result fields.new }
{
    let mut sessions = Sessions::new(alloc);
    let mut least = 0;
    for _turn in 0..count {
        let (client, kept) = read_session(alloc, fields, least)?;
        least = client.0 as u16 + 1;
        keep(&mut sessions, client, kept)?;
    }
    Ok(sessions)
}

/// The session of a client of at least this number.
#[tactic(auto, unfolding(plain_model::specs::StateBytes::session_at_least))]
fn read_session(
    alloc: Global,
    fields: &mut Cursor<'_>,
    least: u16,
) -> Result<(ClientId, Kept), CodecFault>
    ensures exact { Reads (λ x. session_of (x.0.0, x.1)) (session_at_least least fields.old) result fields.new }
    ensures rising { IfOk result (λ x. least ≤ x.0.0) }
{
    let client = read_client(fields, least)?;
    let seq = fields.u64_within(1, Entry::LAST_SEQ)?;
    let reply = read_kept(alloc, fields)?;
    Ok((ClientId(client), Kept { seq, reply }))
}

#[tactic(auto, unfolding(command_codec::specs::Reader::within))]
fn read_client(fields: &mut Cursor<'_>, least: u16) -> Result<u8, CodecFault>
    ensures exact { Reads (λ n. n) (within least 255 byte_at fields.old) result fields.new }
    ensures rising { IfOk result (λ n. least ≤ n) }
{
    let at = fields.at();
    let client = fields.byte()?;
    if u16::from(client) < least {
        return Err(CodecFault::BadField(at));
    }
    Ok(client)
}

#[tactic(auto, unfolding(plain_model::specs::StateBytes::kept_reply_at))]
fn read_kept(alloc: Global, fields: &mut Cursor<'_>) -> Result<Octets, CodecFault>
    ensures { Reads (λ x. x) (kept_reply_at fields.old) result fields.new }
{
    let count = read_length(fields)?;
    let at = fields.at();
    let bytes = fields.bytes(count as usize)?;
    if !is_reply(alloc, bytes)? {
        return Err(CodecFault::BadField(at));
    }
    Ok(Octets::from_slice(alloc, bytes)?)
}

#[tactic(auto, unfolding(command_codec::specs::Reader::within))]
fn read_length(fields: &mut Cursor<'_>) -> Result<u32, CodecFault>
    ensures { Reads (λ n. n) (within 1 16384 (number_at w32) fields.old) result fields.new }
{
    let at = fields.at();
    let count = fields.u32()?;
    if count < 1 {
        return Err(CodecFault::BadField(at));
    }
    if count > 16_384 {
        return Err(CodecFault::BadField(at));
    }
    Ok(count)
}

/// Whether the bytes are those of a reply.
fn is_reply(alloc: Global, bytes: &[u8]) -> Result<bool, CodecFault>
    ensures value { IfOk result (λ b. b ≡ was_reply (reply_of bytes.now)) }
    ensures err { IfErr result (λ e. e ≡ Wanted) }
{
    match read_reply(alloc, bytes) {
        Ok(_) => Ok(true),
        Err(fault) => false_unless_memory(fault),
    }
}

fn false_unless_memory(fault: CodecFault) -> Result<bool, CodecFault>
    ensures value { IfOk result (λ b. (b ≡ false) × (fault ≡ Wanted → ⊥)) }
    ensures err { IfErr result (λ e. e ≡ Wanted) }
{
    match fault {
        CodecFault::Memory => Err(CodecFault::Memory),
        _ => Ok(false),
    }
}
