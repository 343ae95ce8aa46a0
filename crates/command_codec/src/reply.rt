//! What the services reply.

ghost use Rattle.std.specs.Prelude.{◌≡◌, ◌↔◌, ◌≤◌, ◌<◌, ◌^◌, ◌++◌, ◌∷◌, [], length, IfOk, OnOk, IsTrue};
ghost use Rattle.std.specs.List.{AllByRecursion, flat_map};
ghost use Rattle.command_codec.specs.Fields.{u16_bytes, u64_bytes};
ghost use Rattle.command_codec.specs.Replies.{IsReply, ArePositions, AreTableEntries, IsPosition, IsTableEntry, reply_bytes, position_bytes, table_entry_bytes, keys_rise, flag};

use crate::joining::add_copies;
use crate::order::comes_after;
use crate::writing::{put_string16, put_u8, put_u16, put_u64};
use crate::{LogPositions, TableEntries};
use mrp_types::limits::{ENTRIES, KEY, LOGS, POSITIONS, STORED};
use mrp_types::{LogId, Memory, Octets};
use std::alloc::Global;

/// The position that a log gave a value.
#[derive(Clone, Copy, Debug, PartialEq, Eq)]
pub struct LogPosition {
    pub log: LogId,
    pub position: u64,
}

/// A key of the map, and its value.
#[derive(Debug, Drop)]
pub struct TableEntry {
    pub key: Octets,
    pub value: Octets,
}

impl TableEntry {
    /// An equal entry.
    pub fn copy(&self, alloc: Global) -> Result<Self, Memory>
        ensures { IfOk result (λ entry. entry ≡ self.now) }
    {
        let key = Octets::from_slice(alloc, self.key.bytes())?;
        let value = Octets::from_slice(alloc, self.value.bytes())?;
        Ok(TableEntry { key, value })
    }
}

/// What a partition replies to a command.
#[derive(Debug, Drop)]
pub enum Reply {
    /// The positions that logs gave a value.
    Positions(LogPositions),
    /// The value that was asked for.
    Value(Octets),
    /// The position is below the log's trim, which is this.
    Trimmed(u64),
    /// There is no such key.
    Absent,
    /// The position is past the log's length, which is this.
    Beyond(u64),
    /// The key is there already.
    Exists,
    /// It was done.
    Done,
    /// The entries of a scan in order of keys, and whether entries were left out.
    Entries { more: bool, entries: TableEntries },
    /// It would take the partition past its limit of bytes.
    Limit,
    /// The key has another value than the one that was expected, which is this.
    Differs(Octets),
}

impl Reply {
    /// Whether the reply has a spelling: logs below 64, keys of 1 to 256 bytes that increase, values of at most
    /// 2,048 bytes, at most 255 positions and 65,535 entries.
    pub fn is_valid(&self) -> bool
        ensures { IsTrue result ↔ IsReply self.now }
    {
        match self {
            Reply::Positions(positions) => are_positions(positions.items()),
            Reply::Value(value) => value.len() <= STORED,
            Reply::Entries { more: _, entries } => are_entries(entries.items()),
            Reply::Differs(value) => value.len() <= STORED,
            _ => true,
        }
    }

    /// An equal reply.
    pub fn copy(&self, alloc: Global) -> Result<Self, Memory>
        ensures { IfOk result (λ reply. reply ≡ self.now) }
    {
        match self {
            Reply::Positions(positions) => Ok(Reply::Positions(LogPositions::from_slice(
                alloc,
                positions.items(),
            )?)),
            Reply::Value(value) => Ok(Reply::Value(Octets::from_slice(alloc, value.bytes())?)),
            Reply::Trimmed(trim) => Ok(Reply::Trimmed(*trim)),
            Reply::Absent => Ok(Reply::Absent),
            Reply::Beyond(length) => Ok(Reply::Beyond(*length)),
            Reply::Exists => Ok(Reply::Exists),
            Reply::Done => Ok(Reply::Done),
            Reply::Entries { more, entries } => Ok(Reply::Entries {
                more: *more,
                entries: copied(alloc, entries.items())?,
            }),
            Reply::Limit => Ok(Reply::Limit),
            Reply::Differs(value) => Ok(Reply::Differs(Octets::from_slice(alloc, value.bytes())?)),
        }
    }
}

fn are_positions(positions: &[LogPosition]) -> bool
    ensures { IsTrue result ↔ ArePositions positions.now }
{
    positions.len() <= POSITIONS && have_logs(positions)
}

fn have_logs(positions: &[LogPosition]) -> bool
    ensures { IsTrue result ↔ AllByRecursion IsPosition positions.now }
{
    positions.iter().all(|p| p.log.0 < LOGS)
}

fn are_entries(entries: &[TableEntry]) -> bool
    ensures { IsTrue result ↔ AreTableEntries entries.now }
{
    entries.len() <= ENTRIES && have_lengths(entries) && rise(entries)
}

fn have_lengths(entries: &[TableEntry]) -> bool
    ensures { IsTrue result ↔ AllByRecursion IsTableEntry entries.now }
{
    entries.iter().all(|entry| has_lengths(entry))
}

fn has_lengths(entry: &TableEntry) -> bool
    ensures { IsTrue result ↔ IsTableEntry entry.now }
{
    !entry.key.is_empty() && entry.key.len() <= KEY && entry.value.len() <= STORED
}

fn rise(entries: &[TableEntry]) -> bool
    ensures { result ≡ keys_rise [] entries.now }
{
    let mut before: &[u8] = &[];
    for entry in entries {
        if !comes_after(before, entry.key.bytes()) {
            return false;
        }
        before = entry.key.bytes();
    }
    true
}

/// Equal entries.
fn copied(alloc: Global, entries: &[TableEntry]) -> Result<TableEntries, Memory>
    ensures { IfOk result (λ copies. copies ≡ entries.now) }
{
    let mut copies = TableEntries::new(alloc);
    add_copies(alloc, &mut copies, entries)?;
    Ok(copies)
}

/// The one spelling of a reply.
pub fn write_reply(alloc: Global, reply: &Reply) -> Result<Octets, Memory>
    requires { IsReply reply.now }
    ensures { IfOk result (λ bytes. bytes ≡ reply_bytes reply.now) }
{
    let mut out = Octets::new(alloc);
    put_reply(&mut out, reply)?;
    Ok(out)
}

fn put_reply(out: &mut Octets, reply: &Reply) -> Result<(), Memory>
    requires { IsReply reply.now }
    ensures { OnOk result (out.new ≡ out.old ++ reply_bytes reply.now) }
{
    match reply {
        Reply::Positions(positions) => {
            put_u8(out, 1)?;
            put_positions(out, positions.items())
        }
        Reply::Value(value) => {
            put_u8(out, 2)?;
            put_string16(out, value.bytes())
        }
        Reply::Trimmed(trim) => put_number(out, 3, *trim),
        Reply::Absent => put_u8(out, 4),
        Reply::Beyond(length) => put_number(out, 5, *length),
        Reply::Exists => put_u8(out, 6),
        Reply::Done => put_u8(out, 7),
        Reply::Entries { more, entries } => {
            put_u8(out, 8)?;
            put_u8(out, u8::from(*more))?;
            put_entries(out, entries.items())
        }
        Reply::Limit => put_u8(out, 9),
        Reply::Differs(value) => {
            put_u8(out, 10)?;
            put_string16(out, value.bytes())
        }
    }
}

fn put_number(out: &mut Octets, kind: u8, number: u64) -> Result<(), Memory>
    ensures { OnOk result (out.new ≡ out.old ++ kind ∷ u64_bytes number) }
{
    put_u8(out, kind)?;
    put_u64(out, number)
}

fn put_positions(out: &mut Octets, positions: &[LogPosition]) -> Result<(), Memory>
    requires { length positions.now ≤ 255 }
    ensures { OnOk result (out.new ≡ out.old ++ length positions.now ∷ flat_map position_bytes positions.now) }
{
    put_u8(out, positions.len() as u8)?;
    for position in positions {
        put_u8(out, position.log.0)?;
        put_u64(out, position.position)?;
    }
    Ok(())
}

fn put_entries(out: &mut Octets, entries: &[TableEntry]) -> Result<(), Memory>
    requires few { length entries.now ≤ 65535 }
    requires each { AllByRecursion IsTableEntry entries.now }
    ensures { OnOk result (out.new ≡ out.old ++ u16_bytes (length entries.now) ++ flat_map table_entry_bytes entries.now) }
{
    put_u16(out, entries.len() as u16)?;
    for entry in entries {
        put_table_entry(out, entry)?;
    }
    Ok(())
}

fn put_table_entry(out: &mut Octets, entry: &TableEntry) -> Result<(), Memory>
    requires { IsTableEntry entry.now }
    ensures { OnOk result (out.new ≡ out.old ++ table_entry_bytes entry.now) }
{
    put_string16(out, entry.key.bytes())?;
    put_string16(out, entry.value.bytes())
}
