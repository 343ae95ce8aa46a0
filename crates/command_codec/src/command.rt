//! The ten commands of the two services.

ghost use Rattle.std.specs.Prelude.{◌≡◌, ◌↔◌, ◌≤◌, ◌<◌, ◌^◌, ◌++◌, ◌∷◌, length, map, IfOk, OnOk, IsTrue};
ghost use Rattle.std.specs.Ordering.{nat_cmp};
ghost use Rattle.std.specs.Cmp.Lexicographic.{slice_cmp};
ghost use Rattle.std.specs.declared.cmp.Ordering.TheVariants.{Less};
ghost use Rattle.command_codec.specs.Fields.{u64_bytes, string16};
ghost use Rattle.command_codec.specs.Spelling.{command_bytes};
ghost use Rattle.command_codec.specs.Valid.{IsCommand, IsKey, AreLogs, IsRange, rises_from};

use crate::Logs;
use crate::writing::{put_string16, put_u8, put_u64};
use mrp_types::limits::{KEY, LOGS, STORED};
use mrp_types::{LogId, Memory, Octets};
use std::alloc::Global;
use std::cmp::Ordering;

/// What a client asks of the logs or of the map.
#[derive(Debug, Drop)]
pub enum Command {
    /// Adds a value to a log.
    Append {
        log: LogId,
        value: Octets,
    },
    /// Adds a value to several logs at once.
    Multi {
        logs: Logs,
        value: Octets,
    },
    /// Reads the value at a position of a log.
    ReadLog {
        log: LogId,
        position: u64,
    },
    /// Forgets the values of a log below a position.
    TrimLog {
        log: LogId,
        position: u64,
    },
    /// Reads the value of a key.
    Get {
        key: Octets,
    },
    /// Reads the keys from `from` on and below `to`; an empty `to` is no end.
    Scan {
        from: Octets,
        to: Octets,
    },
    /// Sets the value of a key that is there.
    Update {
        key: Octets,
        value: Octets,
    },
    /// Sets the value of a key that isn't there.
    Insert {
        key: Octets,
        value: Octets,
    },
    /// Removes a key.
    Delete {
        key: Octets,
    },
    /// Sets the value of a key that has the value `old`.
    Swap {
        key: Octets,
        old: Octets,
        new: Octets,
    },
}

impl Command {
    /// Whether the command has a spelling: logs below 64 that increase, keys of 1 to 256 bytes, values of at
    /// most 2,048, a scan whose ends have at most 256 and are in order.
    pub fn is_valid(&self) -> bool
        ensures { IsTrue result ↔ IsCommand self.now }
    {
        match self {
            Command::Append { log, value } => log.0 < LOGS && value.len() <= STORED,
            Command::Multi { logs, value } => are_logs(logs.items()) && value.len() <= STORED,
            Command::ReadLog { log, position: _ } => log.0 < LOGS,
            Command::TrimLog { log, position: _ } => log.0 < LOGS,
            Command::Get { key } => is_key(key),
            Command::Scan { from, to } => is_range(from, to),
            Command::Update { key, value } => is_key(key) && value.len() <= STORED,
            Command::Insert { key, value } => is_key(key) && value.len() <= STORED,
            Command::Delete { key } => is_key(key),
            Command::Swap { key, old, new } => {
                is_key(key) && old.len() <= STORED && new.len() <= STORED
            }
        }
    }
}

fn is_key(key: &Octets) -> bool
    ensures { IsTrue result ↔ IsKey key.now }
{
    !key.is_empty() && key.len() <= KEY
}

fn is_range(from: &Octets, to: &Octets) -> bool
    ensures { IsTrue result ↔ IsRange from.now to.now }
{
    from.len() <= KEY && to.len() <= KEY && (to.is_empty() || is_before(from.bytes(), to.bytes()))
}

fn is_before(from: &[u8], to: &[u8]) -> bool
    ensures { IsTrue result ↔ (slice_cmp nat_cmp from.now to.now ≡ Less) }
{
    from.cmp(to) == Ordering::Less
}

fn are_logs(logs: &[LogId]) -> bool
    ensures { IsTrue result ↔ AreLogs logs.now }
{
    !logs.is_empty() && logs.len() <= LOGS as usize && increase(logs)
}

fn increase(logs: &[LogId]) -> bool
    ensures { result ≡ rises_from 0 logs.now }
{
    let mut least = 0;
    for log in logs {
        if log.0 < least || log.0 >= LOGS {
            return false;
        }
        least = log.0 + 1;
    }
    true
}

/// The one spelling of a command.
pub fn write_command(alloc: Global, command: &Command) -> Result<Octets, Memory>
    requires { IsCommand command.now }
    ensures { IfOk result (λ bytes. bytes ≡ command_bytes command.now) }
{
    let mut out = Octets::new(alloc);
    put_command(&mut out, command)?;
    Ok(out)
}

fn put_command(out: &mut Octets, command: &Command) -> Result<(), Memory>
    requires { IsCommand command.now }
    ensures { OnOk result (out.new ≡ out.old ++ command_bytes command.now) }
{
    match command {
        Command::Append { log, value } => {
            put_u8(out, 1)?;
            put_u8(out, log.0)?;
            put_string16(out, value.bytes())
        }
        Command::Multi { logs, value } => {
            put_u8(out, 2)?;
            put_logs(out, logs.items())?;
            put_string16(out, value.bytes())
        }
        Command::ReadLog { log, position } => put_position(out, 3, *log, *position),
        Command::TrimLog { log, position } => put_position(out, 4, *log, *position),
        Command::Get { key } => {
            put_u8(out, 5)?;
            put_string16(out, key.bytes())
        }
        Command::Scan { from, to } => put_two(out, 6, from, to),
        Command::Update { key, value } => put_two(out, 7, key, value),
        Command::Insert { key, value } => put_two(out, 8, key, value),
        Command::Delete { key } => {
            put_u8(out, 9)?;
            put_string16(out, key.bytes())
        }
        Command::Swap { key, old, new } => {
            put_two(out, 10, key, old)?;
            put_string16(out, new.bytes())
        }
    }
}

fn put_logs(out: &mut Octets, logs: &[LogId]) -> Result<(), Memory>
    requires { length logs.now ≤ 64 }
    ensures { OnOk result (out.new ≡ out.old ++ length logs.now ∷ map (λ (log : LogId). log.0) logs.now) }
{
    put_u8(out, logs.len() as u8)?;
    for log in logs {
        put_u8(out, log.0)?;
    }
    Ok(())
}

fn put_position(out: &mut Octets, kind: u8, log: LogId, position: u64) -> Result<(), Memory>
    ensures { OnOk result (out.new ≡ out.old ++ kind ∷ log.0 ∷ u64_bytes position) }
{
    put_u8(out, kind)?;
    put_u8(out, log.0)?;
    put_u64(out, position)
}

fn put_two(out: &mut Octets, kind: u8, first: &Octets, second: &Octets) -> Result<(), Memory>
    requires first { length first.now < 2 ^ 16 }
    requires second { length second.now < 2 ^ 16 }
    ensures { OnOk result (out.new ≡ out.old ++ kind ∷ string16 first.now ++ string16 second.now) }
{
    put_u8(out, kind)?;
    put_string16(out, first.bytes())?;
    put_string16(out, second.bytes())
}
