//! Copies of commands.

ghost use Rattle.std.specs.Prelude.{◌≡◌, IfOk};

use command_codec::{Command, Logs};
use mrp_types::{Memory, Octets};
use std::alloc::Global;

/// An equal command.
pub fn copy_command(alloc: Global, command: &Command) -> Result<Command, Memory>
    ensures { IfOk result (λ copied. copied ≡ command.now) }
{
    match command {
        Command::Append { log, value } => Ok(Command::Append {
            log: *log,
            value: copy(alloc, value)?,
        }),
        Command::Multi { logs, value } => Ok(Command::Multi {
            logs: Logs::from_slice(alloc, logs.items())?,
            value: copy(alloc, value)?,
        }),
        Command::ReadLog { log, position } => Ok(Command::ReadLog {
            log: *log,
            position: *position,
        }),
        Command::TrimLog { log, position } => Ok(Command::TrimLog {
            log: *log,
            position: *position,
        }),
        Command::Get { key } => Ok(Command::Get {
            key: copy(alloc, key)?,
        }),
        Command::Scan { from, to } => Ok(Command::Scan {
            from: copy(alloc, from)?,
            to: copy(alloc, to)?,
        }),
        Command::Update { key, value } => Ok(Command::Update {
            key: copy(alloc, key)?,
            value: copy(alloc, value)?,
        }),
        Command::Insert { key, value } => Ok(Command::Insert {
            key: copy(alloc, key)?,
            value: copy(alloc, value)?,
        }),
        Command::Delete { key } => Ok(Command::Delete {
            key: copy(alloc, key)?,
        }),
        Command::Swap { key, old, new } => Ok(Command::Swap {
            key: copy(alloc, key)?,
            old: copy(alloc, old)?,
            new: copy(alloc, new)?,
        }),
    }
}

fn copy(alloc: Global, bytes: &Octets) -> Result<Octets, Memory>
    ensures { IfOk result (λ copied. copied ≡ bytes.now) }
{
    Octets::from_slice(alloc, bytes.bytes())
}
