//! What an instance decides.

ghost use Rattle.std.specs.Prelude.{◌≡◌, ◌↔◌, IfOk, IsTrue};
ghost use Rattle.mrp_types.specs.Entries.{IsEntry};

use crate::{ClientId, Memory, Octets, Payload};
use std::alloc::Global;

/// The value of an instance.
#[derive(Debug, Drop)]
pub enum Value {
    /// Nothing is ordered here.
    Skip,
    /// The written bytes of one or more entries.
    Batch(Payload),
}

impl Value {
    /// An equal value, whose payload is shared and not copied.
    pub fn share(&self) -> Result<Self, Memory>
        ensures { IfOk result (λ value. value ≡ self.now) }
    {
        match self {
            Value::Skip => Ok(Value::Skip),
            Value::Batch(payload) => Ok(Value::Batch(payload.share()?)),
        }
    }

    /// Whether the two are one value.
    pub fn same(&self, other: &Value) -> bool
        ensures { IsTrue result ↔ (self.now ≡ other.now) }
    {
        match (self, other) {
            (Value::Skip, Value::Skip) => true,
            (Value::Batch(own), Value::Batch(others)) => own.bytes() == others.bytes(),
            _ => false,
        }
    }
}

/// A command as its client asked it: the client's number for it, and its written bytes.
#[derive(Debug, Drop)]
pub struct Entry {
    pub client: ClientId,
    /// From 1 to 2^63 - 1, each number of a client once.
    pub seq: u64,
    /// At most `Entry::COMMAND` bytes.
    pub command: Octets,
}

impl Entry {
    /// The most bytes of a command.
    pub const COMMAND: usize = 4_608;

    /// The greatest number of a client's command.
    pub const LAST_SEQ: u64 = (1 << 63) - 1;

    /// An equal entry.
    pub fn copy(&self, alloc: Global) -> Result<Self, Memory>
        ensures { IfOk result (λ entry. entry ≡ self.now) }
    {
        let command = Octets::from_slice(alloc, self.command.bytes())?;
        Ok(Entry {
            client: self.client,
            seq: self.seq,
            command,
        })
    }

    /// Whether the entry has a spelling in a batch. The command isn't looked into.
    pub fn is_valid(&self) -> bool
        ensures { IsTrue result ↔ IsEntry self.now }
    {
        self.seq >= 1 && self.seq <= Self::LAST_SEQ && self.command.len() <= Self::COMMAND
    }
}
