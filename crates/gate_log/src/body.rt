//! A record that is to be written.
ghost use Rattle.std.specs.Prelude.{◌≡◌, ◌⊎◌, ◌≤◌, ◌<◌, ◌+◌, ◌^◌, ◌++◌, [], length, drop, OnOk, OnErr};
ghost use Rattle.gate_log.specs.Records.{behind_gate, inner, sealed, u32_bytes};

use mrp_types::Memory;
use std::alloc::Global;
use std::marker::Model;

/// The bytes of a record that is to be written. Contracts see them as a list.
#[derive(Drop, Debug)]
pub struct Body {
    // nothing, or what is written behind the record's gate: its length, its bytes, and the next gate
    written: Vec<u8>,
}

impl Model for Body {
    ghost use Rattle.std.specs.Prelude.{◌≡◌, ◌⊎◌, ◌-◌, List, ℕ, [], length};
    ghost use Rattle.gate_log.specs.Records.{inner, sealed};

    ghost Value = { List ℕ };

    ghost view = { λ b. inner b.written.items };

    ghost invariant = { λ b. (b.written.items ≡ []) ⊎ (b.written.items ≡ sealed (inner b.written.items)) };
}

impl Body {
    /// A record without bytes.
    pub fn new(alloc: Global) -> Body
        ensures { result ≡ [] }
    {
        Body {
            written: Vec::new(alloc),
        }
    }

    /// Adds bytes at the end; without memory nothing is added.
    pub fn push(&mut self, bytes: &[u8]) -> Result<(), Memory>
        ensures ok { OnOk result (self.new ≡ self.old ++ bytes.now) }
        ensures err { OnErr result (self.new ≡ self.old) }
    {
        begin(&mut self.written)?;
        add(&mut self.written, bytes)?;
        Ok(())
    }

    /// How many bytes it takes behind its gate: those of its length, its own, and the next gate.
    pub fn room(&self) -> u64
        ensures room { result ≡ 5 + length self.now }
        ensures bound { result < 2 ^ 63 }
    {
        if self.written.is_empty() {
            return 5;
        }
        self.written.len() as u64
    }

    /// What is written behind its gate. It asks that its length fits four bytes.
    pub fn written(&self) -> &[u8]
        requires { length self.now < 2 ^ 32 }
        ensures { result.now ≡ behind_gate self.now }
    {
        if self.written.is_empty() {
            return &[0; 5];
        }
        &self.written
    }
}

// A record without bytes, where there is none yet.
fn begin(written: &mut Vec<u8>) -> Result<(), Memory>
    requires { (written.old.items ≡ []) ⊎ (written.old.items ≡ sealed (inner written.old.items)) }
    ensures ok { OnOk result (written.new.items ≡ sealed (inner written.old.items)) }
    ensures err { OnErr result (written.new.items ≡ written.old.items) }
{
    if written.is_empty() {
        written.extend_from_slice(&[0; 5])?;
    }
    Ok(())
}

// Adds bytes to a record, before the gate behind it.
fn add(written: &mut Vec<u8>, bytes: &[u8]) -> Result<(), Memory>
    requires { written.old.items ≡ sealed (inner written.old.items) }
    ensures ok { OnOk result (written.new.items ≡ sealed (inner written.old.items ++ bytes.now)) }
    ensures err { OnErr result (written.new.items ≡ written.old.items) }
{
    let gate = written.len() - 1;
    written.extend_from_slice(bytes)?;
    written[gate..].rotate_left(1);
    let size = (written.len() - 5).min(u32::MAX as usize) as u32;
    put_length(written, size);
    Ok(())
}

// Writes a length over the first four bytes.
#[tactic(auto, unfolding(crate::specs::Records::u32_bytes))]
fn put_length(written: &mut Vec<u8>, size: u32)
    requires { 4 ≤ length written.old.items }
    ensures { written.new.items ≡ u32_bytes size ++ drop 4 written.old.items }
{
    let digits = size.to_be_bytes();
    for i in 0..4 {
        written[i] = digits[i];
    }
}
