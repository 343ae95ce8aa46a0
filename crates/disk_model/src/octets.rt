//! A list of bytes that its holder owns.
ghost use Rattle.std.specs.Prelude.{◌≡◌, ◌≤◌, ◌-◌, min, length, take, IfOk, OnOk, OnErr};
ghost use Rattle.disk_model.specs.Steps.{written};

use std::alloc::{AllocError, Global};
use std::marker::Model;

/// A list of bytes.
#[derive(Drop, Debug)]
pub struct Octets {
    bytes: Vec<u8>,
}

impl Model for Octets {
    ghost use Rattle.std.specs.Prelude.{List, ℕ};

    ghost Value = { List ℕ };

    ghost view = { λ o. o.bytes.items };
}

impl Octets {
    /// The bytes of a `Vec`.
    pub fn new(bytes: Vec<u8>) -> Octets
        ensures { result ≡ bytes.items }
    {
        Octets { bytes }
    }

    /// A copy of these bytes.
    pub fn of(alloc: Global, bytes: &[u8]) -> Result<Octets, AllocError>
        ensures { IfOk result (λ o. o ≡ bytes.now) }
    {
        Ok(Octets {
            bytes: bytes.to_vec(alloc)?,
        })
    }

    /// The bytes.
    pub fn bytes(&self) -> &[u8]
        ensures { result.now ≡ self.now }
    {
        self.bytes.as_slice()
    }

    /// How many bytes there are.
    pub fn len(&self) -> usize
        ensures { result ≡ length self.now }
    {
        self.bytes.len()
    }

    /// Writes over what is there from a position on, and past the end. It is unchanged where memory is wanting.
    pub fn overwrite(&mut self, at: usize, from: &[u8]) -> Result<(), AllocError>
        ensures written { OnOk result (self.new ≡ written at from.now self.old) }
        ensures unchanged { OnErr result (self.new ≡ self.old) }
    {
        write_over(&mut self.bytes, at, from)
    }

    /// Drops all bytes from a position on.
    pub fn cut(&mut self, len: usize)
        ensures { self.new ≡ take len self.old }
    {
        self.bytes.truncate(len);
    }
}

fn write_over(bytes: &mut Vec<u8>, at: usize, from: &[u8]) -> Result<(), AllocError>
    ensures written { OnOk result (bytes.new.items ≡ written at from.now bytes.old.items) }
    ensures unchanged { OnErr result (bytes.new.items ≡ bytes.old.items) }
{
    let inside = inside_of(bytes.len(), at, from.len());
    bytes.extend_from_slice(&from[inside..])?;
    copy_inside(bytes, at, &from[..inside]);
    Ok(())
}

// How many of `count` bytes from `at` on lie within a length.
fn inside_of(len: usize, at: usize, count: usize) -> usize
    ensures { result ≡ min count (len - at) }
{
    if at < len { count.min(len - at) } else { 0 }
}

// Writes bytes over as many others.
fn copy_inside(bytes: &mut Vec<u8>, at: usize, from: &[u8])
    requires { length from.now ≤ length bytes.old.items - at }
    ensures { bytes.new.items ≡ written at from.now bytes.old.items }
{
    for (i, byte) in from.iter().enumerate() {
        bytes[at + i] = *byte;
    }
}
