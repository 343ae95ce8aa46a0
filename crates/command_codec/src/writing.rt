//! Numbers and strings of bytes at the end of what was written: numbers are big-endian. Where memory runs out nothing
//! is said of what was written: a writer ends there, and what it wrote is dropped.

ghost use Rattle.std.specs.Prelude.{◌≡◌, ◌<◌, ◌^◌, ◌++◌, [], ◌∷◌, length, OnOk};
ghost use Rattle.command_codec.specs.Fields.{u16_bytes, u32_bytes, u64_bytes, string16};
ghost use Rattle.command_codec.specs.Spelling.{value_bytes};

use mrp_types::{Memory, Octets, Value};

/// Adds one byte.
pub fn put_u8(out: &mut Octets, number: u8) -> Result<(), Memory>
    ensures { OnOk result (out.new ≡ out.old ++ number ∷ []) }
{
    out.push(number)
}

/// Adds a number of two bytes.
#[tactic(auto, unfolding(crate::specs::Fields::u16_bytes))]
pub fn put_u16(out: &mut Octets, number: u16) -> Result<(), Memory>
    ensures { OnOk result (out.new ≡ out.old ++ u16_bytes number) }
{
    out.extend(&number.to_be_bytes())
}

/// Adds a number of four bytes.
#[tactic(auto, unfolding(crate::specs::Fields::u32_bytes))]
pub fn put_u32(out: &mut Octets, number: u32) -> Result<(), Memory>
    ensures { OnOk result (out.new ≡ out.old ++ u32_bytes number) }
{
    out.extend(&number.to_be_bytes())
}

/// Adds a number of eight bytes.
#[tactic(auto, unfolding(crate::specs::Fields::u64_bytes))]
pub fn put_u64(out: &mut Octets, number: u64) -> Result<(), Memory>
    ensures { OnOk result (out.new ≡ out.old ++ u64_bytes number) }
{
    out.extend(&number.to_be_bytes())
}

/// Adds a length of two bytes, and that many bytes.
pub fn put_string16(out: &mut Octets, bytes: &[u8]) -> Result<(), Memory>
    requires { length bytes.now < 2 ^ 16 }
    ensures { OnOk result (out.new ≡ out.old ++ string16 bytes.now) }
{
    put_u16(out, bytes.len() as u16)?;
    out.extend(bytes)
}

/// Adds a value with its length of two bytes.
pub fn put_value(out: &mut Octets, value: &Value) -> Result<(), Memory>
    requires { length (value_bytes value.now) < 2 ^ 16 }
    ensures { OnOk result (out.new ≡ out.old ++ string16 (value_bytes value.now)) }
{
    match value {
        Value::Skip => put_string16(out, &[0]),
        Value::Batch(batch) => put_string16(out, batch.bytes()),
    }
}
