//! Batches: what an instance orders at once.

ghost use Rattle.std.specs.Prelude.{◌≡◌, ◌++◌, IfOk, OnOk};
ghost use Rattle.mrp_types.specs.Entries.{IsEntry};
ghost use Rattle.command_codec.specs.Spelling.{entry_bytes, batch_bytes, IsBatch};

use crate::writing::{put_string16, put_u8, put_u16, put_u64};
use mrp_types::{Entry, Memory, Octets, Payload};
use std::alloc::Global;

/// The one spelling of a batch: 1 to 65,535 entries that have a spelling, at most 8,192 bytes in all.
pub fn write_batch(alloc: Global, entries: &[Entry]) -> Result<Payload, Memory>
    requires { IsBatch entries.now }
    ensures { IfOk result (λ payload. payload ≡ batch_bytes entries.now) }
{
    let mut out = Octets::new(alloc);
    put_u8(&mut out, 1)?;
    put_u16(&mut out, entries.len() as u16)?;
    for entry in entries {
        put_entry(&mut out, entry)?;
    }
    Payload::from_slice(alloc, out.bytes())
}

fn put_entry(out: &mut Octets, entry: &Entry) -> Result<(), Memory>
    requires { IsEntry entry.now }
    ensures { OnOk result (out.new ≡ out.old ++ entry_bytes entry.now) }
{
    put_u8(out, entry.client.0)?;
    put_u64(out, entry.seq)?;
    put_string16(out, entry.command.bytes())
}
