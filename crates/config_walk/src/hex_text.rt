//! Bytes in lower-case hexadecimal.

ghost use Rattle.std.specs.Prelude.{◌≡◌, ◌⊎◌};
ghost use Rattle.hex.specs.Hex.{decode_of};
ghost use Rattle.hex.specs.declared.error.FromHexError.TheVariants.{OutOfMemory};
ghost use Rattle.toml.specs.Data.{get_member};
ghost use Rattle.toml.specs.View.{table_view};
ghost use Rattle.config_walk.specs.declared.fault.ConfigFault.TheVariants.{OutOfRange, Memory};
ghost use Rattle.config_walk.specs.Values.{Says, decoded as decoded_lem, hex_of};

use crate::ConfigFault;
use crate::faults::out_of_range;
use crate::values::read_text;
use hex::FromHexError;
use mrp_types::Octets;
use mrp_types::limits::KEY;
use std::alloc::Global;
use toml::Table;

/// The bytes that the text of this key, which faults call `name` spells, at most 256.
#[tactic(auto, unfolding(crate::specs::Values::hex_of))]
pub fn read_hex(alloc: Global, table: &Table, key: &str, name: &str) -> Result<Octets, ConfigFault>
    ensures { Says (λ b. b) (hex_of name.now (get_member key.now (table_view table.now))) result }
{
    let text = read_text(alloc, table, key, name)?;
    decoded(alloc, name, text)
}

fn decoded(alloc: Global, name: &str, text: &str) -> Result<Octets, ConfigFault>
    ensures { Says (λ b. b) (decoded_lem name.now text.now (decode_of text.now)) result }
{
    let bytes = match hex::decode(alloc, text.as_bytes()) {
        Ok(bytes) => bytes,
        Err(fault) => return Err(fault_of(alloc, name, fault)),
    };
    if hex::encode(alloc, bytes.as_slice())?.as_bytes() != text.as_bytes() {
        return Err(out_of_range(alloc, name));
    }
    if bytes.len() > KEY {
        return Err(out_of_range(alloc, name));
    }
    Ok(Octets::from_vec(bytes))
}

fn fault_of(alloc: Global, name: &str, fault: FromHexError) -> ConfigFault
    ensures either { (result ≡ Memory) ⊎ (result ≡ OutOfRange name.now) }
    ensures memory { fault ≡ OutOfMemory → result ≡ Memory }
{
    match fault {
        FromHexError::OutOfMemory => ConfigFault::Memory,
        _ => out_of_range(alloc, name),
    }
}
