//! Faults that name a key.

ghost use Rattle.std.specs.Prelude.{◌≡◌, ◌⊎◌};
ghost use Rattle.config_walk.specs.declared.fault.ConfigFault.TheVariants.{Missing, WrongKind, OutOfRange, Repeated, UnknownId, Memory};

use crate::ConfigFault;
use mrp_types::Octets;
use std::alloc::Global;

pub fn missing(alloc: Global, name: &str) -> ConfigFault
    ensures { (result ≡ Memory) ⊎ (result ≡ Missing name.now) }
{
    match Octets::from_slice(alloc, name.as_bytes()) {
        Ok(name) => ConfigFault::Missing(name),
        Err(_) => ConfigFault::Memory,
    }
}

pub fn wrong_kind(alloc: Global, name: &str) -> ConfigFault
    ensures { (result ≡ Memory) ⊎ (result ≡ WrongKind name.now) }
{
    match Octets::from_slice(alloc, name.as_bytes()) {
        Ok(name) => ConfigFault::WrongKind(name),
        Err(_) => ConfigFault::Memory,
    }
}

pub fn out_of_range(alloc: Global, name: &str) -> ConfigFault
    ensures { (result ≡ Memory) ⊎ (result ≡ OutOfRange name.now) }
{
    match Octets::from_slice(alloc, name.as_bytes()) {
        Ok(name) => ConfigFault::OutOfRange(name),
        Err(_) => ConfigFault::Memory,
    }
}

pub fn repeated(alloc: Global, name: &str, id: u8) -> ConfigFault
    ensures { (result ≡ Memory) ⊎ (result ≡ Repeated name.now id) }
{
    match Octets::from_slice(alloc, name.as_bytes()) {
        Ok(name) => ConfigFault::Repeated(name, id),
        Err(_) => ConfigFault::Memory,
    }
}

pub fn unknown_id(alloc: Global, name: &str, id: u8) -> ConfigFault
    ensures { (result ≡ Memory) ⊎ (result ≡ UnknownId name.now id) }
{
    match Octets::from_slice(alloc, name.as_bytes()) {
        Ok(name) => ConfigFault::UnknownId(name, id),
        Err(_) => ConfigFault::Memory,
    }
}
