//! Names that aren't known.

ghost use Rattle.std.specs.Prelude.{◌≡◌, ◌⊎◌, ◌++◌, map, IfOk};
ghost use Rattle.toml.specs.View.{table_view};
ghost use Rattle.config_walk.specs.declared.fault.ConfigFault.TheVariants.{UnknownName, Memory};
ghost use Rattle.config_walk.specs.Values.{Says, is_name as is_name_lem, all_known};

use crate::ConfigFault;
use mrp_types::Octets;
use std::alloc::Global;
use toml::Table;

fn unknown_name(alloc: Global, prefix: &str, name: &str) -> ConfigFault
    ensures { (result ≡ Memory) ⊎ (result ≡ UnknownName (prefix.now ++ name.now)) }
{
    match joined(alloc, prefix, name) {
        Ok(name) => ConfigFault::UnknownName(name),
        Err(_) => ConfigFault::Memory,
    }
}

fn joined(alloc: Global, prefix: &str, name: &str) -> Result<Octets, mrp_types::Memory>
    ensures { IfOk result (λ octets. octets ≡ prefix.now ++ name.now) }
{
    let mut octets = Octets::from_slice(alloc, prefix.as_bytes())?;
    octets.extend(name.as_bytes())?;
    Ok(octets)
}

fn is_name(name: &str, names: &[&str]) -> bool
    ensures { result ≡ is_name_lem name.now (map (λ s. s.now) names.now) }
{
    for known in names {
        if *known == name {
            return true;
        }
    }
    false
}

/// Asks that each name of the table is one of these; the first in byte order that isn't is named behind the prefix.
pub fn judge_names(
    alloc: Global,
    prefix: &str,
    names: &[&str],
    table: &Table,
) -> Result<(), ConfigFault>
    ensures { Says (λ u. u) (all_known prefix.now (map (λ s. s.now) names.now) (table_view table.now)) result }
{
    for key in table.keys() {
        let name = key.as_str();
        if !is_name(name, names) {
            return Err(unknown_name(alloc, prefix, name));
        }
    }
    Ok(())
}
