//! Keys with their values, in order of keys.

ghost use Rattle.std.specs.Prelude.{◌≡◌, ◌<◌, ◌^◌, ◌++◌, [], IfOk, OnOk, OnErr, length};
ghost use Rattle.std.specs.Option.{option_copied};
ghost use Rattle.std.specs.List.{flat_map};
ghost use Rattle.command_codec.specs.Replies.{table_entry_bytes};
ghost use Rattle.plain_model.specs.Replicas.{value_of, with_entry, without};
ghost use Rattle.range_store.specs.Table.{seen, IsTable};

use command_codec::writing::put_string16;
use mrp_types::{Memory, Octets};
use std::alloc::Global;
use std::collections::BTreeMap;

/// The map by its keys' bytes.
pub type Entries = BTreeMap<Vec<u8>, Octets>;

/// What a key has.
pub fn find<'a>(entries: &'a Entries, key: &[u8]) -> Option<&'a Octets>
    ensures { option_copied result ≡ value_of key.now (seen entries.now.entries) }
{
    entries.get(key)
}

/// Has a key hold a value, whatever it held. Without memory nothing changes.
pub fn put(alloc: Global, entries: &mut Entries, key: &[u8], value: &[u8]) -> Result<(), Memory>
    requires { IsTable (seen entries.old.entries) }
    ensures ok { OnOk result (seen entries.new.entries ≡ with_entry key.now value.now (seen entries.old.entries)) }
    ensures err { OnErr result (entries.new.entries ≡ entries.old.entries) }
{
    let key = Vec::from_slice(alloc, key)?;
    let value = Octets::from_slice(alloc, value)?;
    entries.insert(key, value)?;
    Ok(())
}

/// Takes a key out; what it had.
pub fn take_out(entries: &mut Entries, key: &[u8]) -> Option<Octets>
    requires { IsTable (seen entries.old.entries) }
    ensures state { seen entries.new.entries ≡ without key.now (seen entries.old.entries) }
    ensures value { result ≡ value_of key.now (seen entries.old.entries) }
{
    entries.remove(key)
}

/// Writes the entries in order of keys.
pub fn write_entries(entries: &Entries, to: &mut Octets) -> Result<(), Memory>
    requires { IsTable (seen entries.now.entries) }
    ensures { OnOk result (to.new ≡ to.old ++ flat_map table_entry_bytes (seen entries.now.entries)) }
{
    for (key, value) in entries {
        put_string16(to, key.as_slice())?;
        put_string16(to, value.bytes())?;
    }
    Ok(())
}
