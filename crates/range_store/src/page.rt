//! Scans.

ghost use Rattle.std.specs.Prelude.{◌≡◌, ◌≤◌, IfOk};
ghost use Rattle.std.specs.List.{AllByRecursion};
ghost use Rattle.command_codec.specs.Replies.{IsTableEntry};
ghost use Rattle.command_codec.specs.Valid.{IsRange};
ghost use Rattle.plain_model.specs.Replicas.{page_of, scanned};
ghost use Rattle.range_store.specs.Table.{seen, IsTable};

use crate::map::Entries;
use command_codec::{Reply, TableEntries, TableEntry};
use mrp_types::{Memory, Octets};
use std::alloc::Global;
use std::collections::btree_map::Range;
use std::ops::Bound;

/// The most bytes of the entries of a page; the reply's kind, mark and count have four more.
const ROOM: usize = 16_380;

/// The first page of the entries from a key on and below another; an empty one is no end.
pub fn scan(alloc: Global, entries: &Entries, from: &[u8], to: &[u8]) -> Result<Reply, Memory>
    requires range { IsRange from.now to.now }
    requires table { IsTable (seen entries.now.entries) }
    ensures { IfOk result (λ reply. reply ≡ page_of (scanned from.now to.now (seen entries.now.entries))) }
{
    let first = Vec::from_slice(alloc, from)?;
    if to.is_empty() {
        return page(
            alloc,
            entries.range((Bound::Included(&first), Bound::Unbounded)),
        );
    }
    let last = Vec::from_slice(alloc, to)?;
    page(
        alloc,
        entries.range((Bound::Included(&first), Bound::Excluded(&last))),
    )
}

/// The longest front of the entries that has room in a reply, and whether there are more.
fn page(alloc: Global, range: Range<'_, Vec<u8>, Octets>) -> Result<Reply, Memory>
    requires { AllByRecursion IsTableEntry (seen range) }
    ensures { IfOk result (λ reply. reply ≡ page_of (seen range.entry)) }
{
    let mut entries = TableEntries::new(alloc);
    let mut room = ROOM;
    for (key, value) in range {
        let size = 4 + (key.len() + value.len());
        if room < size {
            return Ok(Reply::Entries {
                more: true,
                entries,
            });
        }
        room -= size;
        entries.push(copied(alloc, key.as_slice(), value.bytes())?)?;
    }
    Ok(Reply::Entries {
        more: false,
        entries,
    })
}

fn copied(alloc: Global, key: &[u8], value: &[u8]) -> Result<TableEntry, Memory>
    ensures { IfOk result (λ entry. entry ≡ record { key = key.now; value = value.now }) }
{
    let key = Octets::from_slice(alloc, key)?;
    let value = Octets::from_slice(alloc, value)?;
    Ok(TableEntry { key, value })
}
