//! One reply of several.

ghost use Rattle.std.specs.Prelude.{◌≡◌, ◌++◌, IfOk, OnOk, IsTrue};
ghost use Rattle.std.specs.Option.{option_map};
ghost use Rattle.std.specs.List.{flat_map};
ghost use Rattle.command_codec.specs.Replies.{IsReply, AreParts, joined, first_other, is_other, positions_of, entries_of, has_more, until_more, some_more, positions_reply, entries_reply, starts_with_positions};

use crate::{LogPositions, Reply, TableEntries, TableEntry};
use mrp_types::Memory;
use std::alloc::Global;

/// The replies of the concerned partitions in their order, as one. The first that has neither positions nor
/// entries is the answer. Positions are put one after another; entries up to and including the first part
/// that has more. Ask it of one or more replies that can be one: else the result may have no spelling.
pub fn join(alloc: Global, parts: &[Reply]) -> Result<Reply, Memory>
    ensures exact { IfOk result (λ reply. reply ≡ joined parts.now) }
    ensures valid { AreParts parts.now → IfOk result IsReply }
{
    join_all(alloc, parts)
}

fn join_all(alloc: Global, parts: &[Reply]) -> Result<Reply, Memory>
    ensures { IfOk result (λ reply. reply ≡ joined parts.now) }
{
    if let Some(other) = find_other(parts) {
        return other.copy(alloc);
    }
    if first_has_positions(parts) {
        return join_positions(alloc, parts);
    }
    join_entries(alloc, parts)
}

fn find_other(parts: &[Reply]) -> Option<&Reply>
    ensures { option_map (λ r. r.now) result ≡ first_other parts.now }
{
    for part in parts {
        if is_neither(part) {
            return Some(part);
        }
    }
    None
}

fn is_neither(part: &Reply) -> bool
    ensures { result ≡ is_other part.now }
{
    !matches!(part, Reply::Positions(_) | Reply::Entries { .. })
}

fn first_has_positions(parts: &[Reply]) -> bool
    ensures { result ≡ starts_with_positions parts.now }
{
    matches!(parts, [Reply::Positions(_), ..])
}

fn join_positions(alloc: Global, parts: &[Reply]) -> Result<Reply, Memory>
    ensures { IfOk result (λ reply. reply ≡ positions_reply parts.now) }
{
    let mut all = LogPositions::new(alloc);
    for part in parts {
        add_positions(&mut all, part)?;
    }
    Ok(Reply::Positions(all))
}

fn add_positions(all: &mut LogPositions, part: &Reply) -> Result<(), Memory>
    ensures { OnOk result (all.new ≡ all.old ++ positions_of part.now) }
{
    match part {
        Reply::Positions(positions) => all.extend(positions.items()),
        _ => Ok(()),
    }
}

fn join_entries(alloc: Global, parts: &[Reply]) -> Result<Reply, Memory>
    ensures { IfOk result (λ reply. reply ≡ entries_reply parts.now) }
{
    let mut all = TableEntries::new(alloc);
    for part in parts {
        add_entries(alloc, &mut all, part)?;
        if left_out(part) {
            return Ok(Reply::Entries {
                more: true,
                entries: all,
            });
        }
    }
    Ok(Reply::Entries {
        more: false,
        entries: all,
    })
}

fn left_out(part: &Reply) -> bool
    ensures { result ≡ has_more part.now }
{
    match part {
        Reply::Entries { more, entries: _ } => *more,
        _ => false,
    }
}

fn add_entries(alloc: Global, all: &mut TableEntries, part: &Reply) -> Result<(), Memory>
    ensures { OnOk result (all.new ≡ all.old ++ entries_of part.now) }
{
    match part {
        Reply::Entries { more: _, entries } => add_copies(alloc, all, entries.items()),
        _ => Ok(()),
    }
}

/// Adds copies of these entries.
pub(crate) fn add_copies(
    alloc: Global,
    all: &mut TableEntries,
    entries: &[TableEntry],
) -> Result<(), Memory>
    ensures { OnOk result (all.new ≡ all.old ++ entries.now) }
{
    for entry in entries {
        all.push(entry.copy(alloc)?)?;
    }
    Ok(())
}
