//! What a journal's openings find and leave.

ghost use Rattle.std.specs.Prelude.{◌≡◌, IfOk};
ghost use Rattle.disk_model.specs.Calls.{area_bytes};
ghost use Rattle.disk_model.specs.declared.area.Area.TheVariants.{Journal0, Journal1};
ghost use Rattle.verdicts.specs.Texts.{state_text as state_text_lem, areas_text as areas_text_lem};

use crate::cases::{bytes_of_hex, cut};
use crate::faults::{open_fault, said, said_in_hex};
use disk_model::{Area, SimDisk};
use mrp_types::{Memory, NodeId, Octets, RingId};
use std::alloc::Global;
use text_lines::{put_number, put_word};
use vote_journal::VoteJournal;
use vote_state::Durable;

// More than any case needs.
const WIDE: u64 = 1_048_576;

/// The bytes of both areas of a journal; none where the case has no two such texts. `-` is an empty area.
pub fn areas_of(alloc: Global, case: &str) -> Result<Option<(Vec<u8>, Vec<u8>)>, Memory> {
    let Some((first, second)) = cut(case) else {
        return Ok(None);
    };
    let (Some(first), Some(second)) = (area_of(alloc, first)?, area_of(alloc, second)?) else {
        return Ok(None);
    };
    Ok(Some((first, second)))
}

fn area_of(alloc: Global, text: &str) -> Result<Option<Vec<u8>>, Memory> {
    if text == "-" {
        return Ok(Some(Vec::new(alloc)));
    }
    bytes_of_hex(alloc, text)
}

fn disk_of(alloc: Global, areas: (Vec<u8>, Vec<u8>)) -> SimDisk {
    SimDisk::with(alloc, [areas.0, areas.1, Vec::new(alloc), Vec::new(alloc)])
}

/// The epoch that node 0 has once it has opened the journal, and what it has promised in ring 1; or why it doesn't open.
pub fn found(alloc: Global, areas: (Vec<u8>, Vec<u8>)) -> Result<Octets, Memory> {
    let mut disk = disk_of(alloc, areas);
    match VoteJournal::open(alloc, &mut disk, NodeId(0), WIDE) {
        Ok(journal) => state_text(alloc, journal.durable()),
        Err(fault) => open_fault(alloc, fault),
    }
}

fn state_text(alloc: Global, durable: &Durable) -> Result<Octets, Memory>
    ensures { IfOk result (λ text. text ≡ state_text_lem durable.now) }
{
    let mut text = said(alloc, "epoch")?;
    put_number(&mut text, u64::from(durable.epoch()))?;
    put_word(&mut text, b"promise")?;
    put_number(&mut text, durable.promise(RingId(1)))?;
    Ok(text)
}

/// Both areas once node 0 has opened the journal; or why it doesn't open.
pub fn opened(alloc: Global, areas: (Vec<u8>, Vec<u8>)) -> Result<Octets, Memory> {
    let mut disk = disk_of(alloc, areas);
    match VoteJournal::open(alloc, &mut disk, NodeId(0), WIDE) {
        Ok(_) => areas_text(alloc, &disk),
        Err(fault) => open_fault(alloc, fault),
    }
}

/// Both areas once node 0 has opened the journal and compacted it; or why it doesn't.
pub fn compacted(alloc: Global, areas: (Vec<u8>, Vec<u8>)) -> Result<Octets, Memory> {
    let mut disk = disk_of(alloc, areas);
    let journal = match VoteJournal::open(alloc, &mut disk, NodeId(0), WIDE) {
        Ok(journal) => journal,
        Err(fault) => return open_fault(alloc, fault),
    };
    if journal.generation() == u64::MAX || journal.compact(&mut disk).is_err() {
        return said(alloc, "not compacted");
    }
    areas_text(alloc, &disk)
}

// Both areas of the journal in hexadecimal, `-` for an empty one.
fn areas_text(alloc: Global, disk: &SimDisk) -> Result<Octets, Memory>
    ensures { IfOk result (λ text. text ≡ areas_text_lem (area_bytes Journal0 disk.now.told) (area_bytes Journal1 disk.now.told)) }
{
    let mut text = said_in_hex(alloc, disk.bytes(Area::Journal0))?;
    let second = said_in_hex(alloc, disk.bytes(Area::Journal1))?;
    put_word(&mut text, second.bytes())?;
    Ok(text)
}
