//! The records in the bytes of an area.
ghost use Rattle.std.specs.Prelude.{◌≡◌, ◌≤◌, ◌<◌, ◌+◌, length, drop, take, IfOk};
ghost use Rattle.gate_log.specs.Records.{StandsFor, walk_of, gate_of, mark_of, u32_of};
ghost use Rattle.gate_log.specs.Walking.{Walks, IsMark};

use crate::LogFault;
use disk_model::Area;
use mrp_types::Octets;
use std::alloc::Global;

// What stands at a gate.
enum Gate {
    Shut,
    Opens(usize),
    Broken,
}

/// The records of an area with these bytes, and the place of the closed gate behind them.
pub fn walk(alloc: Global, area: Area, bytes: &[u8]) -> Result<(Vec<Octets>, usize), LogFault>
    ensures walks { Walks area (walk_of bytes.now) result }
    ensures stands { IfOk result (λ found. StandsFor found.0.items bytes.now) }
    ensures gate { IfOk result (λ found. (found.1 ≡ gate_of found.0.items) × (found.1 < length bytes.now)) }
{
    let mut records = Vec::new(alloc);
    let mut at = 16;
    for _turn in 0..bytes.len() {
        match gate_at(bytes, at) {
            Gate::Shut => return Ok((records, at)),
            Gate::Broken => return Err(LogFault::Damaged(area, at as u64)),
            Gate::Opens(size) => {
                records.push(Octets::from_slice(alloc, &bytes[at + 5..at + 5 + size])?)?;
                at += 5 + size;
            }
        }
    }
    Err(LogFault::Damaged(area, at as u64))
}

// What stands at a place.
fn gate_at(bytes: &[u8], at: usize) -> Gate
    ensures { IsMark (length bytes.now) at (mark_of (drop at bytes.now)) result }
{
    if at >= bytes.len() {
        return Gate::Broken;
    }
    if bytes[at] != 1 {
        return Gate::Shut;
    }
    let left = bytes.len() - at;
    if left < 5 {
        return Gate::Broken;
    }
    let size = length_at(bytes, at + 1);
    if left - 5 < size {
        return Gate::Broken;
    }
    Gate::Opens(size)
}

// Four bytes as a number.
#[tactic(auto, unfolding(crate::specs::Records::u32_of))]
fn length_at(bytes: &[u8], at: usize) -> usize
    requires { at + 4 ≤ length bytes.now }
    ensures { result ≡ u32_of (take 4 (drop at bytes.now)) }
{
    u32::from_be_bytes([bytes[at], bytes[at + 1], bytes[at + 2], bytes[at + 3]]) as usize
}
