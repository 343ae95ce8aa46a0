//! Closing and opening the gate of an area.
ghost use Rattle.std.specs.Prelude.{◌≡◌, ◌≤◌, ◌<◌, ◌-◌, ◌^◌, length, OnOk};
ghost use Rattle.disk_model.specs.Calls.{Told, Tells, LeavesOnly, IsSettled, and_then, area_bytes, reads};
ghost use Rattle.disk_model.specs.Causes.{Wants};
ghost use Rattle.disk_model.specs.Went.{WentBy};
ghost use Rattle.disk_model.specs.Running.{ending};
ghost use Rattle.gate_area.specs.Gate.{IsRetired, retire_calls, gate_calls, RetireLeaves, FoundLeaves};
ghost use Rattle.gate_area.specs.Operations.{retire_ops, gate_ops};

use disk_model::{Area, Disk, Refused};

/// Makes an area not count: cuts it to at most 16 bytes, syncs, writes a 0 over its first byte, and syncs. It
/// asks the area's length before, and that nothing is pending. It takes no memory of its own. At each moment a crash leaves the other areas
/// as they were, and the pair of this one stands for what it stood for or for what it stands for afterwards.
pub fn retire<D: Disk>(disk: &mut D, area: Area) -> Result<(), Refused>
    requires settled { (t : Told) → Tells (D.told disk.old) (D.honest disk.old) t → IsSettled t }
    ensures moments { (t : Told) → Tells (D.told disk.old) (D.honest disk.old) t →
        LeavesOnly t (D.told disk.new) (RetireLeaves area (reads t) (reads (and_then t (retire_calls area t)))) }
    ensures done { (t : Told) → Tells (D.told disk.new) (D.honest disk.new) t → OnOk result (IsSettled t) }
    ensures retired { (t : Told) → Tells (D.told disk.new) (D.honest disk.new) t → OnOk result (IsRetired (area_bytes area t)) }
    ensures went { WentBy D.Disk (retire_ops area) disk.old disk.new (ending result) }
    ensures wants { Wants (D.wants disk.old) (D.wants disk.new) result }
{
    cut_and_close(disk, area)
}

// The calls of it.
fn cut_and_close<D: Disk>(disk: &mut D, area: Area) -> Result<(), Refused>
    ensures went { WentBy D.Disk (retire_ops area) disk.old disk.new (ending result) }
    ensures wants { Wants (D.wants disk.old) (D.wants disk.new) result }
{
    let len = disk.len(area)?;
    disk.cut(area, len.min(16))?;
    disk.sync()?; // the area is short
    disk.write_at(area, 0, &[0])?;
    disk.sync()?; // its gate is closed
    Ok(())
}

/// Writes bytes behind a gate of an area, syncs, opens the gate by a 1, and syncs.
pub fn open_gate<D: Disk>(disk: &mut D, area: Area, gate: u64, body: &[u8]) -> Result<(), Refused>
    requires place { (t : Told) → Tells (D.told disk.old) (D.honest disk.old) t → gate < length (area_bytes area t) }
    requires room { gate < 2 ^ 64 - 1 }
    ensures went { WentBy D.Disk (λ t. gate_ops area gate body.now) disk.old disk.new (ending result) }
    ensures wants { Wants (D.wants disk.old) (D.wants disk.new) result }
{
    disk.write_at(area, gate + 1, body)?;
    disk.sync()?; // the body stands
    disk.write_at(area, gate, &[1])?;
    disk.sync()?; // its gate is open
    Ok(())
}

/// Makes an area that `retire` has left count with this body, which stands from its second byte on: writes the
/// body, syncs, writes a 1 over its first byte, and syncs. It asks a body of at least 16 bytes and that nothing
/// is pending. At each moment a crash leaves the other areas as they were, and this one with its whole body or
/// not counting.
pub fn found<D: Disk>(disk: &mut D, area: Area, body: &[u8]) -> Result<(), Refused>
    requires settled { (t : Told) → Tells (D.told disk.old) (D.honest disk.old) t → IsSettled t }
    requires body { 16 ≤ length body.now }
    requires retired { (t : Told) → Tells (D.told disk.old) (D.honest disk.old) t → IsRetired (area_bytes area t) }
    ensures moments { (t : Told) → Tells (D.told disk.old) (D.honest disk.old) t →
        LeavesOnly t (D.told disk.new) (FoundLeaves area body.now (reads t) (reads (and_then t (gate_calls area 0 body.now)))) }
    ensures done { (t : Told) → Tells (D.told disk.new) (D.honest disk.new) t → OnOk result (IsSettled t) }
    ensures went { WentBy D.Disk (λ t. gate_ops area 0 body.now) disk.old disk.new (ending result) }
    ensures wants { Wants (D.wants disk.old) (D.wants disk.new) result }
{
    open_gate(disk, area, 0, body)
}
