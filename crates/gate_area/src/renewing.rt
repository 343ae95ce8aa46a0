//! An area that gets a new content, whole or not at all.
ghost use Rattle.std.specs.Prelude.{◌≡◌, ◌≤◌, length, OnOk};
ghost use Rattle.disk_model.specs.Calls.{Told, Tells, LeavesOnly, IsSettled, reads};
ghost use Rattle.disk_model.specs.Causes.{Wants};
ghost use Rattle.disk_model.specs.Went.{WentBy};
ghost use Rattle.disk_model.specs.Running.{ending};
ghost use Rattle.gate_area.specs.Gate.{renew_calls, RenewLeaves};
ghost use Rattle.gate_area.specs.Operations.{renew_ops};

use crate::{found, retire};
use disk_model::{Area, Disk, Refused};

/// Retires an area and founds it with this body. It asks a body of at least 16 bytes and that nothing is
/// pending. At each moment a crash leaves the other areas as they were, and of this one its front or a piece of it, too
/// few bytes or a closed gate, or the whole body behind an open gate. It takes no memory of its own.
pub fn renew<D: Disk>(disk: &mut D, area: Area, body: &[u8]) -> Result<(), Refused>
    requires settled { (t : Told) → Tells (D.told disk.old) (D.honest disk.old) t → IsSettled t }
    requires body { 16 ≤ length body.now }
    ensures moments { (t : Told) → Tells (D.told disk.old) (D.honest disk.old) t →
        LeavesOnly t (D.told disk.new) (RenewLeaves area body.now (reads t)) }
    ensures done { (t : Told) → Tells (D.told disk.new) (D.honest disk.new) t → OnOk result (IsSettled t) }
    ensures went { WentBy D.Disk (renew_ops area body.now) disk.old disk.new (ending result) }
    ensures wants { Wants (D.wants disk.old) (D.wants disk.new) result }
{
    retire(disk, area)?;
    found(disk, area, body)
}
