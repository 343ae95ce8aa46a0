//! The disk as the layers above see it.
ghost use Rattle.std.specs.Prelude.{◌≡◌, ◌≤◌, ◌+◌, ℕ, Bool, Option, Some, [], ◌∷◌, length, OnOk, OnErr, IfOk};
ghost use Rattle.disk_model.specs.Calls.{Told, Tells, followed, area_bytes};
ghost use Rattle.disk_model.specs.Causes.{GivesBytes};
ghost use Rattle.disk_model.specs.declared.call.Call.TheVariants.{Write, Cut, Sync};
ghost use Rattle.disk_model.specs.Running.{Asks, Did, Does, Reads};
ghost use Rattle.disk_model.specs.Sim.{Sim};

use crate::{Area, Refused};

/// Four files that share one clock. Between two syncs each written range, and the part past the least length
/// since, may hold any bytes after a crash, and the length may be any that lies between two that the file had;
/// all other bytes stay. After a sync that succeeds a crash leaves what a read gives. What a disk tells, the
/// areas at its start and the calls that took effect, determines these images at each moment.
pub trait Disk {
    /// The areas at the start and the calls that took effect, where the disk tells them.
    ghost told: { Self → Option Told };

    /// Whether the disk holds what it tells.
    ghost honest: { Self → Bool };

    /// The disk in memory that it is, where it is one: its areas and calls, and which calls are to fail.
    ghost memory: { Self → Option Sim };

    /// How many calls have failed.
    ghost faults: { Self → ℕ };

    /// How many calls have found no memory.
    ghost wants: { Self → ℕ };

    /// The length of an area.
    fn len(&mut self, area: Area) -> Result<u64, Refused>
        ensures told { told self.new ≡ told self.old }
        ensures length { (t : Told) → Tells (told self.old) (honest self.old) t → IfOk result (λ n. n ≡ length (area_bytes area t)) }
        ensures did { Did Asks (honest self.old) (honest self.new) (memory self.old) (memory self.new) (faults self.old) (faults self.new) (wants self.old) (wants self.new) result };

    /// Reads bytes of an area from a position on, and says how many: fewer than asked only at the area's end.
    fn read(&mut self, area: Area, at: u64, into: &mut [u8]) -> Result<usize, Refused>
        ensures told { told self.new ≡ told self.old }
        ensures within { IfOk result (λ n. n ≤ length into.new) }
        ensures bytes { (t : Told) → Tells (told self.old) (honest self.old) t → IfOk result (λ n. GivesBytes (area_bytes area t) at n into.new) }
        ensures did { Did Reads (honest self.old) (honest self.new) (memory self.old) (memory self.new) (faults self.old) (faults self.new) (wants self.old) (wants self.new) result };

    /// Writes over what is there from a position on, and past the area's end.
    fn write_at(&mut self, area: Area, at: u64, from: &[u8]) -> Result<(), Refused>
        requires { (t : Told) → Tells (told self.old) (honest self.old) t → at ≤ length (area_bytes area t) }
        ensures told { OnOk result (told self.new ≡ followed (told self.old) (Write area at from.now ∷ [])) }
        ensures untold { OnErr result (told self.new ≡ told self.old) }
        ensures did { Did (Does (Write area at from.now)) (honest self.old) (honest self.new) (memory self.old) (memory self.new) (faults self.old) (faults self.new) (wants self.old) (wants self.new) result };

    /// Cuts an area to a length.
    fn cut(&mut self, area: Area, len: u64) -> Result<(), Refused>
        requires { (t : Told) → Tells (told self.old) (honest self.old) t → len ≤ length (area_bytes area t) }
        ensures told { OnOk result (told self.new ≡ followed (told self.old) (Cut area len ∷ [])) }
        ensures untold { OnErr result (told self.new ≡ told self.old) }
        ensures did { Did (Does (Cut area len)) (honest self.old) (honest self.new) (memory self.old) (memory self.new) (faults self.old) (faults self.new) (wants self.old) (wants self.new) result };

    /// Keeps all that was written: a crash after it leaves what a read gives.
    fn sync(&mut self) -> Result<(), Refused>
        ensures told { OnOk result (told self.new ≡ followed (told self.old) (Sync ∷ [])) }
        ensures untold { OnErr result (told self.new ≡ told self.old) }
        ensures did { Did (Does Sync) (honest self.old) (honest self.new) (memory self.old) (memory self.new) (faults self.old) (faults self.new) (wants self.old) (wants self.new) result };

    /// What it tells is what the disk in memory holds.
    ghost tells: { (d : Self) (s : Sim) → memory d ≡ Some s → Tells (told d) (honest d) s.told };
}
