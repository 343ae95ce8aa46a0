//! A disk in memory that doesn't tell what it holds.

ghost use Rattle.std.specs.Prelude.{◌≡◌, length, None, false};
ghost use Rattle.std.proofs.lemmas.Option.{none-some};
ghost use Rattle.disk_model.specs.Calls.{area_bytes};
ghost use Rattle.disk_model.specs.Causes.{Causes, Wants};

use crate::reading::NoCase;
use disk_model::{Area, Disk, Image, Refused, SimDisk};
use mrp_types::Octets;
use std::alloc::Global;

/// A disk in memory of which calls know nothing, so that they may be made in any order, with any faults before them. A call
/// past the end of an area is refused, as by a fuse.
#[derive(Drop)]
pub struct Untold {
    disk: SimDisk,
}

impl Untold {
    /// Four empty areas.
    pub fn empty(alloc: Global) -> Untold {
        Untold {
            disk: SimDisk::empty(alloc),
        }
    }

    /// The areas 2 and 3 have these bytes, the others none.
    pub fn with(alloc: Global, check2: &[u8], check3: &[u8]) -> Result<Untold, NoCase> {
        let (check2, check3) = (check2.to_vec(alloc)?, check3.to_vec(alloc)?);
        Ok(Untold {
            disk: SimDisk::with(alloc, [Vec::new(alloc), Vec::new(alloc), check2, check3]),
        })
    }

    /// So many changes pass, and then no call.
    pub fn fuse(&mut self, count: u32) {
        self.disk.fuse(count);
    }

    /// So many changes pass, and then one fails.
    pub fn fail(&mut self, count: u32) {
        self.disk.fail(count);
    }

    /// So many reads pass, and then one fails.
    pub fn fail_read(&mut self, count: u32) {
        self.disk.fail_read(count);
    }

    /// The disk after a crash that leaves this image.
    pub fn crash(self, image: Image) -> Result<Untold, NoCase> {
        Ok(Untold {
            disk: self.disk.crash(image)?,
        })
    }

    fn size(&self, area: Area) -> u64
        ensures { result ≡ length (area_bytes area self.now.disk.told) }
    {
        self.disk.bytes(area).len() as u64
    }

    // A call that may not be made fails, and so does each one behind it.
    fn refuse(&mut self) -> Result<(), Refused>
        ensures causes { Causes self.old.disk.trouble.faults self.new.disk.trouble.faults result }
        ensures wants { Wants self.old.disk.trouble.wants self.new.disk.trouble.wants result }
    {
        self.disk.fuse(0);
        self.disk.sync()
    }
}

impl Disk for Untold {
    ghost told = { λ d. None };

    ghost honest = { λ d. false };

    ghost memory = { λ d. None };

    ghost faults = { λ d. ⟦<SimDisk as Disk>⟧.faults d.disk };

    ghost wants = { λ d. ⟦<SimDisk as Disk>⟧.wants d.disk };

    ghost tells = { λ d s is. absurd (none-some s is) };

    fn len(&mut self, area: Area) -> Result<u64, Refused> {
        self.disk.len(area)
    }

    fn read(&mut self, area: Area, at: u64, into: &mut [u8]) -> Result<usize, Refused> {
        self.disk.read(area, at, into)
    }

    fn write_at(&mut self, area: Area, at: u64, from: &[u8]) -> Result<(), Refused> {
        if at > self.size(area) {
            return self.refuse();
        }
        self.disk.write_at(area, at, from)
    }

    fn cut(&mut self, area: Area, len: u64) -> Result<(), Refused> {
        if len > self.size(area) {
            return self.refuse();
        }
        self.disk.cut(area, len)
    }

    fn sync(&mut self) -> Result<(), Refused> {
        self.disk.sync()
    }
}
