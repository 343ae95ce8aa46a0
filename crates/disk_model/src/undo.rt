//! How the calls of a disk in memory are taken back.
ghost use Rattle.std.specs.Prelude.{◌≡◌, IfOk, OnOk};
ghost use Rattle.disk_model.specs.Areas.{bytes_of};
ghost use Rattle.disk_model.specs.declared.areas.Areas.{Areas as FourAreas};
ghost use Rattle.disk_model.specs.Undoing.{undone_in, all_undone};

use crate::{Area, Areas, Octets};
use std::alloc::{AllocError, Global};

/// How a call is taken back: the bytes that it overwrote or cut off are put at their position, and the area is cut to the
/// length that it had.
#[derive(Drop, Debug)]
pub struct Undo {
    pub area: Area,
    pub at: usize,
    pub over: Octets,
    pub len: usize,
}

impl Undo {
    ghost use Rattle.disk_model.specs.Undoing.{undo_of_count, undo_of_cut};

    /// That of a write of so many bytes at a position.
    pub fn of_write(
        alloc: Global,
        areas: &Areas,
        area: Area,
        at: usize,
        count: usize,
    ) -> Result<Undo, AllocError>
        ensures { IfOk result (λ undo. undo ≡ undo_of_count area at count areas.now) }
    {
        let file = areas.of(area).bytes();
        let len = file.len();
        let from = at.min(len);
        let behind = &file[from..];
        let over = Octets::of(alloc, &behind[..count.min(behind.len())])?;
        Ok(Undo {
            area,
            at,
            over,
            len,
        })
    }

    /// That of a cut to a length.
    pub fn of_cut(alloc: Global, areas: &Areas, area: Area, at: usize) -> Result<Undo, AllocError>
        ensures { IfOk result (λ undo. undo ≡ undo_of_cut area at areas.now) }
    {
        let file = areas.of(area).bytes();
        let len = file.len();
        let over = Octets::of(alloc, &file[at.min(len)..])?;
        Ok(Undo {
            area,
            at,
            over,
            len,
        })
    }
}

/// The bytes of an area before some calls, from those after them.
pub fn taken_back(file: Octets, undos: &[Undo], area: Area) -> Result<Octets, AllocError>
    ensures { IfOk result (λ start. (areas : FourAreas) → file ≡ bytes_of area areas → start ≡ bytes_of area (all_undone undos.now areas)) }
{
    let mut file = file;
    let mut left = undos.len();
    while left > 0 {
        left -= 1;
        take_back(&mut file, &undos[left], area)?;
    }
    Ok(file)
}

// Takes a call back, where it concerns the area.
fn take_back(file: &mut Octets, undo: &Undo, area: Area) -> Result<(), AllocError>
    ensures { OnOk result (file.new ≡ undone_in area undo.now file.old) }
{
    if undo.area.number() == area.number() {
        file.overwrite(undo.at, undo.over.bytes())?;
        file.cut(undo.len);
    }
    Ok(())
}
