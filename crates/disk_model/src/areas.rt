//! The contents of the four areas.
ghost use Rattle.std.specs.Prelude.{◌≡◌, take, OnOk, OnErr};
ghost use Rattle.disk_model.specs.Steps.{written};

use crate::{Area, Octets};
use std::alloc::AllocError;

/// The bytes of the four areas.
#[derive(Drop, Debug)]
pub struct Areas {
    pub journal0: Octets,
    pub journal1: Octets,
    pub check2: Octets,
    pub check3: Octets,
}

impl Areas {
    ghost use Rattle.disk_model.specs.Areas.{bytes_of, with_bytes};

    /// The bytes of one of them.
    pub fn of(&self, area: Area) -> &Octets
        ensures { result.now ≡ bytes_of area self.now }
    {
        match area {
            Area::Journal0 => &self.journal0,
            Area::Journal1 => &self.journal1,
            Area::Check2 => &self.check2,
            Area::Check3 => &self.check3,
        }
    }

    /// Writes over the bytes of one, from a position on, and past its end. All are unchanged where memory
    /// is wanting.
    pub fn overwrite(&mut self, area: Area, at: usize, from: &[u8]) -> Result<(), AllocError>
        ensures written { OnOk result (self.new ≡ with_bytes area (written at from.now (bytes_of area self.old)) self.old) }
        ensures unchanged { OnErr result (self.new ≡ self.old) }
    {
        match area {
            Area::Journal0 => self.journal0.overwrite(at, from),
            Area::Journal1 => self.journal1.overwrite(at, from),
            Area::Check2 => self.check2.overwrite(at, from),
            Area::Check3 => self.check3.overwrite(at, from),
        }
    }

    /// Drops the bytes of one from a position on.
    pub fn cut(&mut self, area: Area, len: usize)
        ensures { self.new ≡ with_bytes area (take len (bytes_of area self.old)) self.old }
    {
        match area {
            Area::Journal0 => self.journal0.cut(len),
            Area::Journal1 => self.journal1.cut(len),
            Area::Check2 => self.check2.cut(len),
            Area::Check3 => self.check3.cut(len),
        }
    }
}
