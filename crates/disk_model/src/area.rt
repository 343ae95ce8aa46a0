//! The four areas of a disk, why a call is refused, and which image a crash is to leave.
ghost use Rattle.std.specs.Prelude.{◌≡◌, ◌<◌, IsTrue, ◌↔◌};
ghost use Rattle.disk_model.specs.declared.area.Refused.TheVariants.{Memory};
ghost use Rattle.disk_model.specs.Areas.{number_of};

use std::alloc::{AllocError, AllocFailed};

/// One of the four files of a disk. The first two hold a journal, the last two hold checkpoints.
#[derive(Clone, Copy, Debug, PartialEq, Eq)]
pub enum Area {
    Journal0,
    Journal1,
    Check2,
    Check3,
}

impl Area {
    /// Its number, from 0 to 3.
    pub fn number(self) -> u8
        ensures { result ≡ number_of self }
    {
        match self {
            Area::Journal0 => 0,
            Area::Journal1 => 1,
            Area::Check2 => 2,
            Area::Check3 => 3,
        }
    }
}

/// Why a disk did not do a call: the device failed, or memory was wanting.
#[derive(Clone, Copy, Debug, PartialEq, Eq)]
pub enum Refused {
    Failed,
    Memory,
}

impl From<AllocError> for Refused {
    ghost from_gives = { λ _ e. e ≡ Memory };

    fn from(_: AllocError) -> Self {
        Refused::Memory
    }
}

impl<T: Drop> From<AllocFailed<T>> for Refused {
    ghost from_gives = { λ _ e. e ≡ Memory };

    fn from(_: AllocFailed<T>) -> Self {
        Refused::Memory
    }
}

/// Which of the possible images a crash is to leave: the areas at the last sync, the areas as a read gives
/// them, or areas of the greatest length since the last sync, whose bytes that may have changed since are
/// what a read gives for the first `keep` of them (where a read gives one), and `byte` for all others.
#[derive(Clone, Copy, Debug, PartialEq, Eq)]
pub enum Image {
    Old,
    New,
    Fill { keep: u32, byte: u8 },
}
