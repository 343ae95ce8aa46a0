//! Why a checkpoint isn't saved.
ghost use Rattle.std.specs.Prelude.{◌≡◌};
ghost use Rattle.checkpoint_disk.specs.Faults.{refused_as};
ghost use Rattle.checkpoint_disk.specs.declared.fault.SaveFault.TheVariants.{Memory as Wanting};

use disk_model::Refused;
use mrp_types::{Memory, Tuple};

/// Why a checkpoint isn't saved: a call of the disk failed, its tuple isn't after this newest one, or memory was
/// wanting.
#[derive(Clone, Copy, Debug, PartialEq, Eq)]
pub enum SaveFault {
    Disk,
    Older(Tuple),
    Memory,
}

impl From<Refused> for SaveFault {
    ghost from_gives = { λ refused fault. fault ≡ refused_as refused };

    fn from(refused: Refused) -> Self {
        match refused {
            Refused::Failed => SaveFault::Disk,
            Refused::Memory => SaveFault::Memory,
        }
    }
}

impl From<Memory> for SaveFault {
    ghost from_gives = { λ _ fault. fault ≡ Wanting };

    fn from(_: Memory) -> Self {
        SaveFault::Memory
    }
}
