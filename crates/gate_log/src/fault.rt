//! Why an operation on a log is refused.
ghost use Rattle.std.specs.Prelude.{◌≡◌};
ghost use Rattle.gate_log.specs.Moments.{refused_as, surveyed_as};
ghost use Rattle.gate_log.specs.declared.fault.LogFault.TheVariants.{Memory as Wanting};

use disk_model::{Area, Refused};
use gate_area::SurveyFault;
use mrp_types::Memory;
use std::alloc::{AllocError, AllocFailed};

/// Why an operation on a log is refused: a call of the disk failed, the byte at this position of an area can't
/// be there, the area would be longer than the limit and this is the length, or memory was wanting.
#[derive(Clone, Copy, Debug, PartialEq, Eq)]
pub enum LogFault {
    Disk,
    Damaged(Area, u64),
    Full(u64),
    Memory,
}

impl From<Refused> for LogFault {
    ghost from_gives = { λ refused fault. fault ≡ refused_as refused };

    fn from(refused: Refused) -> Self {
        match refused {
            Refused::Failed => LogFault::Disk,
            Refused::Memory => LogFault::Memory,
        }
    }
}

impl From<SurveyFault> for LogFault {
    ghost from_gives = { λ fault own. own ≡ surveyed_as fault };

    fn from(fault: SurveyFault) -> Self {
        match fault {
            SurveyFault::Disk => LogFault::Disk,
            SurveyFault::Damaged(area, at) => LogFault::Damaged(area, at),
            SurveyFault::Memory => LogFault::Memory,
        }
    }
}

impl From<Memory> for LogFault {
    ghost from_gives = { λ _ fault. fault ≡ Wanting };

    fn from(_: Memory) -> Self {
        LogFault::Memory
    }
}

impl From<AllocError> for LogFault {
    ghost from_gives = { λ _ fault. fault ≡ Wanting };

    fn from(_: AllocError) -> Self {
        LogFault::Memory
    }
}

impl<T: Drop> From<AllocFailed<T>> for LogFault {
    ghost from_gives = { λ _ fault. fault ≡ Wanting };

    fn from(_: AllocFailed<T>) -> Self {
        LogFault::Memory
    }
}
