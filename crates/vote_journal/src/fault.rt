//! Why an operation on a journal is refused.

ghost use Rattle.std.specs.Prelude.{◌≡◌};
ghost use Rattle.vote_journal.specs.Faults.{opened_as, refused_as};
ghost use Rattle.vote_journal.specs.declared.fault.OpenFault.TheVariants.{Memory as NoMemory};
ghost use Rattle.vote_journal.specs.declared.fault.JournalFault.TheVariants.{Memory as Wanting};

use disk_model::Area;
use gate_log::LogFault;
use mrp_types::{Memory, NodeId};

/// Why a journal isn't opened.
#[derive(Clone, Copy, Debug, PartialEq, Eq)]
pub enum OpenFault {
    /// A call of the disk failed.
    Disk,
    /// The byte at this position of an area can't be there.
    Damaged(Area, u64),
    /// The journal is this other node's.
    WrongNode(NodeId),
    /// The record whose gate stands at this position of its area isn't one.
    BadRecord(u64),
    /// The epoch can't rise any more.
    EpochLimit,
    /// The area would be longer than the limit, and this is the length.
    Full(u64),
    /// There is no memory.
    Memory,
}

/// Why a journal isn't written.
#[derive(Clone, Copy, Debug, PartialEq, Eq)]
pub enum JournalFault {
    /// A call of the disk failed.
    Disk,
    /// The area would be longer than the limit, and this is the length.
    Full(u64),
    /// There is no memory.
    Memory,
}

impl From<LogFault> for OpenFault {
    ghost from_gives = { λ fault own. own ≡ opened_as fault };

    fn from(fault: LogFault) -> Self {
        match fault {
            LogFault::Disk => OpenFault::Disk,
            LogFault::Damaged(area, at) => OpenFault::Damaged(area, at),
            LogFault::Full(len) => OpenFault::Full(len),
            LogFault::Memory => OpenFault::Memory,
        }
    }
}

impl From<Memory> for OpenFault {
    ghost from_gives = { λ _ fault. fault ≡ NoMemory };

    fn from(_: Memory) -> Self {
        OpenFault::Memory
    }
}

impl From<LogFault> for JournalFault {
    ghost from_gives = { λ fault own. own ≡ refused_as fault };

    // An area isn't looked at where it is written, so none is found damaged there.
    fn from(fault: LogFault) -> Self {
        match fault {
            LogFault::Disk | LogFault::Damaged(_, _) => JournalFault::Disk,
            LogFault::Full(len) => JournalFault::Full(len),
            LogFault::Memory => JournalFault::Memory,
        }
    }
}

impl From<Memory> for JournalFault {
    ghost from_gives = { λ _ fault. fault ≡ Wanting };

    fn from(_: Memory) -> Self {
        JournalFault::Memory
    }
}
