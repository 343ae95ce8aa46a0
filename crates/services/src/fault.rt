//! Why bytes were not read as a state.

use command_codec::CodecFault;
use std::alloc::{AllocError, AllocFailed};

/// What is wrong with the bytes of a state.
#[derive(Clone, Copy, Debug, PartialEq, Eq)]
pub enum StateFault {
    /// They are no state: the position where the first field at fault begins, counted from the left.
    BadState(usize),
    /// Want of memory.
    Memory,
}

impl From<AllocError> for StateFault {
    ghost use Rattle.std.specs.Prelude.{◌≡◌};
    ghost use Rattle.services.specs.declared.fault.StateFault.TheVariants.{Memory};

    ghost from_gives = { λ _ fault. fault ≡ Memory };

    fn from(_: AllocError) -> Self {
        StateFault::Memory
    }
}

impl<T: Drop> From<AllocFailed<T>> for StateFault {
    ghost use Rattle.std.specs.Prelude.{◌≡◌};
    ghost use Rattle.services.specs.declared.fault.StateFault.TheVariants.{Memory};

    ghost from_gives = { λ _ fault. fault ≡ Memory };

    fn from(_: AllocFailed<T>) -> Self {
        StateFault::Memory
    }
}

impl From<mrp_types::Memory> for StateFault {
    ghost use Rattle.std.specs.Prelude.{◌≡◌};
    ghost use Rattle.services.specs.declared.fault.StateFault.TheVariants.{Memory};

    ghost from_gives = { λ _ fault. fault ≡ Memory };

    fn from(_: mrp_types::Memory) -> Self {
        StateFault::Memory
    }
}

impl From<CodecFault> for StateFault {
    ghost use Rattle.std.specs.Prelude.{◌≡◌};
    ghost use Rattle.services.specs.Reading.{state_fault};

    ghost from_gives = { λ fault made. made ≡ state_fault fault };

    fn from(fault: CodecFault) -> Self {
        match fault {
            CodecFault::Short(at) => StateFault::BadState(at),
            CodecFault::BadKind(at) => StateFault::BadState(at),
            CodecFault::BadField(at) => StateFault::BadState(at),
            CodecFault::TooLong(at) => StateFault::BadState(at),
            CodecFault::Left(at) => StateFault::BadState(at),
            CodecFault::Memory => StateFault::Memory,
        }
    }
}
