//! Why bytes were not read.

use std::alloc::{AllocError, AllocFailed};

/// What is wrong with the bytes: the first field at fault from the left, by the position where it begins. A
/// length and the bytes that it counts are two fields. A rule between several fields is broken where the last
/// of them begins.
#[derive(Clone, Copy, Debug, PartialEq, Eq)]
pub enum CodecFault {
    /// The field passes the end.
    Short(usize),
    /// No such kind.
    BadKind(usize),
    /// The field has a value that it may not have.
    BadField(usize),
    /// A length past its limit.
    TooLong(usize),
    /// Bytes stand after the end.
    Left(usize),
    /// Want of memory.
    Memory,
}

impl From<AllocError> for CodecFault {
    ghost use Rattle.std.specs.Prelude.{◌≡◌};
    ghost use Rattle.command_codec.specs.declared.fault.CodecFault.TheVariants.{Memory};

    ghost from_gives = { λ _ fault. fault ≡ Memory };

    fn from(_: AllocError) -> Self {
        CodecFault::Memory
    }
}

impl<T: Drop> From<AllocFailed<T>> for CodecFault {
    ghost use Rattle.std.specs.Prelude.{◌≡◌};
    ghost use Rattle.command_codec.specs.declared.fault.CodecFault.TheVariants.{Memory};

    ghost from_gives = { λ _ fault. fault ≡ Memory };

    fn from(_: AllocFailed<T>) -> Self {
        CodecFault::Memory
    }
}

impl From<mrp_types::Memory> for CodecFault {
    ghost use Rattle.std.specs.Prelude.{◌≡◌};
    ghost use Rattle.command_codec.specs.declared.fault.CodecFault.TheVariants.{Memory};

    ghost from_gives = { λ _ fault. fault ≡ Memory };

    fn from(_: mrp_types::Memory) -> Self {
        CodecFault::Memory
    }
}
