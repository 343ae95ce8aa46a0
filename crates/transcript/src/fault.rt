//! Why bytes are no line.

use std::alloc::{AllocError, AllocFailed};

/// What is at fault in a line.
#[derive(Clone, Copy, Debug, PartialEq, Eq)]
pub enum LineKind {
    /// A word is missing, or is none that may stand there.
    Word,
    /// A word is no such number, tuple or party, where one is due.
    Number,
    /// A word is no lower-case hexadecimal text of one byte or more, or a value that is none.
    Hex,
    /// Words are left over, or a line stands after the end.
    Left,
    /// The bytes end without a line feed.
    Cut,
    /// There are more bytes than a transcript may have.
    TooMany,
    /// Want of memory.
    Memory,
}

/// The first line at fault, and its first fault from the left.
#[derive(Clone, Copy, Debug, PartialEq, Eq)]
pub struct LineFault {
    /// Counted from 1. Of `Memory` it is the line that was read when memory ran out.
    pub line: u32,
    pub kind: LineKind,
}

impl From<AllocError> for LineKind {
    ghost use Rattle.std.specs.Prelude.{◌≡◌};
    ghost use Rattle.transcript.specs.declared.fault.LineKind.TheVariants.{Memory};

    ghost from_gives = { λ _ kind. kind ≡ Memory };

    fn from(_: AllocError) -> Self {
        LineKind::Memory
    }
}

impl<T: Drop> From<AllocFailed<T>> for LineKind {
    ghost use Rattle.std.specs.Prelude.{◌≡◌};
    ghost use Rattle.transcript.specs.declared.fault.LineKind.TheVariants.{Memory};

    ghost from_gives = { λ _ kind. kind ≡ Memory };

    fn from(_: AllocFailed<T>) -> Self {
        LineKind::Memory
    }
}
