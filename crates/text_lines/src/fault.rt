//! Why a line gave nothing.

use std::alloc::{AllocError, AllocFailed};

/// Why a word was not read.
#[derive(Clone, Copy, Debug, PartialEq, Eq)]
pub enum TextFault {
    /// A word is missing, or is another than what is due.
    Word,
    /// The word is no decimal number without a sign or leading zeros.
    Number,
    /// The number is out of the range that is asked for.
    Range,
    /// The word is no lower-case hexadecimal text, and not `-`.
    Hex,
    /// Words are left over.
    Left,
    /// Want of memory.
    Memory,
}

impl From<AllocError> for TextFault {
    ghost use Rattle.std.specs.Prelude.{◌≡◌};
    ghost use Rattle.text_lines.specs.declared.fault.TextFault.TheVariants.{Memory};

    ghost from_gives = { λ _ fault. fault ≡ Memory };

    fn from(_: AllocError) -> Self {
        TextFault::Memory
    }
}

impl<T: Drop> From<AllocFailed<T>> for TextFault {
    ghost use Rattle.std.specs.Prelude.{◌≡◌};
    ghost use Rattle.text_lines.specs.declared.fault.TextFault.TheVariants.{Memory};

    ghost from_gives = { λ _ fault. fault ≡ Memory };

    fn from(_: AllocFailed<T>) -> Self {
        TextFault::Memory
    }
}
