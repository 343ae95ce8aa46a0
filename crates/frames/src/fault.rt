//! Why bytes are no frame.

ghost use Rattle.std.specs.Prelude.{◌≡◌};
ghost use Rattle.frames.specs.Grammar.{fault_of};

use command_codec::CodecFault;

/// The first field that can't stand, from the left, by the position where it begins.
#[derive(Clone, Copy, Debug, PartialEq, Eq)]
pub enum FrameFault {
    /// There are more than 32,768 bytes.
    TooLong,
    /// A field passes the end.
    Short(usize),
    /// The first two bytes aren't those of a frame.
    BadMagic,
    /// The version isn't known.
    BadVersion(u8),
    /// The kind isn't one of a frame.
    BadKind(u8),
    /// A field is out of its range.
    BadField(usize),
    /// Bytes stand behind the last field.
    Left(usize),
    /// There is no memory for what was read.
    Memory,
}

impl From<CodecFault> for FrameFault {
    ghost from_gives = { λ fault own. own ≡ fault_of fault };

    fn from(fault: CodecFault) -> Self {
        match fault {
            CodecFault::Short(at) => FrameFault::Short(at),
            CodecFault::BadKind(at) => FrameFault::BadField(at),
            CodecFault::BadField(at) => FrameFault::BadField(at),
            CodecFault::TooLong(at) => FrameFault::BadField(at),
            CodecFault::Left(at) => FrameFault::Left(at),
            CodecFault::Memory => FrameFault::Memory,
        }
    }
}
