//! What a client sends and answers, and why it refuses.

use command_codec::CodecFault;
use frames::Frame;
use mrp_types::{NodeId, Octets};

/// A command on its way to an acceptor.
#[derive(Debug, Drop)]
pub struct Submit {
    pub to: NodeId,
    pub frame: Frame,
}

/// What the partitions replied to a command, as one reply.
#[derive(Debug, Drop)]
pub struct Answer {
    /// The command's number.
    pub seq: u64,
    /// The written reply.
    pub reply: Octets,
}

/// Why a command isn't asked: the first of these that there is.
#[derive(Clone, Copy, Debug, PartialEq, Eq)]
pub enum AskFault {
    /// The command of this number has no answer yet.
    Busy(u64),
    /// No ring orders the command.
    NoGroup,
    /// The command's number would be 2^63.
    SeqLimit,
    /// Want of memory.
    Memory,
}

impl From<mrp_types::Memory> for AskFault {
    ghost use Rattle.std.specs.Prelude.{◌≡◌};
    ghost use Rattle.client_core.specs.declared.asking.AskFault.TheVariants.{Memory};

    ghost from_gives = { λ _ fault. fault ≡ Memory };

    fn from(_: mrp_types::Memory) -> Self {
        AskFault::Memory
    }
}

/// Why a reply isn't taken that is waited for.
#[derive(Clone, Copy, Debug, PartialEq, Eq)]
pub enum ReplyFault {
    /// The bytes are no reply.
    Codec(CodecFault),
    /// Want of memory.
    Memory,
}

impl From<mrp_types::Memory> for ReplyFault {
    ghost use Rattle.std.specs.Prelude.{◌≡◌};
    ghost use Rattle.client_core.specs.declared.asking.ReplyFault.TheVariants.{Memory};

    ghost from_gives = { λ _ fault. fault ≡ Memory };

    fn from(_: mrp_types::Memory) -> Self {
        ReplyFault::Memory
    }
}

impl From<CodecFault> for ReplyFault {
    ghost use Rattle.std.specs.Prelude.{◌≡◌};
    ghost use Rattle.client_core.specs.Faults.{reply_fault};

    ghost from_gives = { λ fault made. made ≡ reply_fault fault };

    fn from(fault: CodecFault) -> Self {
        match fault {
            CodecFault::Memory => ReplyFault::Memory,
            other => ReplyFault::Codec(other),
        }
    }
}
