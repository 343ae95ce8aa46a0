//! Why a text is no schedule.

ghost use Rattle.std.specs.Prelude.{◌≡◌};
ghost use Rattle.schedule.specs.Faults.{kind_of as kind_of_lem};

use text_lines::TextFault;

/// What is at fault in a line.
#[derive(Clone, Copy, Debug, PartialEq, Eq)]
pub enum FaultKind {
    /// A word is missing, or is none that may stand there.
    Word,
    /// A word is no decimal number, or no hexadecimal text, where one is due.
    Number,
    /// A number is out of its range, the deployment has no such client, or a value is too long.
    Range,
    /// No ring orders the command, or no partition has one of its logs.
    Route,
    /// Words are left over.
    Left,
    /// The bytes end without a line feed.
    Cut,
    /// There are more events or bytes than a schedule may have.
    TooMany,
    /// Want of memory.
    Memory,
}

/// The first line at fault, and its first fault.
#[derive(Clone, Copy, Debug, PartialEq, Eq)]
pub struct ScheduleFault {
    /// Counted from 1. Of `Memory` it is the line that was read when memory ran out.
    pub line: u32,
    pub kind: FaultKind,
}

pub(crate) fn kind_of(fault: TextFault) -> FaultKind
    ensures { result ≡ kind_of_lem fault }
{
    match fault {
        TextFault::Word => FaultKind::Word,
        TextFault::Number => FaultKind::Number,
        TextFault::Range => FaultKind::Range,
        TextFault::Hex => FaultKind::Number,
        TextFault::Left => FaultKind::Left,
        TextFault::Memory => FaultKind::Memory,
    }
}
