//! What is to be done about an attempt.

use mrp_types::{Members, NodeId, Tuple};

/// What an attempt waits for.
#[derive(Clone, Copy, Debug)]
pub enum Missing {
    /// The replicas that haven't answered.
    Answers(Members),
    /// The bytes of the chosen state from an offset on.
    Part(u64),
}

/// What is to be done next.
#[derive(Clone, Copy, Debug)]
pub enum Turn {
    /// What is missing is to be asked for again.
    Ask,
    Wait(Missing),
    /// The attempt is over: so many answers came, and so many were needed.
    NoQuorum { answered: u8, needed: u8 },
    /// The checkpoint of this tuple was just chosen, of this node.
    Choose(Tuple, NodeId),
    /// All bytes of the chosen state of this tuple are there.
    Install(Tuple),
    /// The attempt is over: answers enough came, and not all bytes.
    Again,
}
