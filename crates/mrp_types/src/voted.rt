//! Votes and decisions as ranges of instances.

ghost use Rattle.std.specs.Prelude.{◌≡◌, IfOk};

use crate::{Ballot, Inst, Items, Memory, Value};

/// One vote for each instance from `lo` on and below `hi`, all of one ballot and value.
#[derive(Debug, Drop)]
pub struct Voted {
    pub lo: Inst,
    /// The first instance past the range.
    pub hi: Inst,
    pub ballot: Ballot,
    pub value: Value,
}

impl Voted {
    /// An equal vote, whose payload is shared and not copied.
    pub fn share(&self) -> Result<Self, Memory>
        ensures { IfOk result (λ voted. voted ≡ self.now) }
    {
        Ok(Voted {
            lo: self.lo,
            hi: self.hi,
            ballot: self.ballot,
            value: self.value.share()?,
        })
    }
}

/// Votes in order.
pub type Votes = Items<Voted>;

/// One decided value for each instance from `lo` on and below `hi`.
#[derive(Debug, Drop)]
pub struct Decided {
    pub lo: Inst,
    /// The first instance past the range.
    pub hi: Inst,
    pub value: Value,
}

/// Decided ranges in order.
pub type Ranges = Items<Decided>;
