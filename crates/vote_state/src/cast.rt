//! A vote at one instance.

ghost use Rattle.std.specs.Prelude.{◌≡◌, IfOk};
ghost use Rattle.vote_state.specs.Ranges.{cast_of};

use mrp_types::{Ballot, Memory, Value, Voted};
use range_map::Same;

/// What was voted for at an instance, and in which ballot.
#[derive(Drop)]
pub struct Cast {
    pub ballot: Ballot,
    pub value: Value,
}

impl Cast {
    /// What is voted for at each instance of the range.
    pub fn of(vote: &Voted) -> Result<Cast, Memory>
        ensures { IfOk result (λ cast. cast ≡ cast_of vote.now) }
    {
        Ok(Cast {
            ballot: vote.ballot,
            value: vote.value.share()?,
        })
    }
}

impl Same for Cast {
    fn same(&self, other: &Self) -> bool {
        self.ballot == other.ballot && self.value.same(&other.value)
    }

    fn share(&self) -> Result<Self, Memory> {
        Ok(Cast {
            ballot: self.ballot,
            value: self.value.share()?,
        })
    }
}
