//! What a member of a ring has learned: a value for each instance, kept as runs of equal values.
//!
//! `specs/Filled.antt` has what a map holds once a range keeps what it held, the rest are the words of `protocol`.
#![tactic(auto)]

mod filling;
mod learner;
mod paging;

pub use filling::gap_end;
pub use learner::RingLearner;
