//! The merge of several rings: a learner takes the instances of its rings round after round, in the one order of all places, and
//! passes learned skips however many they are.
//!
//! `specs/Merged.antt` says which place comes next and how many learned runs were passed, `specs/Looked.antt` what a look at a learned
//! map answers.
#![tactic(auto)]

mod laws;
mod learned;
mod looks;
mod merging;
mod passing;

pub use laws::{merges_are_one, the_step_delivers, the_step_passes_skips, the_step_waits};
pub use learned::{Learners, look_at};
pub use looks::{Run, Runs};
pub use merging::Merge;
pub use passing::Next;
