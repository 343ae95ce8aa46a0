//! What an acceptor keeps for good, and its changes: per ring the promise, the trim and the votes,
//! and the epoch of the node.
//!
//! `specs/Ranges.antt` has the votes as ranges, `specs/State.antt` the state and what a list of
//! changes makes of it, `specs/Valid.antt` which changes have a spelling.
#![tactic(auto)]

mod cast;
mod change;
mod durable;
mod ring;
mod voted;

pub use change::{Change, Changes, changes_add_up, changes_leave};
pub use durable::Durable;
pub use voted::ranges_stand_for_votes;
