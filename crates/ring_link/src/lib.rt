//! Which nodes of a ring are heard, and to whom a node passes what goes round.
#![tactic(auto)]

mod link;

pub use link::{RingLink, pass_on};
