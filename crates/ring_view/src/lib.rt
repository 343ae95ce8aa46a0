//! A ring as its tables see it, and what is kept of it, in the words of `protocol`.
//!
//! `specs/Views.antt` says for which ring and part a view, a durable state and the changes of a step so far stand.
#![tactic(auto)]

mod laws;
mod sending;
mod votes;

pub use laws::what_changes_leave;
pub use sending::{owner, send};
pub use votes::{is_majority, own_bit, pass_vote};
