//! The coordinator of a ring: its ballots, what is reported to them, and what it proposes, row by row as `protocol` has
//! them.
//!
//! `specs/Standing.antt` says for which ring and part a coordinator stands.
#![tactic(auto)]

mod asking;
mod campaign;
mod coordinator;
mod covered;
mod queue;
mod reports;

pub use coordinator::{Coordinator, SubmitFault};
